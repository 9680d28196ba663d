//! What ties a desk to its board, its file and its receipts.

ghost use Rattle.live_journal.specs.Desk.{Setting};

use std::marker::Brand;
use timing_defs::Design;

/// Names the board and the file of a desk: the board, its first number and origin, the number of the desk's seat, the file and its
/// count of faults as they were at first, the factors of the blocks, and the cell of its receipts. The call that begins the desk
/// picks it, at `Brand`.
pub trait Room<O> {
    ghost about: { Setting O };
}

impl Room<Design> for Brand {
    ghost use Rattle.live_journal.specs.Desk.{nowhere};

    ghost about = { nowhere };
}
