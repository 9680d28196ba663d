//! The keeper of a journal.

use live_doors::Keeper;

/// All entries up to this number stand in its journal.
#[derive(Clone, Copy, Drop)]
pub(crate) struct Keeping {
    pub(crate) number: u64,
}

impl Keeper for Keeping {
    ghost safe = { λ keeper. keeper.number };
}
