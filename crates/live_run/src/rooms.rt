//! What ties a run's sessions to their hall, besides the journal's desk.

ghost use Rattle.std.specs.Prelude.{ℕ, List, Option};

use std::marker::Brand;

/// Names the lines that come in at each seat of a run, where its hall tells them, and the reasons that the hall may have to open
/// no door there. The call that begins the run picks it, at `Brand`.
pub trait LiveRoom {
    ghost use Rattle.live_doors.specs.declared.door.Lost.{Lost};

    ghost lines: { ℕ → Option (List (List ℕ)) };

    ghost denies: { ℕ → Lost → Type 0 };
}

impl LiveRoom for Brand {
    ghost use Rattle.std.specs.Prelude.{None, ⊤};

    ghost lines = { λ seat. None };

    ghost denies = { λ seat lost. ⊤ };
}
