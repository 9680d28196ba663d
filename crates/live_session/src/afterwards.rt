//! What is known of a session that has talked.

ghost use Rattle.std.specs.Prelude.{◌≡◌, ◌≤◌, ℕ, Bool, true, List};
ghost use Rattle.std.specs.List.{list_all};
ghost use Rattle.timing_defs.specs.declared.scripts.Command.{Command};
ghost use Rattle.timing_defs.specs.declared.scripts.Row.{Row};
ghost use Rattle.script_reader.specs.LiveKept.{can_be_answered};
ghost use Rattle.live_session.specs.declared.replies.TalkEnd.{TalkEnd};
ghost use Rattle.live_session.specs.Talks.{AtDoor, Exactly, Talked, Telling, telling};

use crate::replies::Keeping;

/// What a session ran are some commands and their rows, and it talked about these and no others.
#[tactic(auto, using(crate::proofs::AfterLaws::exactly))]
pub fn ran_some_commands<S: Keeping>(_session: &S)
    ensures { (way : Telling) (old new : AtDoor) (clean : Bool) (end : TalkEnd)
        → Talked (S.ran _session.now) way old new clean end → (commands : List Command)
        × (rows : List Row) × S.ran _session.now commands rows
        × Talked (Exactly commands rows) way old new clean end }
{}

/// What a session told stays so, where more entries stand in the journal and a failed put is not forgotten.
#[tactic(auto, using(crate::proofs::AfterLaws::safer))]
pub fn told_for_good()
    ensures { (commands : List Command) (rows : List Row) (way : Telling) (old new : AtDoor)
        (clean : Bool) (end : TalkEnd) (safe : ℕ) (torn : Bool) → way.safe ≤ safe
        → (way.torn ≡ true → torn ≡ true) → Talked (Exactly commands rows) way old new clean end
        → Talked (Exactly commands rows) (telling safe torn way.manner) old new clean end }
{}

/// Each command that a session ran can be answered.
#[tactic(auto, using(crate::proofs::AfterLaws::asked_in))]
pub fn ran_what_can_be_answered()
    ensures { (commands : List Command) (rows : List Row) (way : Telling) (old new : AtDoor)
        (clean : Bool) (end : TalkEnd) → Talked (Exactly commands rows) way old new clean end
        → list_all can_be_answered commands ≡ true }
{}
