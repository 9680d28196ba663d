//! The status of a live run.

ghost use Rattle.std.specs.Prelude.{◌≡◌, max};
ghost use Rattle.live_server.specs.Statuses.{end_status, sessions_status, kept_status};

use live_journal::Unkept;
use live_run::Parted;
use live_session::{Outcome, TalkEnd};

/// The status of a session.
fn end_status(outcome: Outcome) -> u8
    ensures { result ≡ end_status outcome.clean outcome.end }
{
    match outcome.end {
        TalkEnd::Closed => { if outcome.clean { 0 } else { 1 } }
        TalkEnd::Deaf => 4,
        TalkEnd::Mute | TalkEnd::Unkept => 5,
        TalkEnd::Wanting | TalkEnd::Full => 6,
    }
}

/// The greater of two statuses.
pub(crate) fn greater(one: u8, other: u8) -> u8
    ensures { result ≡ max one other }
{
    if one < other { other } else { one }
}

/// The greatest status of sessions.
pub(crate) fn sessions_status<D>(sessions: &[Parted<D>]) -> u8
    ensures { result ≡ sessions_status sessions.now }
{
    let mut status = 0;
    for session in sessions {
        status = greater(status, end_status(session.outcome));
    }
    status
}

/// The status of a journal's file at the end.
pub(crate) fn kept_status(kept: Result<(), Unkept>) -> u8
    ensures { result ≡ kept_status kept }
{
    match kept {
        Ok(()) => 0,
        Err(Unkept::Failed) => 5,
        Err(Unkept::Memory) => 6,
    }
}
