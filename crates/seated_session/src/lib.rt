//! A live session at its seat: it answers each command by the engine over the board of versions, and sees to it by the desk that all
//! sessions share that entries stand in the journal before it tells of them.
#![tactic(auto)]

mod keepers;
mod laws;
mod seated;
mod shared;
mod talking;

pub use laws::answered_is_run;
pub use seated::SeatedSession;
pub use shared::Shared;
pub use talking::talk;
