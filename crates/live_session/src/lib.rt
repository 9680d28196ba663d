//! Live sessions: each line of a session is answered before the next one is read.
//!
//! The specs say what the conversation of a session at its door is. `tell` sees to it that the journal has all entries up to a
//! row's number, and says the reply. What hears lines and answers them stands above, in `seated_session`.
#![tactic(auto)]

mod afterwards;
mod moments;
mod replies;
mod talking;

pub use afterwards::{ran_some_commands, ran_what_can_be_answered, told_for_good};
pub use moments::{answered_before_heard, cut_within_the_last, each_moment, marked_before_said};
pub use replies::{Keeping, Manner, Outcome, Reply, TalkEnd, Unanswered, Untold};
pub use talking::{Round, Told, is_clean, tell};
