//! The reader of scripts: the commands of a session, one a line, in order; and of sessions, line by
//! line.
#![tactic(auto)]

mod closing;
mod commands;
mod drafts;
mod laws;
mod lines;
mod live;
mod places;
mod scripts;
mod states;

pub use laws::{
    first_wrong_line, items_can_be_answered, items_of_more_lines, items_of_script, long_line_cut,
};
pub use live::{Heard, Item, LiveReader, Unread};
pub use scripts::read_script;
