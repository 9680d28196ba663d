//! The doors of live sessions: lines come in, pieces go out, and what was done is told in order. Beside them what
//! else a live run asks of the outside: a journal's file that is appended to under a lock, and a gate that pauses
//! those who wait.
#![tactic(auto)]

mod append_sink;
mod door;
mod ends;
mod halls;
mod history;
mod lines;
mod live_gate;
mod log;
mod mark;
mod mem_door;
mod open_door;
mod plan;
mod record;
mod writing;

pub use append_sink::{AppendSink, NotOpened};
pub use door::{Door, Hall, Keeper, Lost};
pub use ends::Ends;
pub use halls::{NamedDoor, NamedHall, Printed, StandardDoor, StandardHall};
pub use live_gate::LiveGate;
pub use mem_door::{MemDoor, MemHall, MemSeat};
pub use open_door::OpenDoor;
pub use record::Done;
