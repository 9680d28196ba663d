//! How an incremental update goes over the nodes that it affects, level by level: a queue of the
//! nodes that wait for their turn, and the laws of such a pass over any rows.
#![tactic(auto)]

mod queues;

pub use queues::{LevelQueue, LevelTurn};
