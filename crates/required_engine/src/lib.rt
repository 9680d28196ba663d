//! Required times of all nodes: from the endpoints back, level by level with each level's nodes shared
//! between threads, and the required times of one node over those of the nodes after it.
//!
//! At an endpoint a required time is the time that gives a test slack 0, without credit and exceptions;
//! elsewhere it is that of a node after it less the delay between, over the arcs out. Levels rise along
//! arcs. So the rows of a level are found from those of the higher levels, by a plain map over its nodes
//! (`passes`); one node is evaluated in `nodes`, over what is found in `limits`, `arcs_out` and `times`.
//!
//! After an ECO the nodes are evaluated that it may change of itself (`first_nodes`), and those before a
//! node whose required times are others than the base's, from the highest level down (`renewing`); all
//! other rows are shared with the base (`updating`).
#![tactic(auto)]

mod arcs_out;
mod first_nodes;
mod limits;
mod nodes;
mod ordering;
mod passes;
mod renewing;
mod tables;
mod times;
mod turns;
mod unfit;
mod updating;

pub use nodes::eval_back;
pub use tables::Required;
