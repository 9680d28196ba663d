//! The worst paths of an endpoint, in order.
//!
//! The fan-in of the endpoint is a cone whose walks are the tested paths to it (`path_search`). Its first walks are found in
//! order (`ranked_walks`), and a path is read off each.
#![tactic(auto)]

mod ranking;

pub use ranking::k_worst;
