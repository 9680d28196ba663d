//! The worst path to an endpoint through given pins.
//!
//! The fan-in of the endpoint is a cone whose walks are the tested paths to it (`path_search`). The places of the pins' nodes in
//! it are stops (`stops`), and each launch is told how many pins its paths have passed when they begin (`begun`). The
//! worst walk that passes the stops in their order is found (`through_walks`), and the path is read off it.
#![tactic(auto)]

mod begun;
mod stops;
mod through;

pub use through::worst_through;
