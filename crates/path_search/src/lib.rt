//! The worst path to an endpoint.
//!
//! The fan-in of the endpoint's two nodes is a cone (`cones`), with what each of its nodes offers as the
//! launch of paths to an end node (`offers`): the least slack by a test of the end node (`ends`,
//! `test_slacks`), less the delays after the launch node (`launches`). Credits are found in the clock tree
//! (`trees`). For the worst path the cone is made of the nodes of walks with the least slack alone, which a
//! search with a bound finds (`node_fans`, `near_cones`); its worst walk is found in the order of the names of
//! pins (`orders`), and a path is read off it (`shown`), by the test that counts (`counted`).
//!
//! Other searches over an endpoint's paths take its cone (`pin_cone`), find walks of it in the order of
//! names (`ByName`), and read a path off each (`path_of`, or where several are read `path_of_tested`, by
//! tests that `find_tests` finds once); `walk_path_laws` tells that these walks are the tested paths to the
//! endpoint.
#![tactic(auto)]

mod cones;
mod counted;
mod edges;
mod end_lows;
mod ends;
mod launches;
mod lows;
mod names;
mod near_cones;
mod node_fans;
mod offers;
mod orders;
mod searching;
mod shown;
mod sources;
mod sums;
mod test_slacks;
mod tested;
mod trees;

pub use cones::{PinCone, pin_cone};
pub use end_lows::end_low;
pub use orders::{ByName, node_of};
pub use searching::{
    EndpointSlacks, search_laws, walk_path_laws, walk_place_laws, worst_path, worst_slack,
    worst_slacks,
};
pub use shown::{path_of, path_of_tested};
pub use sources::Sources;
pub use tested::{Tested, find_tests};
pub use trees::clock_tree;
