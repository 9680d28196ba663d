//! Units and numbers of static timing: whole femtoseconds, attofarads and milliohms.
#![tactic(auto)]

mod appending;
mod copies;
mod counting;
mod decimals;
mod numbers;
mod printing;
mod steps;
mod together;
mod units;

pub use appending::{append, append_number};
pub use copies::Again;
pub use decimals::{DecFault, decimal};
pub use numbers::{LIM, rnd, root};
pub use printing::print_ps;
pub use steps::Steps;
pub use together::{Pair, both};
pub use units::{Af, Fs, Memory, Mo, Unit};
