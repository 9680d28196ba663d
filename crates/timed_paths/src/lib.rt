//! Paths stage by stage, with the path of their capture clock and their required time by parts.
//!
//! A node of a path is found by its name, with the delay of the arc into it (`delays`) and the net that it
//! drives (`driven`); these make its stage (`stages`). Of the tests of the path's last node the one that
//! counts is found again (`choosing`): the path's slack by a test takes the path's launch (`launches`), the
//! separation of the edges (`separations`) and the credit of the part that it shares with the walk to the
//! clock pin (`captures`, `credits`). That test gives the parts of the required time (`parts`), and the
//! nodes of its walk are the stages of the capture clock. All this is put together in `timed`, and the two
//! answers stand in `answers`.
#![tactic(auto)]

mod answers;
mod captures;
mod choosing;
mod credits;
mod delays;
mod driven;
mod launches;
mod parts;
mod separations;
mod stages;
mod sums;
mod timed;

pub use answers::{timing, timing_through};
