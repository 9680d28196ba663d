//! The totals of endpoints by the clocks that capture them.
//!
//! `captures` finds the capture clock and the slack of the shown path of each endpoint, in the order of the numbers of pins;
//! one of which the analysis keeps that it has no slack is not searched (`kept`). `totals` sums them for a clock, and `summing` makes
//! the summary of all clocks.
#![tactic(auto)]

mod captures;
mod kept;
mod summing;
mod totals;

pub use summing::clock_totals;
