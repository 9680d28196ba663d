//! Tests of the journal desk, by its public calls.
#![tactic(auto)]

#[cfg(test)]
mod blocks;
#[cfg(test)]
mod desks;
mod logs;
#[cfg(test)]
mod notes;
#[cfg(test)]
mod sinks;
