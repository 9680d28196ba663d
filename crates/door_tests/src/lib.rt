//! Tests of what a live run asks of the outside, and of its words.
#![tactic(auto)]

#[cfg(test)]
mod doors;
#[cfg(test)]
mod gates;
#[cfg(test)]
mod halls;
#[cfg(test)]
mod hearing;
#[cfg(test)]
mod journals;
#[cfg(test)]
mod keepers;
#[cfg(test)]
mod lines;
#[cfg(test)]
mod words;
