//! Tests of whole live runs, by their top call, over doors, documents and a journal in memory.
#![tactic(auto)]

#[cfg(test)]
mod given;
#[cfg(test)]
mod journals;
#[cfg(test)]
mod meeting;
#[cfg(test)]
mod sessions;
