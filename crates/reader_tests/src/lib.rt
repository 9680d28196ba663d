//! Tests of the texts that are written, and of the least fault. What the readers give is in the rows of `reader_rows`.
#![tactic(auto)]

#[cfg(test)]
mod faults;
#[cfg(test)]
mod reports;
