//! Tests of whole runs of the server, by its top call, whose sessions are held at points of the run or left free. Runs that
//! write one text alone are rows of `shell_rows`.
#![tactic(auto)]

#[cfg(test)]
mod documents;
#[cfg(test)]
mod limits;
#[cfg(test)]
mod running;
#[cfg(test)]
mod sessions;
