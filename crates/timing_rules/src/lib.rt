//! The rules of static timing over the types of `timing_defs`, as definitions and laws alone: rows of nodes, tests, exceptions,
//! paths, required times, ranges of numbers, the checks of a design, reports and questions, affected cones, and sessions.
//! A changed rule opens the crates that speak of it and those above them; the readers and writers of texts, walks and levels
//! know `timing_defs` alone.
#![tactic(auto)]
