//! What an ECO leaves of a design: definitions and laws alone, for the crates that update an analysis.
#![tactic(auto)]
