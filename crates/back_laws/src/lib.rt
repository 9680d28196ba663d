//! Laws of incremental timing, backward: a node of an edited design that is no backward one has the tests and the
//! required times that it has in the base.
#![tactic(auto)]
