//! Laws of incremental timing: a node of an edited design that is no seed has the arcs in, tables, load and
//! wires that it has in the base, so its row is the same function of the rows of the nodes before it.
#![tactic(auto)]
