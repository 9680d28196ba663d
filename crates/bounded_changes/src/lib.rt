//! Laws of the slacks that an edit leaves: where each path through what an edit changes has a greater slack than an
//! endpoint has, before the edit and after it, the endpoint keeps its slack.
#![tactic(auto)]
