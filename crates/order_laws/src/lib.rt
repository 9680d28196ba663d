//! The sessions of a generated run resize gates of lanes of their own, so each order of their edits gives the same
//! design: that of the scripts, one behind the other. Definitions and laws alone.
#![tactic(auto)]
