//! What generated designs are read as: the readers of libraries, netlists, constraints and scripts
//! find no fault in the texts that [`design_maker::make`] gives, and read them as the lists of its
//! definitions. Each law is a public function with an empty body.
#![tactic(auto)]

mod constants;
mod netlists;
mod scripts;

pub use constants::{constraints_read_back, library_read_back};
pub use netlists::{generated_netlist_read_back, written_netlist_read_back};
pub use scripts::scripts_read_back;
