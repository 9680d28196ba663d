//! Questions about all endpoints and all clock pins of registers: the endpoints that fail, and the skews of launch edges.
//!
//! `failures` asks the analysis for the worst endpoints and cuts them at the first slack that is not negative. `registers` lists the
//! clock pins of registers that are in clock networks, `outermost` finds the node of outermost arrival on a launch edge among
//! theirs, and `skewing` tells the skew between the two.
#![tactic(auto)]

mod failures;
mod outermost;
mod registers;
mod skewing;

pub use failures::failing;
pub use skewing::skews;
