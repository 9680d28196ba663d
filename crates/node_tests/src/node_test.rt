//! A test of a node.

use sta_units::Fs;
use timing_defs::Tran;

/// A test of a node: the number of the clock pin's node in the graph (none at an output port), the time
/// in fs that the test needs, the capture edge (a clock's place in the list of clocks and a transition),
/// and the early and the late arrival in fs of the capture edge at the clock pin (0 at an output port).
#[derive(Clone, Copy, Drop)]
pub struct NodeTest {
    pub clock: Option<u32>,
    pub need: Fs,
    pub capture_clock: u32,
    pub capture_tran: Tran,
    pub early: Fs,
    pub late: Fs,
}
