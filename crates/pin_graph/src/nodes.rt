//! Nodes by the numbers of their pins.

ghost use Rattle.std.specs.Prelude.{◌≡◌, ◌<◌, ◌*◌, ◌+◌, ◌^◌};
ghost use Rattle.pin_graph.specs.Nodes.{node_number, pin_under, tran_under};

use timing_defs::Tran;

/// The number of a pin's node.
pub(crate) fn node_number(pin: u32, tran: Tran) -> u32
    requires { pin < 2 ^ 31 }
    ensures number { result ≡ node_number pin tran }
    ensures below { result < 2 * pin + 2 }
{
    match tran {
        Tran::Rise => 2 * pin,
        Tran::Fall => 2 * pin + 1,
    }
}

/// The number of a node's pin.
pub(crate) fn pin_under(node: u32) -> u32
    ensures { result ≡ pin_under node }
{
    node / 2
}

/// The transition of a node.
pub(crate) fn tran_under(node: u32) -> Tran
    ensures { result ≡ tran_under node }
{
    if node % 2 == 0 {
        Tran::Rise
    } else {
        Tran::Fall
    }
}
