//! Connections of an instance, as a pin joins a net or leaves it.

ghost use Rattle.std.specs.Prelude.{◌≡◌, map, filter, not, Some, ◌++◌, ◌∷◌, [], if◌then◌else◌, IfOk, OnOk};
ghost use Rattle.std.specs.List.{list_any};
ghost use Rattle.timing_defs.specs.Edits.{connected, is_conn_of};

use sta_units::{Again, Memory};
use std::alloc::Global;
use timing_defs::{Conn, Items, Name};

/// Whether a pin is connected or tied.
fn has_conn(conns: &[Conn], pin: &Name) -> bool
    ensures { result ≡ list_any (is_conn_of pin.now) conns.now }
{
    conns.iter().any(|conn| conn.pin == *pin)
}

/// A connection, on the net where it is the pin's.
fn conn_on(alloc: Global, conn: &Conn, pin: &Name, net: &Name) -> Result<Conn, Memory>
    ensures { IfOk result
        (λ made. made
        ≡
        (if is_conn_of pin.now conn.now then record { pin = conn.now.pin; net = Some net.now } else
        conn.now)) }
{
    if conn.pin != *pin {
        return conn.again(alloc);
    }
    let pin = conn.pin.copied(alloc)?;
    let net = Some(net.copied(alloc)?);
    Ok(Conn { pin, net })
}

/// The connections, with the pin's own one on the net.
#[tactic(auto, using(std::proofs::lemmas::List::drop_more))]
fn written(alloc: Global, conns: &[Conn], pin: &Name, net: &Name) -> Result<Items<Conn>, Memory>
    ensures { IfOk result
        (λ made. made
        ≡ map
        (λ conn. if is_conn_of pin.now conn then record { pin = conn.pin; net = Some net.now } else
        conn) conns.now) }
{
    let mut made = Items::new(alloc);
    for conn in conns {
        made.push(conn_on(alloc, conn, pin, net)?)?;
    }
    Ok(made)
}

/// Adds a connection.
fn push_conn(made: &mut Items<Conn>, alloc: Global, pin: &Name, net: &Name) -> Result<(), Memory>
    ensures { OnOk result
        (made.new ≡ made.old ++ record { pin = pin.now; net = Some net.now } ∷ []) }
{
    let pin = pin.copied(alloc)?;
    let net = Some(net.copied(alloc)?);
    made.push(Conn { pin, net })
}

/// The connections with one more.
fn pushed(alloc: Global, conns: &Items<Conn>, pin: &Name, net: &Name) -> Result<Items<Conn>, Memory>
    ensures { IfOk result
        (λ made. made ≡ conns.now ++ record { pin = pin.now; net = Some net.now } ∷ []) }
{
    let mut made = conns.again(alloc)?;
    push_conn(&mut made, alloc, pin, net)?;
    Ok(made)
}

/// The connections as a pin joins a net: in place of its own one, or as the last one.
pub(crate) fn connected(
    alloc: Global,
    conns: &Items<Conn>,
    pin: &Name,
    net: &Name,
) -> Result<Items<Conn>, Memory>
    ensures { IfOk result (λ made. made ≡ connected pin.now net.now conns.now) }
{
    if has_conn(conns.as_slice(), pin) {
        written(alloc, conns.as_slice(), pin, net)
    } else {
        pushed(alloc, conns, pin, net)
    }
}

/// Adds a connection that is not the pin's.
fn push_other(made: &mut Items<Conn>, alloc: Global, conn: &Conn, pin: &Name) -> Result<(), Memory>
    ensures { OnOk result
        (made.new ≡ made.old ++ filter (λ conn. not (is_conn_of pin.now conn)) (conn.now ∷ [])) }
{
    if conn.pin == *pin {
        return Ok(());
    }
    made.push(conn.again(alloc)?)
}

/// The connections as a pin leaves its net: without its own one.
pub(crate) fn unconnected(alloc: Global, conns: &[Conn], pin: &Name) -> Result<Items<Conn>, Memory>
    ensures { IfOk result
        (λ made. made ≡ filter (λ conn. not (is_conn_of pin.now conn)) conns.now) }
{
    let mut made = Items::new(alloc);
    for conn in conns {
        push_other(&mut made, alloc, conn, pin)?;
    }
    Ok(made)
}
