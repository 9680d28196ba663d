//! Bytes, numbers and names, put behind the bytes that are there.

ghost use Rattle.std.specs.Prelude.{◌≡◌, ◌++◌, OnOk, decimal, slice_index, length, ◌∷◌, []};
ghost use Rattle.design_maker.specs.Insts.{name_of, net_name, joined};
ghost use Rattle.design_maker.specs.Written.{conn_text};

use sta_units::Memory;
use std::alloc::Global;

pub(crate) fn push(out: &mut Vec<u8>, text: &[u8]) -> Result<(), Memory>
    ensures { OnOk result (out.new.items ≡ out.old.items ++ text.now) }
{
    out.extend_from_slice(text)?;
    Ok(())
}

/// A number.
pub(crate) fn push_number(alloc: Global, out: &mut Vec<u8>, n: u32) -> Result<(), Memory>
    ensures { OnOk result (out.new.items ≡ out.old.items ++ decimal n) }
{
    let digits = n.to_string(alloc)?;
    push(out, digits.as_bytes())
}

/// The rest of a name behind its letter: the lane and a number.
pub(crate) fn push_place(
    alloc: Global,
    out: &mut Vec<u8>,
    lane: u32,
    number: u32,
) -> Result<(), Memory>
    ensures { OnOk result
        (out.new.items ≡ out.old.items ++ (decimal lane ++ (95 ∷ decimal number))) }
{
    push_number(alloc, out, lane)?;
    push(out, b"_")?;
    push_number(alloc, out, number)
}

/// A connection of a pin to a net.
#[tactic(auto, unfolding(crate::specs::Written::conn_text))]
pub(crate) fn push_joined(out: &mut Vec<u8>, pin: &[u8], net: &[u8]) -> Result<(), Memory>
    ensures { OnOk result (out.new.items ≡ out.old.items ++ conn_text (joined pin.now net.now)) }
{
    push(out, b".")?;
    push(out, pin)?;
    push(out, b"(")?;
    push(out, net)?;
    push(out, b")")
}

/// A connection of a pin to a net of a lane.
#[tactic(auto, unfolding(crate::specs::Written::conn_text))]
pub(crate) fn push_conn(
    alloc: Global,
    out: &mut Vec<u8>,
    pin: &[u8],
    lane: u32,
    net: u32,
) -> Result<(), Memory>
    ensures { OnOk result
        (out.new.items ≡ out.old.items ++ conn_text (joined pin.now (net_name lane net))) }
{
    push(out, b".")?;
    push(out, pin)?;
    push(out, b"(n")?;
    push_place(alloc, out, lane, net)?;
    push(out, b")")
}
