//! The words of faults: a code and its names.

ghost use Rattle.std.specs.Prelude.{◌≡◌, ◌++◌, IfOk, OnOk, codes};
ghost use Rattle.std.specs.List.{flat_map};
ghost use Rattle.timing_defs.specs.Output.{word, place_text, large_text, fault_text, query_fault_text};

use crate::pieces::{push, push_names, push_word};
use sta_units::Memory;
use std::alloc::Global;
use timing_defs::{Fault, Items, Large, Many, Name, Place, QueryFault};

/// Words and the name behind them.
fn push_named(out: &mut Vec<u8>, words: &[u8], name: &Name) -> Result<(), Memory>
    ensures { OnOk result (out.new.items ≡ out.old.items ++ (words.now ++ word name.now)) }
{
    push(out, words)?;
    push_word(out, name.as_bytes())
}

/// The pins of a cycle behind their code.
fn push_loop(out: &mut Vec<u8>, names: &Items<Name>) -> Result<(), Memory>
    ensures { OnOk result
        (out.new.items ≡ out.old.items ++ (codes "E11" ++ flat_map word names.now)) }
{
    push(out, b"E11")?;
    push_names(out, names.as_slice())
}

fn push_place(out: &mut Vec<u8>, place: &Place) -> Result<(), Memory>
    ensures { OnOk result (out.new.items ≡ out.old.items ++ place_text place.now) }
{
    match place {
        Place::Pin(name) => push_named(out, b" pin", name),
        Place::Net(name) => push_named(out, b" net", name),
    }
}

fn push_out_of_range(out: &mut Vec<u8>, place: &Place) -> Result<(), Memory>
    ensures { OnOk result (out.new.items ≡ out.old.items ++ (codes "E16" ++ place_text place.now)) }
{
    push(out, b"E16")?;
    push_place(out, place)
}

fn push_large(out: &mut Vec<u8>, large: &Large) -> Result<(), Memory>
    ensures { OnOk result (out.new.items ≡ out.old.items ++ large_text large.now) }
{
    match large {
        Large::Pins => push(out, b" pins"),
        Large::Insts => push(out, b" insts"),
        Large::Nets => push(out, b" nets"),
        Large::Net(name) => push_named(out, b" net", name),
    }
}

fn push_too_large(out: &mut Vec<u8>, large: &Large) -> Result<(), Memory>
    ensures { OnOk result (out.new.items ≡ out.old.items ++ (codes "E17" ++ large_text large.now)) }
{
    push(out, b"E17")?;
    push_large(out, large)
}

/// The code of a fault and its names.
pub(crate) fn push_fault(out: &mut Vec<u8>, fault: &Fault) -> Result<(), Memory>
    ensures { OnOk result (out.new.items ≡ out.old.items ++ fault_text fault.now) }
{
    match fault {
        Fault::UnknownInstance(name) => push_named(out, b"E1", name),
        Fault::UnknownNet(name) => push_named(out, b"E2", name),
        Fault::UnknownCell(name) => push_named(out, b"E3", name),
        Fault::UnknownPin(name) => push_named(out, b"E4", name),
        Fault::NameTaken(name) => push_named(out, b"E5", name),
        Fault::PinsDiffer(name) => push_named(out, b"E6", name),
        Fault::AlreadyConnected(name) => push_named(out, b"E7", name),
        Fault::NotConnected(name) => push_named(out, b"E8", name),
        Fault::InUse(name) => push_named(out, b"E9", name),
        Fault::ManyDrivers(name) => push_named(out, b"E10", name),
        Fault::Loop(names) => push_loop(out, names),
        Fault::ClockNotTree(name) => push_named(out, b"E12", name),
        Fault::ConstraintDangling(name) => push_named(out, b"E13", name),
        Fault::RcNotTree(name) => push_named(out, b"E14", name),
        Fault::RcPinsDiffer(name) => push_named(out, b"E15", name),
        Fault::OutOfRange(place) => push_out_of_range(out, place),
        Fault::TooLarge(large) => push_too_large(out, large),
        Fault::Memory => Ok(()),
    }
}

/// The words of a fault: its code, and each of its names behind a blank.
///
/// # Errors
///
/// Want of memory alone.
pub fn fault_bytes(alloc: Global, fault: &Fault) -> Result<Vec<u8>, Memory>
    ensures { IfOk result (λ bytes. bytes.items ≡ fault_text fault.now) }
{
    let mut bytes = Vec::new(alloc);
    push_fault(&mut bytes, fault)?;
    Ok(bytes)
}

/// The code of a question's fault and its name.
pub(crate) fn push_query_fault(out: &mut Vec<u8>, fault: &QueryFault) -> Result<(), Memory>
    ensures { OnOk result (out.new.items ≡ out.old.items ++ query_fault_text fault.now) }
{
    match fault {
        QueryFault::UnknownPin(name) => push_named(out, b"Q1", name),
        QueryFault::NotEndpoint(name) => push_named(out, b"Q2", name),
        QueryFault::NotClocked(name) => push_named(out, b"Q3", name),
        QueryFault::UnknownName(name) => push_named(out, b"Q4", name),
        QueryFault::TooMany(Many::Instances) => push(out, b"Q5 instances"),
        QueryFault::TooMany(Many::Candidates) => push(out, b"Q5 candidates"),
        QueryFault::Memory => Ok(()),
    }
}
