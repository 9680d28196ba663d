//! The pins of an instance, as it comes, becomes another cell, or goes.

ghost use Rattle.std.specs.Prelude.{◌≡◌, ◌≤◌, ◌++◌, ◌∷◌, ℕ, List, true, false, map, length, None, Some, option_and_then, if◌then◌else◌, IfOk};
ghost use Rattle.std.specs.List.{list_any};
ghost use Rattle.std.specs.Option.{option_or};
ghost use Rattle.std.specs.Str.{bytes_eq};
ghost use Rattle.timing_defs.specs.Netlist.{are_distinct, conn_net};
ghost use Rattle.netlist_store.specs.Numbering.{number_of};
ghost use Rattle.netlist_store.specs.Drafts.{Follows, IsFilled, KeepsNames, row_named, inst_row, row_among, is_lost};

use crate::building::full_name;
use crate::cell_pins::conn_net;
use crate::numberings::Numbering;
use crate::pin_tables::put_pin;
use crate::tables::PinRow;
use cow_table::CowTable;
use sta_units::Memory;
use std::alloc::Global;
use timing_defs::{CellPin, Inst, Name};

/// The number of the net of an instance's pin; none where it is on no net.
fn conn_number(nets: &Numbering, inst: &Inst, pin: &Name) -> Option<u32>
    ensures { result ≡ option_and_then (number_of nets.now) (conn_net inst.now.conns pin.now) }
{
    nets.number(conn_net(inst, pin.as_bytes())?)
}

/// Writes the row of a pin of an instance.
fn put_inst_pin(
    names: Numbering,
    rows: &mut CowTable<PinRow>,
    alloc: Global,
    base: &Numbering,
    nets: &Numbering,
    inst: &Inst,
    owner: u32,
    pin: &CellPin,
) -> Result<Numbering, Memory>
    requires follows { Follows base.now names }
    requires filled { IsFilled names rows.old }
    ensures rows { IfOk result
        (λ after. (q : List ℕ) → row_named after rows.new q
        ≡
        (if bytes_eq q (inst.now.name ++ 58 ∷ pin.now.name) then Some
        (inst_row nets.now inst.now owner pin.now) else row_named names rows.old q)) }
    ensures kept { IfOk result (λ after. KeepsNames names after) }
    ensures follows { IfOk result (λ after. Follows base.now after) }
    ensures filled { IfOk result (λ after. IsFilled after rows.new) }
{
    match full_name(alloc, &inst.name, &pin.name) {
        Ok(name) => {
            let row = PinRow {
                owner: Some(owner),
                net: conn_number(nets, inst, &pin.name),
                dir: pin.dir,
            };
            put_pin(names, rows, alloc, base, name, row)
        }
        Err(wanting) => {
            names.discard();
            Err(wanting)
        }
    }
}

/// Writes the rows of the pins of an instance.
pub(crate) fn put_inst_pins(
    names: Numbering,
    rows: &mut CowTable<PinRow>,
    alloc: Global,
    base: &Numbering,
    nets: &Numbering,
    inst: &Inst,
    owner: u32,
    pins: &[CellPin],
) -> Result<Numbering, Memory>
    requires distinct { are_distinct (map (λ p. p.name) pins.now) ≡ true }
    requires follows { Follows base.now names }
    requires filled { IsFilled names rows.old }
    ensures rows { IfOk result
        (λ after. (q : List ℕ) → row_named after rows.new q
        ≡ option_or (row_among inst.now.name (inst_row nets.now inst.now owner) pins.now q)
        (row_named names rows.old q)) }
    ensures kept { IfOk result (λ after. KeepsNames names after) }
    ensures follows { IfOk result (λ after. Follows base.now after) }
    ensures filled { IfOk result (λ after. IsFilled after rows.new) }
{
    let mut after = names;
    for pin in pins {
        after = put_inst_pin(after, rows, alloc, base, nets, inst, owner, pin)?;
    }
    Ok(after)
}

/// The numbering without a name.
fn without_name(names: Numbering, name: &Name, number: u32) -> Result<Numbering, Memory>
    requires { number_of names name.now ≡ Some number }
    ensures gone { IfOk result
        (λ after. (q : List ℕ) → number_of after q
        ≡ (if bytes_eq q name.now then None else number_of names q)) }
    ensures longer { IfOk result (λ after. length names ≤ length after) }
{
    names.laws();
    let _ = name;
    let after = names.without(number)?;
    after.laws();
    Ok(after)
}

/// The numbering without the name of a pin of an instance, where it has one.
fn without_pin(
    names: Numbering,
    alloc: Global,
    inst: &Name,
    pin: &Name,
) -> Result<Numbering, Memory>
    ensures gone { IfOk result
        (λ after. (q : List ℕ) → number_of after q
        ≡ (if bytes_eq q (inst.now ++ 58 ∷ pin.now) then None else number_of names q)) }
    ensures longer { IfOk result (λ after. length names ≤ length after) }
{
    match full_name(alloc, inst, pin) {
        Ok(name) => match names.number(&name) {
            Some(number) => without_name(names, &name, number),
            None => Ok(names),
        },
        Err(wanting) => {
            names.discard();
            Err(wanting)
        }
    }
}

/// Whether a pin of this name is among these.
fn has_pin(pins: &[CellPin], name: &Name) -> bool
    ensures { result ≡ list_any (λ p. bytes_eq p.name name.now) pins.now }
{
    pins.iter().any(|pin| pin.name == *name)
}

/// The numbering without the name of a pin of an instance, unless the pin stays.
fn without_lost_pin(
    names: Numbering,
    alloc: Global,
    inst: &Name,
    pin: &CellPin,
    stay: &[CellPin],
) -> Result<Numbering, Memory>
    ensures gone { IfOk result
        (λ after. (q : List ℕ) → number_of after q
        ≡ (if is_lost inst.now stay.now q pin.now then None else number_of names q)) }
    ensures longer { IfOk result (λ after. length names ≤ length after) }
{
    if has_pin(stay, &pin.name) {
        return Ok(names);
    }
    without_pin(names, alloc, inst, &pin.name)
}

/// The numbering without the names of the pins of an instance, but those that stay.
pub(crate) fn without_lost_pins(
    names: Numbering,
    alloc: Global,
    inst: &Name,
    pins: &[CellPin],
    stay: &[CellPin],
) -> Result<Numbering, Memory>
    ensures gone { IfOk result
        (λ after. (q : List ℕ) → number_of after q
        ≡ (if list_any (is_lost inst.now stay.now q) pins.now then None else number_of names q)) }
    ensures longer { IfOk result (λ after. length names ≤ length after) }
{
    let mut after = names;
    for pin in pins {
        after = without_lost_pin(after, alloc, inst, pin, stay)?;
    }
    Ok(after)
}

/// The rows of the pins of an instance as its cell becomes another: the pins that the new cell lacks
/// go, and each pin of the new cell has its row.
pub(crate) fn put_other_pins(
    names: Numbering,
    rows: &mut CowTable<PinRow>,
    alloc: Global,
    base: &Numbering,
    nets: &Numbering,
    inst: &Inst,
    owner: u32,
    old: &[CellPin],
    new: &[CellPin],
) -> Result<Numbering, Memory>
    requires distinct { are_distinct (map (λ p. p.name) new.now) ≡ true }
    requires follows { Follows base.now names }
    requires filled { IsFilled names rows.old }
    ensures rows { IfOk result
        (λ after. (q : List ℕ) → row_named after rows.new q
        ≡ option_or (row_among inst.now.name (inst_row nets.now inst.now owner) new.now q)
        (if list_any (is_lost inst.now.name new.now q) old.now then None else row_named names
        rows.old q)) }
    ensures kept { IfOk result
        (λ after. (q : List ℕ) (n : ℕ) → list_any (is_lost inst.now.name new.now q) old.now ≡ false
        → number_of names q ≡ Some n → number_of after q ≡ Some n) }
    ensures follows { IfOk result (λ after. Follows base.now after) }
    ensures filled { IfOk result (λ after. IsFilled after rows.new) }
{
    let left = without_lost_pins(names, alloc, &inst.name, old, new)?;
    left.laws();
    let after = put_inst_pins(left, rows, alloc, base, nets, inst, owner, new)?;
    Ok(after)
}
