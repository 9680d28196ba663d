//! Pins of instances by their words, and the checks of edits on them.

ghost use Rattle.std.specs.Prelude.{◌≡◌, ◌<◌, true, Some, map, is_none, is_some, IfOk, OnOk, OnSome};
ghost use Rattle.std.specs.List.{list_all};
ghost use Rattle.std.specs.Option.{option_copied};
ghost use Rattle.timing_defs.specs.declared.faults.Fault.TheVariants.{AlreadyConnected, NotConnected};
ghost use Rattle.timing_defs.specs.Names.{is_name};
ghost use Rattle.timing_defs.specs.Edits.{has_colon, before_last, need_inst, need_pin_inst, need_pin, need_sink, inst_direction, word_direction, word_net, first_fault, unless};
ghost use Rattle.netlist_store.specs.Applying.{IsChecked};
ghost use Rattle.netlist_store.specs.Words.{IsLastColon};

use crate::cell_pins::{conn_net, direction_in};
use crate::stores::Store;
use crate::words::last_colon;
use sta_units::Memory;
use std::alloc::Global;
use timing_defs::{Dir, Fault, Name};

/// The direction of an instance's pin; none where there is no such instance or pin.
fn inst_direction(
    store: &Store,
    alloc: Global,
    inst: &[u8],
    pin: &[u8],
) -> Result<Option<Dir>, Memory>
    ensures { IfOk result (λ dir. dir ≡ inst_direction store.now.design inst.now pin.now) }
{
    let Some(inst) = store.inst_called(alloc, inst)? else {
        return Ok(None);
    };
    match store.late_cell(&inst.cell) {
        Some(cell) => Ok(direction_in(cell, pin)),
        None => Ok(None),
    }
}

/// The direction of the pin of a word; none for a port and where there is no such pin.
pub(crate) fn word_direction(
    store: &Store,
    alloc: Global,
    word: &Name,
) -> Result<Option<Dir>, Memory>
    ensures value { IfOk result (λ dir. dir ≡ word_direction store.now.design word.now) }
    ensures colon { IfOk result (λ dir. OnSome dir (has_colon word.now ≡ true)) }
{
    let word = word.as_bytes();
    match last_colon(word) {
        Some(colon) => inst_direction(store, alloc, &word[..colon], &word[colon + 1..]),
        None => Ok(None),
    }
}

/// The net of the pin of a word that has a colon.
pub(crate) fn word_net<'a>(
    store: &'a Store,
    alloc: Global,
    word: &Name,
) -> Result<Option<&'a Name>, Memory>
    requires { has_colon word.now ≡ true }
    ensures { IfOk result (λ net. option_copied net ≡ word_net store.now.design word.now) }
{
    let word = word.as_bytes();
    let Some(colon) = last_colon(word) else {
        unreachable!();
    };
    match store.inst_called(alloc, &word[..colon])? {
        Some(inst) => Ok(conn_net(inst, &word[colon + 1..])),
        None => Ok(None),
    }
}

/// The direction of a pin that has to be there.
pub(crate) fn needed_pin(store: &Store, alloc: Global, word: &Name) -> Result<Dir, Fault>
    ensures checked { IsChecked result (need_pin store.now.design word.now) }
    ensures dir { IfOk result (λ dir. word_direction store.now.design word.now ≡ Some dir) }
    ensures colon { OnOk result (has_colon word.now ≡ true) }
{
    match word_direction(store, alloc, word)? {
        Some(dir) => Ok(dir),
        None => Err(Fault::UnknownPin(word.copied(alloc)?)),
    }
}

/// Refuses what is no input pin of an instance.
pub(crate) fn check_sink(store: &Store, alloc: Global, word: &Name) -> Result<(), Fault>
    ensures checked { IsChecked result (need_sink store.now.design word.now) }
    ensures colon { OnOk result (has_colon word.now ≡ true) }
{
    match word_direction(store, alloc, word)? {
        Some(Dir::Input) => Ok(()),
        _ => Err(Fault::UnknownPin(word.copied(alloc)?)),
    }
}

/// Refuses a pin that is on a net.
pub(crate) fn check_unconnected(store: &Store, alloc: Global, word: &Name) -> Result<(), Fault>
    requires { has_colon word.now ≡ true }
    ensures checked { IsChecked result
        (unless (is_none (word_net store.now.design word.now)) (AlreadyConnected word.now)) }
{
    match word_net(store, alloc, word)? {
        Some(_) => Err(Fault::AlreadyConnected(word.copied(alloc)?)),
        None => Ok(()),
    }
}

/// The net of a pin that has to be on one.
pub(crate) fn needed_net_of<'a>(
    store: &'a Store,
    alloc: Global,
    word: &Name,
) -> Result<&'a Name, Fault>
    requires { has_colon word.now ≡ true }
    ensures checked { IsChecked result
        (unless (is_some (word_net store.now.design word.now)) (NotConnected word.now)) }
    ensures net { IfOk result (λ net. word_net store.now.design word.now ≡ Some net.now) }
{
    match word_net(store, alloc, word)? {
        Some(net) => Ok(net),
        None => Err(Fault::NotConnected(word.copied(alloc)?)),
    }
}

/// Refuses bytes that are the name of no instance.
fn check_inst_called(store: &Store, alloc: Global, inst: &[u8]) -> Result<(), Fault>
    requires { is_name inst.now ≡ true }
    ensures checked { IsChecked result (need_inst store.now.design inst.now) }
{
    let Some(name) = Name::from_bytes(alloc, inst)? else {
        unreachable!();
    };
    if store.inst_named(&name).is_some() {
        return Ok(());
    }
    Err(Fault::UnknownInstance(name))
}

/// Refuses a pin word that names an instance which is not there.
#[tactic(auto, using(crate::proofs::WordLaws::name_before))]
pub(crate) fn check_pin_inst(store: &Store, alloc: Global, word: &Name) -> Result<(), Fault>
    ensures checked { IsChecked result (need_pin_inst store.now.design word.now) }
{
    let word = word.as_bytes();
    let Some(colon) = last_colon(word) else {
        return Ok(());
    };
    if colon == 0 {
        return Ok(());
    }
    check_inst_called(store, alloc, &word[..colon])
}

/// Refuses the first pin word that names an instance which is not there.
pub(crate) fn check_pin_insts(store: &Store, alloc: Global, words: &[Name]) -> Result<(), Fault>
    ensures checked { IsChecked result
        (first_fault (map (need_pin_inst store.now.design) words.now)) }
{
    for word in words {
        check_pin_inst(store, alloc, word)?;
    }
    Ok(())
}

/// Refuses the first word that is no input pin of an instance.
pub(crate) fn check_sinks(store: &Store, alloc: Global, words: &[Name]) -> Result<(), Fault>
    ensures checked { IsChecked result (first_fault (map (need_sink store.now.design) words.now)) }
    ensures colons { OnOk result (list_all has_colon words.now ≡ true) }
{
    for word in words {
        check_sink(store, alloc, word)?;
    }
    Ok(())
}
