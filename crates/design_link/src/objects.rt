//! Names of constraints that do not stand for what they should.

ghost use Rattle.std.specs.Prelude.{◌≡◌, ◌++◌, ◌∷◌, ◌&&◌, ◌||◌, [], ℕ, List, Some, true, option_map, if◌then◌else◌, IfOk, OnOk};
ghost use Rattle.std.specs.List.{filter_map};
ghost use Rattle.timing_defs.specs.Edits.{has_colon};
ghost use Rattle.timing_rules.specs.Rules.{is_clock_name};
ghost use Rattle.timing_defs.specs.Names.{as_pin};
ghost use Rattle.timing_rules.specs.Checks.{port_named, is_port, is_inst, is_pin, is_any, dangling_object, dangling_objects};
ghost use Rattle.netlist_store.specs.Numbering.{number_of, is_number};
ghost use Rattle.design_link.specs.Dangling.{is_there, word_of};

use crate::pin_words::pin_word;
use netlist_store::Store;
use sta_units::Memory;
use std::alloc::Global;
use timing_defs::{Clock, Dir, Items, Name, Object};

/// The direction of the port that has the number of a name; none where an instance's pin has it.
fn port_dir_at(store: &Store, pin: u32) -> Option<Dir>
    requires { is_number store.now.pins pin ≡ true }
    ensures { (name : List ℕ) → number_of store.now.pins name ≡ Some pin → result
        ≡ option_map (λ port. port.dir) (port_named store.now.design name) }
{
    store.laws();
    match store.inst_of(pin) {
        Some(_) => None,
        None => Some(store.dir_of(pin)),
    }
}

/// The direction of the port of a name; none where no port has it.
pub(crate) fn port_dir(store: &Store, name: &Name) -> Option<Dir>
    ensures { result ≡ option_map (λ port. port.dir) (port_named store.now.design name.now) }
{
    store.laws();
    match store.pin(name) {
        Some(pin) => port_dir_at(store, pin),
        None => None,
    }
}

/// Whether a port of a name and direction is there.
pub(crate) fn is_port(store: &Store, dir: Dir, name: &Name) -> bool
    ensures { result ≡ is_port store.now.design dir name.now }
{
    match port_dir(store, name) {
        Some(its) => its.is(dir),
        None => false,
    }
}

fn is_inst(store: &Store, name: &Name) -> bool
    ensures { result ≡ is_inst store.now.design name.now }
{
    store.laws();
    store.inst(name).is_some()
}

fn is_pin(store: &Store, name: &Name) -> bool
    ensures { result ≡ is_pin store.now.design name.now }
{
    store.laws();
    store.pin(name).is_some()
}

fn has_colon(name: &[u8]) -> bool
    ensures { result ≡ has_colon name.now }
{
    name.iter().any(|byte| b':' == *byte)
}

fn is_clock(clocks: &[Clock], name: &Name) -> bool
    ensures { result ≡ is_clock_name clocks.now name.now }
{
    clocks.iter().any(|clock| clock.name == *name)
}

/// Whether the pin or the instance of a word is there.
fn is_pin_or_inst(alloc: Global, store: &Store, word: &Name) -> Result<bool, Memory>
    ensures { IfOk result
        (λ there. there
        ≡ (is_pin store.now.design (as_pin word.now) || is_inst store.now.design word.now)) }
{
    let pin = pin_word(alloc, word)?;
    if is_pin(store, &pin) {
        return Ok(true);
    }
    Ok(is_inst(store, word))
}

/// Whether what a word of no written kind stands for is there.
fn is_any(alloc: Global, store: &Store, dir: Dir, word: &Name) -> Result<bool, Memory>
    ensures { IfOk result (λ there. there ≡ is_any store.now.design dir word.now) }
{
    if is_clock(store.constraints().clocks.as_slice(), word) {
        return Ok(true);
    }
    match port_dir(store, word) {
        Some(its) => Ok(its.is(dir)),
        None => is_pin_or_inst(alloc, store, word),
    }
}

/// Whether the pin of an instance is there.
fn is_inst_pin(store: &Store, name: &Name) -> bool
    ensures { result ≡ (has_colon name.now && is_pin store.now.design name.now) }
{
    if !has_colon(name.as_bytes()) {
        return false;
    }
    is_pin(store, name)
}

/// Whether what an object stands for is there.
fn is_there(alloc: Global, store: &Store, dir: Dir, object: &Object) -> Result<bool, Memory>
    ensures { IfOk result (λ there. there ≡ is_there store.now.design dir object.now) }
{
    match object {
        Object::Clock(_) => Ok(true),
        Object::Port(name) => Ok(is_port(store, dir, name)),
        Object::Pin(name) => Ok(is_inst_pin(store, name)),
        Object::Cell(name) => Ok(is_inst(store, name)),
        Object::Any(name) => is_any(alloc, store, dir, name),
    }
}

/// The word of an object.
fn word_of(object: &Object) -> &Name
    ensures { result.now ≡ word_of object.entry.now }
{
    match object {
        Object::Clock(name)
        | Object::Port(name)
        | Object::Pin(name)
        | Object::Cell(name)
        | Object::Any(name) => name,
    }
}

/// Adds a name, where it is to be added.
pub(crate) fn add_if(
    alloc: Global,
    names: &mut Items<Name>,
    wanting: bool,
    name: &Name,
) -> Result<(), Memory>
    ensures { OnOk result (names.new ≡ names.old ++ (if wanting then name.now ∷ [] else [])) }
{
    if !wanting {
        return Ok(());
    }
    let copy = name.copied(alloc)?;
    names.push(copy)?;
    Ok(())
}

/// Adds the word of an object, where what it stands for is not there.
fn add_object(
    alloc: Global,
    store: &Store,
    names: &mut Items<Name>,
    dir: Dir,
    object: &Object,
) -> Result<(), Memory>
    ensures { OnOk result
        (names.new
        ≡ names.old ++ filter_map (dangling_object store.now.design dir) (object.now ∷ [])) }
{
    let there = is_there(alloc, store, dir, object)?;
    add_if(alloc, names, !there, word_of(object))?;
    Ok(())
}

/// Adds the words of objects that are not there.
fn add_list(
    alloc: Global,
    store: &Store,
    names: &mut Items<Name>,
    dir: Dir,
    objects: &[Object],
) -> Result<(), Memory>
    ensures { OnOk result
        (names.new ≡ names.old ++ filter_map (dangling_object store.now.design dir) objects.now) }
{
    for object in objects {
        add_object(alloc, store, names, dir, object)?;
    }
    Ok(())
}

/// Adds the words of objects that are not there; an absent list has none.
pub(crate) fn add_objects(
    alloc: Global,
    store: &Store,
    names: &mut Items<Name>,
    dir: Dir,
    objects: &Option<Items<Object>>,
) -> Result<(), Memory>
    ensures { OnOk result
        (names.new ≡ names.old ++ dangling_objects store.now.design dir objects.now) }
{
    match objects {
        Some(objects) => add_list(alloc, store, names, dir, objects.as_slice()),
        None => Ok(()),
    }
}
