//! Names and their numbers.

ghost use Rattle.std.specs.Prelude.{◌≡◌, ◌<◌, ◌≤◌, ◌^◌, ◌∷◌, ◌++◌, [], ℕ, List, true, false, cond, None, Some, length, map, set, slice_get, IfOk, IfSome, OnOk};
ghost use Rattle.std.specs.Option.{option_copied, option_map_or};
ghost use Rattle.std.specs.Str.{bytes_eq};
ghost use Rattle.timing_defs.specs.Names.{is_name};
ghost use Rattle.timing_defs.specs.Netlist.{are_distinct};
ghost use Rattle.netlist_store.specs.Numbering.{name_at, number_of, is_number, with_name, AreNumbers, AreKept};
ghost use Rattle.netlist_store.specs.Shards.{number_under};
ghost use Rattle.netlist_store.specs.Slots.{slot_name, slot_name_at, is_waiting};
ghost use Rattle.netlist_store.specs.declared.numberings.Slot.TheVariants.{Named, Waiting};

use crate::name_maps::NameMap;
use cow_table::{CowTable, Held};
use sta_units::{Again, Memory};
use std::alloc::Global;
use std::marker::Model;
use timing_defs::{Items, Name};

/// The greatest number of numbers.
const MOST: usize = 0x7fff_ffff;

/// What a number stands for: a name, or nothing. A number whose name was taken out waits until the
/// ECO ends; then it is a gap, which may be taken, and knows the next one.
#[derive(Drop)]
pub(crate) enum Slot {
    Named(Held<Name>),
    Waiting,
    Gap(Option<u32>),
}

impl Again for Slot {
    fn again(&self, alloc: Global) -> Result<Slot, Memory> {
        Ok(match self {
            Slot::Named(name) => Slot::Named(name.again(alloc)?),
            Slot::Waiting => Slot::Waiting,
            Slot::Gap(next) => Slot::Gap(*next),
        })
    }
}

/// The slot of a number; none past the last one.
fn slot_at(slots: &CowTable<Slot>, number: u32) -> Option<&Slot>
    ensures { option_copied result ≡ slice_get slots.now number }
{
    let number = number as usize;
    if number < slots.len() {
        Some(slots.get(number))
    } else {
        None
    }
}

/// The name of a number; none for a gap and past the last one.
fn name_in(slots: &CowTable<Slot>, number: u32) -> Option<&Held<Name>>
    ensures { option_copied result ≡ slot_name_at slots.now number }
{
    match slot_at(slots, number)? {
        Slot::Named(name) => Some(name),
        _ => None,
    }
}

/// Gives slots and numbers up.
fn give_up(_slots: CowTable<Slot>, _left: Items<u32>) {}

/// Whether a number waits to be released.
fn waits(slots: &CowTable<Slot>, number: u32) -> bool
    ensures { result ≡ option_map_or is_waiting (slice_get slots.now number) false }
{
    match slot_at(slots, number) {
        Some(Slot::Waiting) => true,
        _ => false,
    }
}

/// A number for a new name, and the gap that may be taken after it.
#[derive(Clone, Copy)]
struct Choice {
    number: u32,
    free: Option<u32>,
}

/// Names with numbers, distinct both ways. Contracts see what each number stands for. The number of
/// a name that is taken out may be used again once the ECO ends: until then it is among `left`.
#[derive(Drop)]
pub(crate) struct Numbering {
    slots: CowTable<Slot>,
    numbers: NameMap,
    free: Option<u32>,
    left: Items<u32>,
    alloc: Global,
}

impl Model for Numbering {
    ghost use Rattle.std.specs.Prelude.{List, ℕ, Option, map, length, ◌<◌, ◌^◌};
    ghost use Rattle.netlist_store.specs.Numbering.{Agrees};
    ghost use Rattle.netlist_store.specs.Shards.{number_under};
    ghost use Rattle.netlist_store.specs.Slots.{slot_name};

    ghost Value = { List (Option (List ℕ)) };

    ghost view = { λ n. map slot_name n.slots };

    ghost invariant = { λ n. Agrees (number_under n.numbers) (map slot_name n.slots)
        × (length n.slots < 2 ^ 31) };
}

impl Numbering {
    /// No names.
    pub(crate) fn new(alloc: Global) -> Result<Numbering, Memory>
        ensures { IfOk result (λ made. made ≡ []) }
    {
        let numbers = NameMap::new(alloc)?;
        Ok(Numbering {
            slots: CowTable::new(alloc),
            numbers,
            free: None,
            left: Items::new(alloc),
            alloc,
        })
    }

    /// Gives the names up.
    pub(crate) fn discard(self) {
        let Numbering {
            slots,
            numbers,
            free: _,
            left,
            alloc: _,
        } = self;
        numbers.discard();
        give_up(slots, left);
    }

    /// A copy, which shares what neither changes.
    pub(crate) fn copy(&self) -> Result<Numbering, Memory>
        ensures { IfOk result (λ copy. copy ≡ self.now) }
    {
        let left = self.left.again(self.alloc)?;
        let numbers = self.numbers.copy()?;
        match self.slots.copy() {
            Ok(slots) => Ok(Numbering {
                slots,
                numbers,
                free: self.free,
                left,
                alloc: self.alloc,
            }),
            Err(wanting) => {
                numbers.discard();
                Err(wanting)
            }
        }
    }

    /// What every numbering keeps, told to the proofs of callers; the call does nothing.
    pub(crate) fn laws(&self)
        ensures { AreNumbers self.now }
    {
        let _ = &self.free;
    }

    /// A number above all.
    pub(crate) fn bound(&self) -> u32
        ensures bound { result ≡ length self.now }
        ensures below { result < 2 ^ 31 }
    {
        self.slots.len() as u32
    }

    /// The number of a name.
    pub(crate) fn number(&self, name: &Name) -> Option<u32>
        ensures { result ≡ number_of self.now name.now }
    {
        self.numbers.number(name)
    }

    /// What is no name has no number; told to the proofs of callers.
    pub(crate) fn nameless(&self, bytes: &[u8])
        requires { is_name bytes.now ≡ false }
        ensures { number_of self.now bytes.now ≡ None }
    {
        self.numbers.nameless(bytes);
    }

    /// Whether a number stands for a name.
    pub(crate) fn has(&self, number: u32) -> bool
        ensures { result ≡ is_number self.now number }
    {
        name_in(&self.slots, number).is_some()
    }

    /// The name of a number.
    pub(crate) fn name(&self, number: u32) -> &Name
        requires { is_number self.now number ≡ true }
        ensures { name_at self.now number ≡ Some result.now }
    {
        match name_in(&self.slots, number) {
            Some(name) => name.get(),
            None => unreachable!(),
        }
    }

    /// The numbering with a new name, whose number is after all others.
    fn pushed(self, name: Name) -> Result<Numbering, Memory>
        requires fresh { number_of self name ≡ None }
        ensures { IfOk result (λ after. after ≡ self ++ Some name ∷ []) }
    {
        let number = self.bound();
        if number as usize >= MOST {
            self.discard();
            return Err(Memory);
        }
        let Numbering {
            mut slots,
            mut numbers,
            free,
            left,
            alloc,
        } = self;
        match push_name(&mut slots, &mut numbers, alloc, name, number) {
            Ok(()) => Ok(Numbering {
                slots,
                numbers,
                free,
                left,
                alloc,
            }),
            Err(wanting) => {
                numbers.discard();
                give_up(slots, left);
                Err(wanting)
            }
        }
    }

    /// The numbering without a number, whose name is this.
    fn without_name(self, name: &Name, number: u32) -> Result<Numbering, Memory>
        requires { name_at self number ≡ Some name.now }
        ensures { IfOk result (λ after. after ≡ set self number None) }
    {
        let Numbering {
            mut slots,
            mut numbers,
            free,
            mut left,
            alloc,
        } = self;
        match take_name(&mut slots, &mut numbers, &mut left, name, number) {
            Ok(()) => Ok(Numbering {
                slots,
                numbers,
                free,
                left,
                alloc,
            }),
            Err(wanting) => {
                numbers.discard();
                give_up(slots, left);
                Err(wanting)
            }
        }
    }

    /// The numbering without the name of a number. The number is not used for another name until
    /// the numbering is settled.
    pub(crate) fn without(self, number: u32) -> Result<Numbering, Memory>
        requires { is_number self number ≡ true }
        ensures { IfOk result (λ after. after ≡ set self number None) }
    {
        match self.name(number).copied(self.alloc) {
            Ok(name) => self.without_name(&name, number),
            Err(wanting) => {
                self.discard();
                Err(wanting)
            }
        }
    }

    /// Lets a number that waits be used again; another is left as it is.
    fn release(&mut self, number: u32) -> Result<(), Memory>
        ensures { OnOk result (self.new ≡ self.old) }
    {
        if !waits(&self.slots, number) {
            return Ok(());
        }
        self.slots.set(number as usize, Slot::Gap(self.free))?;
        self.free = Some(number);
        Ok(())
    }

    /// Lets these numbers be used again.
    fn release_all(&mut self, numbers: &[u32]) -> Result<(), Memory>
        ensures { OnOk result (self.new ≡ self.old) }
    {
        for number in numbers {
            self.release(*number)?;
        }
        Ok(())
    }

    /// The numbers that wait, and the numbering in which none does yet.
    fn unsettled(self) -> (Numbering, Items<u32>)
        ensures { result.0 ≡ self }
    {
        let Numbering {
            slots,
            numbers,
            free,
            left,
            alloc,
        } = self;
        let rest = Numbering {
            slots,
            numbers,
            free,
            left: Items::new(alloc),
            alloc,
        };
        (rest, left)
    }

    /// Lets all numbers whose names were taken out be used again, in time of their count.
    pub(crate) fn settled(self) -> Result<Numbering, Memory>
        ensures { IfOk result (λ after. after ≡ self) }
    {
        let (mut after, left) = self.unsettled();
        match after.release_all(left.as_slice()) {
            Ok(()) => Ok(after),
            Err(wanting) => {
                after.discard();
                Err(wanting)
            }
        }
    }

    /// A gap that was released and that stands for nothing in the base either, and the next one.
    fn released_gap(&self, base: &Numbering) -> Option<Choice>
        ensures gap { IfSome result (λ choice. name_at self.now choice.number ≡ None) }
        ensures within { IfSome result (λ choice. choice.number < length self.now) }
        ensures base { IfSome result (λ choice. name_at base.now choice.number ≡ None) }
    {
        let number = self.free?;
        if base.has(number) {
            return None;
        }
        match slot_at(&self.slots, number)? {
            Slot::Gap(next) => Some(Choice {
                number,
                free: *next,
            }),
            _ => None,
        }
    }

    /// The number for a new name: that which it has in the base, a gap, or one after all others.
    fn choice(&self, base: &Numbering, name: &Name) -> Choice
        requires fresh { number_of self.now name.now ≡ None }
        requires longer { length base.now ≤ length self.now }
        requires kept { AreKept base.now self.now }
        ensures gap { name_at self.now result.number ≡ None }
        ensures within { result.number ≤ length self.now }
        ensures number { (m : ℕ) → number_of base.now name.now ≡ Some m → result.number ≡ m }
        ensures name { (old : List ℕ) → name_at base.now result.number ≡ Some old → old ≡ name.now }
    {
        self.laws();
        if let Some(number) = base.number(name) {
            return Choice {
                number,
                free: self.free,
            };
        }
        match self.released_gap(base) {
            Some(choice) => choice,
            None => Choice {
                number: self.bound(),
                free: self.free,
            },
        }
    }

    /// The numbering with a new name, and its number. A name that the base has keeps the number
    /// that it has there, and no number of the base is given to another name.
    pub(crate) fn with(self, base: &Numbering, name: Name) -> Result<(Numbering, u32), Memory>
        requires fresh { number_of self name ≡ None }
        requires longer { length base.now ≤ length self }
        requires kept { AreKept base.now self }
        ensures added { IfOk result (λ made. made.0 ≡ with_name self made.1 name) }
        ensures gap { IfOk result (λ made. name_at self made.1 ≡ None) }
        ensures within { IfOk result (λ made. made.1 ≤ length self) }
        ensures kept { IfOk result (λ made. AreKept base.now made.0) }
    {
        let choice = self.choice(base, &name);
        if choice.number as usize >= MOST {
            self.discard();
            return Err(Memory);
        }
        let Numbering {
            mut slots,
            mut numbers,
            free: _,
            left,
            alloc,
        } = self;
        match put_name(&mut slots, &mut numbers, alloc, name, choice.number) {
            Ok(()) => {
                let made = Numbering {
                    slots,
                    numbers,
                    free: choice.free,
                    left,
                    alloc,
                };
                Ok((made, choice.number))
            }
            Err(wanting) => {
                numbers.discard();
                give_up(slots, left);
                Err(wanting)
            }
        }
    }
}

/// Distinct names with numbers in their order.
pub(crate) fn numbered(alloc: Global, names: Items<Name>) -> Result<Numbering, Memory>
    requires { are_distinct names ≡ true }
    ensures { IfOk result (λ made. made ≡ map Some names) }
{
    let mut made = Numbering::new(alloc)?;
    for name in names.into_vec() {
        made = made.pushed(name)?;
    }
    Ok(made)
}

/// Puts a name after all others.
fn push_name(
    slots: &mut CowTable<Slot>,
    numbers: &mut NameMap,
    alloc: Global,
    name: Name,
    number: u32,
) -> Result<(), Memory>
    ensures slots { OnOk result (slots.new ≡ slots.old ++ Named name ∷ []) }
    ensures numbers { OnOk result
        ((q : List ℕ) → number_under numbers.new q
        ≡ cond (bytes_eq name q) (Some number) (number_under numbers.old q)) }
{
    let name = Held::of(alloc, name)?;
    numbers.put(name.share()?, number)?;
    slots.push(Slot::Named(name))
}

/// Writes a name at a number, which is one of the slots or the next one.
fn put_name(
    slots: &mut CowTable<Slot>,
    numbers: &mut NameMap,
    alloc: Global,
    name: Name,
    number: u32,
) -> Result<(), Memory>
    requires { number ≤ length slots.old }
    ensures slots { OnOk result
        (map slot_name slots.new ≡ with_name (map slot_name slots.old) number name) }
    ensures numbers { OnOk result
        ((q : List ℕ) → number_under numbers.new q
        ≡ cond (bytes_eq name q) (Some number) (number_under numbers.old q)) }
{
    let name = Held::of(alloc, name)?;
    numbers.put(name.share()?, number)?;
    put_slot(slots, number, name)
}

/// Takes the name of a number out; the number waits.
fn take_name(
    slots: &mut CowTable<Slot>,
    numbers: &mut NameMap,
    left: &mut Items<u32>,
    name: &Name,
    number: u32,
) -> Result<(), Memory>
    requires { number < length slots.old }
    ensures slots { OnOk result (slots.new ≡ set slots.old number Waiting) }
    ensures numbers { OnOk result
        ((q : List ℕ) → number_under numbers.new q
        ≡ cond (bytes_eq name.now q) None (number_under numbers.old q)) }
{
    numbers.remove(name)?;
    slots.set(number as usize, Slot::Waiting)?;
    left.push(number)
}

/// Writes a name at a number, which is one of the slots or the next one.
fn put_slot(slots: &mut CowTable<Slot>, number: u32, name: Held<Name>) -> Result<(), Memory>
    requires { number ≤ length slots.old }
    ensures { OnOk result
        (map slot_name slots.new ≡ with_name (map slot_name slots.old) number name) }
{
    if (number as usize) < slots.len() {
        slots.set(number as usize, Slot::Named(name))
    } else {
        slots.push(Slot::Named(name))
    }
}
