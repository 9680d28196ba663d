//! What a command has said so far.

ghost use Rattle.std.specs.Prelude.{◌≡◌, [], ◌∷◌, ◌++◌, IfOk, OnOk, MatchOption, Some, None};
ghost use Rattle.timing_defs.specs.Names.{is_name};
ghost use Rattle.timing_defs.specs.Names.{as_pin};
ghost use Rattle.sdc_reader.specs.declared.draft.Figure.TheVariants as figures;
ghost use Rattle.sdc_reader.specs.Meaning.{no_flags, no_wave, empty_draft, with_flag, with_number, with_objects, object_of, added, with_object, named, first, clock_name};

use crate::commands::{Command, Flag, Getter, Quantity, Role};
use crate::pins::pin_name;
use sta_units::Memory;
use std::alloc::Global;
use timing_defs::{Items, Name, Object};

/// A written number in its unit, or why there is none.
#[derive(Clone, Copy, Drop)]
pub(crate) enum Figure {
    /// None was written.
    Absent,
    /// It is no decimal, or out of range.
    Faulty,
    /// It is this whole number of fs, aF, cycles or millionths.
    Value(i64),
}

/// The options without a value that were written. `-min` is early, `-max` is late.
#[derive(Clone, Copy, Drop)]
pub(crate) struct Flags {
    pub early: bool,
    pub late: bool,
    pub rise: bool,
    pub fall: bool,
    pub setup: bool,
    pub hold: bool,
    pub cells: bool,
    pub nets: bool,
}

/// The list of a waveform: the place where it begins, its rise and its fall.
#[derive(Clone, Copy, Drop)]
pub(crate) struct Wave {
    pub at: Option<usize>,
    pub rise: Figure,
    pub fall: Figure,
}

/// A command that is being read: the place where it begins and what its options and words said last.
#[derive(Drop)]
pub(crate) struct Draft {
    pub command: Command,
    pub at: usize,
    pub flags: Flags,
    pub number: Figure,
    pub number_at: usize,
    pub period: Figure,
    pub wave: Wave,
    pub name: Option<Name>,
    pub clock: Option<Name>,
    pub names: Option<Items<Name>>,
    pub from: Option<Items<Object>>,
    pub to: Option<Items<Object>>,
}

impl Flags {
    /// No option.
    fn none() -> Flags
        ensures { result ≡ no_flags }
    {
        Flags {
            early: false,
            late: false,
            rise: false,
            fall: false,
            setup: false,
            hold: false,
            cells: false,
            nets: false,
        }
    }

    /// The options with one more.
    fn with(self, flag: Flag) -> Flags
        ensures { result ≡ with_flag flag self }
    {
        match flag {
            Flag::Min | Flag::Early => Flags {
                early: true,
                ..self
            },
            Flag::Max | Flag::Late => Flags { late: true, ..self },
            Flag::Rise => Flags { rise: true, ..self },
            Flag::Fall => Flags { fall: true, ..self },
            Flag::Setup => Flags {
                setup: true,
                ..self
            },
            Flag::Hold => Flags { hold: true, ..self },
            Flag::Cells => Flags {
                cells: true,
                ..self
            },
            Flag::Nets => Flags { nets: true, ..self },
            Flag::Start | Flag::End => self,
        }
    }
}

/// A list with one more element; it begins where there was none.
fn add<T: Drop>(alloc: Global, list: &mut Option<Items<T>>, item: T) -> Result<(), Memory>
    ensures { OnOk result (list.new ≡ added list.old item) }
{
    match list {
        Some(items) => items.push(item),
        None => {
            let mut items = Items::new(alloc);
            items.push(item)?;
            *list = Some(items);
            Ok(())
        }
    }
}

/// An object as it is written.
fn object_of(alloc: Global, getter: Getter, name: &Name) -> Result<Object, Memory>
    ensures { IfOk result (λ object. object ≡ object_of getter name.now) }
{
    match getter {
        Getter::Plain => Ok(Object::Any(name.copied(alloc)?)),
        Getter::Ports => Ok(Object::Port(name.copied(alloc)?)),
        Getter::Clocks => Ok(Object::Clock(name.copied(alloc)?)),
        Getter::Pins => Ok(Object::Pin(pin_name(alloc, name)?)),
        Getter::Cells => Ok(Object::Cell(name.copied(alloc)?)),
    }
}

impl Draft {
    /// A command that has said nothing yet. Takes no memory.
    pub(crate) fn new(command: Command, at: usize) -> Draft
        ensures { result ≡ empty_draft command at }
    {
        Draft {
            command,
            at,
            flags: Flags::none(),
            number: Figure::Absent,
            number_at: 0,
            period: Figure::Absent,
            wave: Wave {
                at: None,
                rise: Figure::Absent,
                fall: Figure::Absent,
            },
            name: None,
            clock: None,
            names: None,
            from: None,
            to: None,
        }
    }

    /// An option without a value was written.
    pub(crate) fn set_flag(&mut self, flag: Flag)
        ensures { self.new ≡ record self.old { flags = with_flag flag self.old.flags } }
    {
        self.flags = self.flags.with(flag);
    }

    /// A number was written.
    pub(crate) fn set_number(&mut self, quantity: Quantity, number: Figure, at: usize)
        ensures { self.new ≡ with_number quantity number at self.old }
    {
        match quantity {
            Quantity::Period => self.period = number,
            Quantity::WaveRise => {
                self.wave = Wave {
                    rise: number,
                    ..self.wave
                }
            }
            Quantity::WaveFall => {
                self.wave = Wave {
                    fall: number,
                    ..self.wave
                }
            }
            _ => {
                self.number = number;
                self.number_at = at;
            }
        }
    }

    /// A waveform begins.
    pub(crate) fn begin_wave(&mut self, at: usize)
        ensures { self.new
            ≡ record self.old
            { wave = record { at = Some at; rise = figures.Absent; fall = figures.Absent } } }
    {
        self.wave = Wave {
            at: Some(at),
            rise: Figure::Absent,
            fall: Figure::Absent,
        };
    }

    /// A clock is named.
    pub(crate) fn set_name(&mut self, name: Name)
        ensures { self.new ≡ record self.old { name = Some name } }
    {
        self.name = Some(name);
    }

    /// Objects begin.
    pub(crate) fn begin_objects(&mut self, alloc: Global, role: Role)
        ensures { self.new ≡ with_objects role self.old }
    {
        match role {
            Role::Ports | Role::Clocks => self.names = Some(Items::new(alloc)),
            Role::Clock => {}
            Role::From => self.from = Some(Items::new(alloc)),
            Role::To => self.to = Some(Items::new(alloc)),
        }
    }

    /// An object was written.
    pub(crate) fn add_object(
        &mut self,
        alloc: Global,
        role: Role,
        getter: Getter,
        name: &Name,
    ) -> Result<(), Memory>
        ensures { OnOk result (self.new ≡ with_object role getter name.now self.old) }
    {
        match role {
            Role::Ports | Role::Clocks => add(alloc, &mut self.names, name.copied(alloc)?),
            Role::Clock => {
                self.clock = Some(name.copied(alloc)?);
                Ok(())
            }
            Role::From => add(alloc, &mut self.from, object_of(alloc, getter, name)?),
            Role::To => add(alloc, &mut self.to, object_of(alloc, getter, name)?),
        }
    }

    /// The ports of the command, or the clocks of an uncertainty.
    pub(crate) fn named(&self) -> &[Name]
        ensures { result.now ≡ named self.now }
    {
        match &self.names {
            None => &[],
            Some(names) => names.as_slice(),
        }
    }

    /// The port of a clock.
    pub(crate) fn port(&self) -> Option<&Name>
        ensures { MatchOption result (first (named self.now) ≡ None)
            (λ port. first (named self.now) ≡ Some port.now) }
    {
        self.named().first()
    }

    /// The name of a clock: its own, or that of its port.
    pub(crate) fn clock_name(&self) -> Option<&Name>
        ensures { MatchOption result (clock_name self.now ≡ None)
            (λ name. clock_name self.now ≡ Some name.now) }
    {
        match &self.name {
            Some(name) => Some(name),
            None => self.port(),
        }
    }
}
