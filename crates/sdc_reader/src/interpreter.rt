//! What the commands of a text have set so far: they are carried out in order.

ghost use Rattle.std.specs.Prelude.{◌≡◌, ◌≤◌, ◌++◌, ◌∷◌, [], length, IfOk, OnOk, Some, None};
ghost use Rattle.sdc_reader.specs.declared.commands.Command.TheVariants as commands;
ghost use Rattle.sdc_reader.specs.declared.events.Event.TheVariants as events;
ghost use Rattle.sdc_reader.specs.Meaning.{clock_limit, start, with_clock, new_clock, delay_amount, plain_amount, set_ports, set_loads, with_object, ended, after, constraints};

use crate::clocks::{delay_amount, new_clock, plain_amount, uncertain_clocks};
use crate::commands::{Command, Getter, Quantity, Role};
use crate::draft::Draft;
use crate::events::Event;
use crate::exceptions::{derates_with, push_false_paths, push_multicycle};
use crate::numbers::number_of;
use crate::tables::{Amount, PortTable};
use sta_units::{Memory, Unit};
use std::alloc::Global;
use timing_defs::{
    Clock, Constraints, Derates, Exception, Items, Name, PortDelay, PortLoad, PortSlew, Units,
};

/// What the commands so far have set, and the command that is being read.
#[derive(Drop)]
pub(crate) struct Interpreter {
    pub units: Units,
    pub draft: Draft,
    pub clocks: Items<Clock>,
    pub inputs: PortTable,
    pub outputs: PortTable,
    pub slews: PortTable,
    pub loads: PortTable,
    pub exceptions: Items<Exception>,
    pub derates: Derates,
}

/// What is set at ports, in order of the ports' first commands.
#[derive(Drop)]
struct PortSettings {
    inputs: Items<PortDelay>,
    outputs: Items<PortDelay>,
    slews: Items<PortSlew>,
    loads: Items<PortLoad>,
}

/// Sets a value at the ports of a command.
fn set_ports(
    alloc: Global,
    draft: &Draft,
    amount: Option<Amount>,
    table: &mut PortTable,
) -> Result<(), Memory>
    ensures { OnOk result (table.new ≡ set_ports draft.now amount table.old) }
{
    match amount {
        Some(amount) => table.write_ports(alloc, draft.flags, draft.named(), amount),
        None => Ok(()),
    }
}

/// Sets a load at the ports of a command.
fn set_loads(
    alloc: Global,
    draft: &Draft,
    amount: Option<Amount>,
    table: &mut PortTable,
) -> Result<(), Memory>
    ensures { OnOk result (table.new ≡ set_loads draft.now amount table.old) }
{
    match amount {
        Some(amount) => table.write_loads(alloc, draft.flags, draft.named(), amount),
        None => Ok(()),
    }
}

impl Interpreter {
    /// Before the first command nothing is set. Takes no memory.
    pub(crate) fn new(alloc: Global, units: Units) -> Interpreter
        ensures { result ≡ start units }
    {
        Interpreter {
            units,
            draft: Draft::new(Command::Units, 0),
            clocks: Items::new(alloc),
            inputs: PortTable::new(alloc),
            outputs: PortTable::new(alloc),
            slews: PortTable::new(alloc),
            loads: PortTable::new(alloc),
            exceptions: Items::new(alloc),
            derates: Derates::none(),
        }
    }

    /// Carries out a command that creates a clock.
    fn create_clock(&mut self, alloc: Global) -> Result<(), Memory>
        ensures { OnOk result (self.new ≡ ended commands.CreateClock self.old) }
    {
        match new_clock(alloc, self.clocks.as_slice(), &self.draft)? {
            Some(clock) => self.clocks.push(clock),
            None => Ok(()),
        }
    }

    /// Carries out a command that sets input delays.
    fn set_inputs(&mut self, alloc: Global) -> Result<(), Memory>
        requires { length self.old.clocks ≤ clock_limit }
        ensures { OnOk result (self.new ≡ ended commands.InputDelay self.old) }
    {
        let amount = delay_amount(self.clocks.as_slice(), &self.draft);
        set_ports(alloc, &self.draft, amount, &mut self.inputs)
    }

    /// Carries out a command that sets output delays.
    fn set_outputs(&mut self, alloc: Global) -> Result<(), Memory>
        requires { length self.old.clocks ≤ clock_limit }
        ensures { OnOk result (self.new ≡ ended commands.OutputDelay self.old) }
    {
        let amount = delay_amount(self.clocks.as_slice(), &self.draft);
        set_ports(alloc, &self.draft, amount, &mut self.outputs)
    }

    /// Carries out a command that sets input transitions.
    fn set_slews(&mut self, alloc: Global) -> Result<(), Memory>
        ensures { OnOk result (self.new ≡ ended commands.InputTransition self.old) }
    {
        let amount = plain_amount(&self.draft);
        set_ports(alloc, &self.draft, amount, &mut self.slews)
    }

    /// Carries out a command that sets loads.
    fn set_loads(&mut self, alloc: Global) -> Result<(), Memory>
        ensures { OnOk result (self.new ≡ ended commands.Load self.old) }
    {
        let amount = plain_amount(&self.draft);
        set_loads(alloc, &self.draft, amount, &mut self.loads)
    }

    /// Carries out a command that sets uncertainties.
    fn set_uncertainties(&mut self, alloc: Global) -> Result<(), Memory>
        ensures { OnOk result (self.new ≡ ended commands.Uncertainty self.old) }
    {
        self.clocks = uncertain_clocks(alloc, &self.draft, self.clocks.as_slice())?;
        Ok(())
    }

    /// Carries out a command that sets a false path.
    fn set_false_paths(&mut self, alloc: Global) -> Result<(), Memory>
        ensures { OnOk result (self.new ≡ ended commands.FalsePath self.old) }
    {
        push_false_paths(alloc, &mut self.exceptions, &self.draft)
    }

    /// Carries out a command that sets a multicycle.
    fn set_multicycle(&mut self, alloc: Global) -> Result<(), Memory>
        ensures { OnOk result (self.new ≡ ended commands.Multicycle self.old) }
    {
        push_multicycle(alloc, &mut self.exceptions, &self.draft)
    }

    /// Carries out a command that sets derates.
    fn set_derates(&mut self)
        ensures { self.new ≡ ended commands.Derate self.old }
    {
        self.derates = derates_with(&self.draft, self.derates);
    }

    /// Carries out the command that was read.
    fn end(&mut self, alloc: Global) -> Result<(), Memory>
        requires { length self.old.clocks ≤ clock_limit }
        ensures { OnOk result (self.new ≡ ended self.old.draft.command self.old) }
    {
        match self.draft.command {
            Command::CreateClock => self.create_clock(alloc),
            Command::InputDelay => self.set_inputs(alloc),
            Command::OutputDelay => self.set_outputs(alloc),
            Command::InputTransition => self.set_slews(alloc),
            Command::Load => self.set_loads(alloc),
            Command::Uncertainty => self.set_uncertainties(alloc),
            Command::FalsePath => self.set_false_paths(alloc),
            Command::Multicycle => self.set_multicycle(alloc),
            Command::Units => Ok(()),
            Command::Derate => {
                self.set_derates();
                Ok(())
            }
        }
    }

    /// Notes a number.
    fn note_number(&mut self, quantity: Quantity, word: &Name, at: usize)
        ensures { self.new ≡ after self.old (events.Number quantity word.now at) }
    {
        let number = number_of(&self.units, quantity, word.as_bytes());
        self.draft.set_number(quantity, number, at);
    }

    /// Notes an object.
    fn note_object(
        &mut self,
        alloc: Global,
        role: Role,
        getter: Getter,
        name: &Name,
    ) -> Result<(), Memory>
        ensures { OnOk result
            (self.new
            ≡ record self.old { draft = with_object role getter name.now self.old.draft }) }
    {
        self.draft.add_object(alloc, role, getter, name)
    }

    fn set_time_unit(&mut self, ten: i32)
        ensures { self.new ≡ after self.old (events.TimeUnit ten) }
    {
        self.units = Units {
            time: Unit { ten },
            cap: self.units.cap,
        };
    }

    fn set_capacitance_unit(&mut self, ten: i32)
        ensures { self.new ≡ after self.old (events.CapacitanceUnit ten) }
    {
        self.units = Units {
            time: self.units.time,
            cap: Unit { ten },
        };
    }

    /// Carries out what an event writes.
    pub(crate) fn step(&mut self, alloc: Global, event: &Event) -> Result<(), Memory>
        requires { length self.old.clocks ≤ clock_limit }
        ensures { OnOk result (self.new ≡ after self.old event.now) }
    {
        match event {
            Event::Begin(command, at) => self.draft = Draft::new(*command, *at),
            Event::Flag(flag) => self.draft.set_flag(*flag),
            Event::Number(quantity, word, at) => self.note_number(*quantity, word, *at),
            Event::Waveform(at) => self.draft.begin_wave(*at),
            Event::Named(name) => self.draft.set_name(name.copied(alloc)?),
            Event::Objects(role) => self.draft.begin_objects(alloc, *role),
            Event::Object(role, getter, name, _) => {
                self.note_object(alloc, *role, *getter, name)?
            }
            Event::TimeUnit(ten) => self.set_time_unit(*ten),
            Event::CapacitanceUnit(ten) => self.set_capacitance_unit(*ten),
            Event::End => self.end(alloc)?,
            Event::Fault(_) => {}
        }
        Ok(())
    }

    /// What is set at ports.
    fn port_settings(&self, alloc: Global) -> Result<PortSettings, Memory>
        ensures { IfOk result
            (λ set. (set.inputs ≡ (constraints self.now).inputs)
            × (set.outputs ≡ (constraints self.now).outputs)
            × (set.slews ≡ (constraints self.now).slews)
            × (set.loads ≡ (constraints self.now).loads)) }
    {
        let inputs = self.inputs.delays(alloc)?;
        let outputs = self.outputs.delays(alloc)?;
        let slews = self.slews.slews(alloc)?;
        let loads = self.loads.loads(alloc)?;
        Ok(PortSettings {
            inputs,
            outputs,
            slews,
            loads,
        })
    }

    /// Gives the interpreter up.
    fn discard(self) {}

    /// The constraints that are set.
    pub(crate) fn constraints(self, alloc: Global) -> Result<Constraints, Memory>
        ensures { IfOk result (λ set. set ≡ constraints self) }
    {
        match self.port_settings(alloc) {
            Ok(ports) => Ok(Constraints {
                clocks: self.clocks,
                inputs: ports.inputs,
                outputs: ports.outputs,
                slews: ports.slews,
                loads: ports.loads,
                exceptions: self.exceptions,
                derates: self.derates,
            }),
            Err(wanting) => {
                self.discard();
                Err(wanting)
            }
        }
    }
}
