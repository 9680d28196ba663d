//! What is declared.

ghost use Rattle.std.specs.Prelude.{◌≡◌, IfOk};
ghost use Rattle.sta_text.specs.Names.{stands};
ghost use Rattle.verilog_netlist.specs.Faults.{all_declared};

use crate::events::Event;
use crate::late::Late;
use crate::nets::NetSet;
use sta_units::Memory;
use std::alloc::Global;
use std::marker::Model;
use timing_defs::Name;

/// What is declared so far: the bits of ports, those of wires, and all of them.
#[derive(Drop)]
pub(crate) struct Known {
    pub ports: NetSet,
    pub wires: NetSet,
    pub nets: NetSet,
}

/// All declared nets: those up to the first fault of a declaration as a set, and what the events from there on
/// declare. Contracts see the list of their names.
#[derive(Drop)]
pub(crate) struct Declared<'a> {
    nets: NetSet,
    events: &'a [Event],
    late: Late<'a>,
}

impl<'a> Model for Declared<'a> {
    ghost use Rattle.std.specs.Prelude.{List, ℕ};
    ghost use Rattle.verilog_netlist.specs.Faults.{all_declared};
    ghost use Rattle.verilog_netlist.specs.Late.{IsLate};

    ghost Value = { List (List ℕ) };

    ghost view = { λ d. all_declared d.nets d.events.now };

    ghost invariant = { λ d. IsLate d.late d.events.now };
}

impl<'a> Declared<'a> {
    /// The nets of a set, and those that some events declare.
    pub(crate) fn of(
        alloc: Global,
        nets: NetSet,
        events: &'a [Event],
    ) -> Result<Declared<'a>, Memory>
        ensures { IfOk result (λ declared. declared ≡ all_declared nets events.entry.now) }
    {
        let late = Late::of(alloc, events)?;
        Ok(Declared { nets, events, late })
    }

    /// Whether the net is declared, in constant time on average but for nets of late ranges.
    #[tactic(auto, using(crate::proofs::LateLemmas::stands_declared))]
    pub(crate) fn has(&self, alloc: Global, name: &Name) -> Result<bool, Memory>
        ensures { IfOk result (λ is. is ≡ stands self.now name.now) }
    {
        if self.nets.has(name) {
            return Ok(true);
        }
        self.late.has(alloc, name)
    }
}
