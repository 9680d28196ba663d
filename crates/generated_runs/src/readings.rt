//! Generated texts as values. Their readers find no fault in them.

ghost use Rattle.std.specs.Prelude.{◌≡◌, ◌≤◌, IfOk, true};
ghost use Rattle.timing_defs.specs.Documents.{is_library, are_constraints, IsNetlist};
ghost use Rattle.design_maker.specs.Constants.{library_text, constraints_text};
ghost use Rattle.design_maker.specs.Insts.{insts_of};
ghost use Rattle.design_maker.specs.Written.{module_text};
ghost use Rattle.design_laws.specs.Netlists.{module_of_insts};
ghost use Rattle.design_laws.specs.Constants.{ps_and_ff, generated_library, generated_constraints};

use design_laws::{constraints_read_back, generated_netlist_read_back, library_read_back};
use liberty_cells::{read_library, units};
use sdc_reader::read_constraints;
use sta_units::Memory;
use std::alloc::Global;
use timing_defs::{Constraints, Library, Module, ReadFault, Units};
use verilog_netlist::read_module;

/// The library.
pub(crate) fn library(alloc: Global, text: &[u8]) -> Result<Library, Memory>
    requires text { text.now ≡ library_text }
    ensures value { IfOk result (λ library. library ≡ generated_library) }
    ensures kept { IfOk result (λ library. is_library library ≡ true) }
{
    library_read_back();
    match read_library(alloc, text) {
        Ok(library) => Ok(library),
        Err(ReadFault::Memory) => Err(Memory),
        Err(ReadFault::At { .. }) => unreachable!(),
    }
}

/// The units of the library.
fn library_units(alloc: Global, text: &[u8]) -> Result<Units, Memory>
    requires text { text.now ≡ library_text }
    ensures { IfOk result (λ units. units ≡ ps_and_ff) }
{
    library_read_back();
    match units(alloc, text) {
        Ok(units) => Ok(units),
        Err(ReadFault::Memory) => Err(Memory),
        Err(ReadFault::At { .. }) => unreachable!(),
    }
}

/// The constraints, in the units of the library.
pub(crate) fn constraints(alloc: Global, lib: &[u8], text: &[u8]) -> Result<Constraints, Memory>
    requires lib { lib.now ≡ library_text }
    requires text { text.now ≡ constraints_text }
    ensures value { IfOk result (λ constraints. constraints ≡ generated_constraints) }
    ensures kept { IfOk result (λ constraints. are_constraints constraints ≡ true) }
{
    let units = library_units(alloc, lib)?;
    constraints_read_back();
    match read_constraints(alloc, text, &units) {
        Ok(constraints) => Ok(constraints),
        Err(ReadFault::Memory) => Err(Memory),
        Err(ReadFault::At { .. }) => unreachable!(),
    }
}

/// The netlist of so many gates.
pub(crate) fn netlist(alloc: Global, text: &[u8], start: u64, gates: u32) -> Result<Module, Memory>
    requires few { gates ≤ 40000 }
    requires text { text.now ≡ module_text (insts_of start gates) }
    ensures value { IfOk result (λ made. made ≡ module_of_insts (insts_of start gates)) }
    ensures kept { IfOk result IsNetlist }
{
    let _ = (start, gates);
    generated_netlist_read_back();
    match read_module(alloc, text) {
        Ok(module) => Ok(module),
        Err(ReadFault::Memory) => Err(Memory),
        Err(ReadFault::At { .. }) => unreachable!(),
    }
}
