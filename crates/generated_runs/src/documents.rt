//! The documents of a generated run.

ghost use Rattle.std.specs.Prelude.{◌≡◌, ◌≤◌, ◌%◌, IfOk, true};
ghost use Rattle.timing_defs.specs.Documents.{is_library, are_constraints, IsNetlist};
ghost use Rattle.std.specs.List.{All};
ghost use Rattle.shell_core.specs.Kept.{AreKept};
ghost use Rattle.shell_core.specs.Scripts.{IsScript};
ghost use Rattle.design_maker.specs.Constants.{library_text, constraints_text};
ghost use Rattle.design_maker.specs.Insts.{insts_of};
ghost use Rattle.design_maker.specs.Written.{module_text};
ghost use Rattle.design_laws.specs.Netlists.{module_of_insts};
ghost use Rattle.design_laws.specs.Constants.{generated_library, generated_constraints};
ghost use Rattle.generated_runs.specs.Generated.{generated_documents as documents_of, with_those};

use crate::discards::{discard_constraints, discard_library, discard_netlist, discard_scripts};
use crate::readings::{constraints, library, netlist};
use crate::scripts::made_scripts;
use design_maker::{Documents as Texts, make};
use shell_core::Documents;
use sta_units::Memory;
use std::alloc::Global;
use timing_defs::{Constraints, Items, Library, Module, Parasitics, Script};

/// The library, for both splits.
#[derive(Drop)]
struct Libraries {
    early: Library,
    late: Library,
}

fn both_libraries(alloc: Global, text: &[u8]) -> Result<Libraries, Memory>
    requires text { text.now ≡ library_text }
    ensures value { IfOk result
        (λ both. (both.early ≡ generated_library) × (both.late ≡ generated_library)) }
    ensures kept { IfOk result
        (λ both. (is_library both.early ≡ true) × (is_library both.late ≡ true)) }
{
    let early = library(alloc, text)?;
    match library(alloc, text) {
        Ok(late) => Ok(Libraries { early, late }),
        Err(Memory) => {
            discard_library(early);
            Err(Memory)
        }
    }
}

/// A netlist and its constraints.
#[derive(Drop)]
struct Netted {
    netlist: Module,
    sdc: Constraints,
}

fn read_netted(alloc: Global, texts: &Texts, start: u64, gates: u32) -> Result<Netted, Memory>
    requires few { gates ≤ 40000 }
    requires lib { texts.now.lib ≡ library_text }
    requires netlist { texts.now.netlist ≡ module_text (insts_of start gates) }
    requires sdc { texts.now.sdc ≡ constraints_text }
    ensures netlist { IfOk result
        (λ both. (both.netlist ≡ module_of_insts (insts_of start gates)) × IsNetlist both.netlist) }
    ensures sdc { IfOk result
        (λ both. (both.sdc ≡ generated_constraints) × (are_constraints both.sdc ≡ true)) }
{
    let netlist = netlist(alloc, texts.netlist.as_slice(), start, gates)?;
    match constraints(alloc, texts.lib.as_slice(), texts.sdc.as_slice()) {
        Ok(sdc) => Ok(Netted { netlist, sdc }),
        Err(Memory) => {
            discard_netlist(netlist);
            Err(Memory)
        }
    }
}

/// The documents with these scripts.
fn with_scripts(
    alloc: Global,
    texts: &Texts,
    start: u64,
    gates: u32,
    scripts: Items<Script>,
) -> Result<Documents, Memory>
    requires few { gates ≤ 40000 }
    requires lib { texts.now.lib ≡ library_text }
    requires netlist { texts.now.netlist ≡ module_text (insts_of start gates) }
    requires sdc { texts.now.sdc ≡ constraints_text }
    requires scripts { All IsScript scripts }
    ensures value { IfOk result (λ docs. docs ≡ with_those start gates scripts) }
    ensures kept { IfOk result AreKept }
{
    match read_netted(alloc, texts, start, gates) {
        Ok(Netted { netlist, sdc }) => match both_libraries(alloc, texts.lib.as_slice()) {
            Ok(Libraries { early, late }) => Ok(Documents {
                early,
                late,
                netlist,
                sdc,
                spef: Parasitics {
                    nets: Items::new(alloc),
                },
                saved: None,
                scripts,
            }),
            Err(Memory) => {
                discard_netlist(netlist);
                discard_constraints(sdc);
                discard_scripts(scripts);
                Err(Memory)
            }
        },
        Err(Memory) => {
            discard_scripts(scripts);
            Err(Memory)
        }
    }
}

/// The documents of a generated run, as values: a library for both splits, a netlist of so many gates
/// in all, constraints, no parasitics, and the scripts of four sessions with so many edits in all.
///
/// The gates are a multiple of 4 from 4 to 40,000, and the edits one from 0 to 4,000.
///
/// # Errors
///
/// Want of memory alone.
pub fn generated_documents(
    alloc: Global,
    start: u64,
    gates: u32,
    edits: u32,
) -> Result<Documents, Memory>
    requires gates { (4 ≤ gates) × (gates ≤ 40000) × (gates % 4 ≡ 0) }
    requires edits { (edits ≤ 4000) × (edits % 4 ≡ 0) }
    ensures value { IfOk result (λ docs. docs ≡ documents_of start gates edits) }
    ensures kept { IfOk result AreKept }
{
    let texts = make(alloc, start, gates, edits)?;
    match made_scripts(alloc, texts.scripts.as_slice(), start, gates, edits) {
        Ok(scripts) => with_scripts(alloc, &texts, start, gates, scripts),
        Err(Memory) => Err(Memory),
    }
}
