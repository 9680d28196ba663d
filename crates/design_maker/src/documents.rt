//! All documents of a generated design.

ghost use Rattle.std.specs.Prelude.{◌≡◌, ◌/◌, ◌<◌, ◌≤◌, ◌%◌, ◌^◌, IfOk, map};
ghost use Rattle.timing_defs.specs.declared.scripts.Script.{Script};
ghost use Rattle.design_maker.specs.Insts.{insts_of, lanes_from, behind_lanes};
ghost use Rattle.design_maker.specs.Sessions.{scripts_of};
ghost use Rattle.design_maker.specs.Written.{module_text, commands_text};
ghost use Rattle.design_maker.specs.Constants.{library_text, constraints_text};

use crate::constants::{constraints, library};
use crate::netlists::push_netlist;
use crate::sessions::scripts;
use sta_units::Memory;
use std::alloc::Global;
use timing_defs::Items;

/// The texts of a generated design: a library for both splits, a netlist, constraints, and the
/// scripts of four sessions.
#[derive(Drop)]
pub struct Documents {
    pub lib: Items<u8>,
    pub netlist: Items<u8>,
    pub sdc: Items<u8>,
    pub scripts: Items<Items<u8>>,
}

/// The netlist of so many gates in each lane, and the last number drawn.
fn netlist(alloc: Global, gates: u32, start: u64) -> Result<(Items<u8>, u64), Memory>
    requires { gates < 2 ^ 31 }
    ensures { IfOk result
        (λ made. (made.0 ≡ module_text (lanes_from 0 4 gates start))
        × (made.1 ≡ behind_lanes 4 gates start)) }
{
    let mut text = Vec::new(alloc);
    let x = push_netlist(alloc, &mut text, gates, start)?;
    Ok((Items::from_vec(text), x))
}

/// A design of `gates` gates, and scripts of `edits` edits in all, drawn from the number `start`.
///
/// The gates are a multiple of 4 from 4 to 40,000, and the edits one from 0 to 4,000.
///
/// # Errors
///
/// Want of memory alone.
pub fn make(alloc: Global, start: u64, gates: u32, edits: u32) -> Result<Documents, Memory>
    requires gates { (4 ≤ gates) × (gates ≤ 40000) × (gates % 4 ≡ 0) }
    requires edits { (edits ≤ 4000) × (edits % 4 ≡ 0) }
    ensures library { IfOk result (λ made. made.lib ≡ library_text) }
    ensures netlist { IfOk result (λ made. made.netlist ≡ module_text (insts_of start gates)) }
    ensures constraints { IfOk result (λ made. made.sdc ≡ constraints_text) }
    ensures scripts { IfOk result
        (λ made. made.scripts
        ≡ map (λ (script : Script). commands_text script.commands) (scripts_of start gates edits)) }
{
    let (netlist, x) = netlist(alloc, gates / 4, start)?;
    let scripts = scripts(alloc, gates / 4, edits / 4, x)?;
    let lib = library(alloc)?;
    let sdc = constraints(alloc)?;
    Ok(Documents {
        lib,
        netlist,
        sdc,
        scripts,
    })
}
