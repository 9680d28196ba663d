//! Generated scripts as values.

ghost use Rattle.std.specs.Prelude.{◌≡◌, ◌≤◌, IfOk, map, Ok};
ghost use Rattle.timing_defs.specs.declared.scripts.Script.{Script};
ghost use Rattle.std.specs.List.{All};
ghost use Rattle.design_maker.specs.Sessions.{scripts_of};
ghost use Rattle.design_maker.specs.Written.{commands_text};
ghost use Rattle.shell_core.specs.Scripts.{IsScript};
ghost use Rattle.script_reader.specs.Scripts.{script_of};
ghost use Rattle.design_laws.specs.Scripts.{made_of};
ghost use Rattle.generated_runs.specs.Generated.{IsFine};

use design_laws::scripts_read_back;
use script_reader::read_script;
use sta_units::Memory;
use std::alloc::Global;
use timing_defs::{Items, ReadFault, Script};

/// The script of a text in which its reader finds no fault.
fn script(alloc: Global, text: &[u8]) -> Result<Script, Memory>
    requires { IsFine text.now }
    ensures { IfOk result (λ script. script_of text.now ≡ Ok script) }
{
    match read_script(alloc, text) {
        Ok(script) => Ok(script),
        Err(ReadFault::Memory) => Err(Memory),
        Err(ReadFault::At { .. }) => unreachable!(),
    }
}

/// The scripts of such texts, in order.
#[tactic(auto, using(std::proofs::lemmas::List::drop_more))]
fn read_scripts(alloc: Global, texts: &[Items<u8>]) -> Result<Items<Script>, Memory>
    requires { All IsFine texts.now }
    ensures { IfOk result (λ scripts. map script_of texts.now ≡ map made_of scripts) }
{
    let mut all = Items::new(alloc);
    for text in texts {
        let script = script(alloc, text.as_slice())?;
        all.push(script)?;
    }
    Ok(all)
}

/// The scripts of a generated run, by their texts.
pub(crate) fn made_scripts(
    alloc: Global,
    texts: &[Items<u8>],
    start: u64,
    gates: u32,
    edits: u32,
) -> Result<Items<Script>, Memory>
    requires gates { (4 ≤ gates) × (gates ≤ 40000) }
    requires edits { edits ≤ 4000 }
    requires texts { texts.now
        ≡ map (λ (script : Script). commands_text script.commands) (scripts_of start gates edits) }
    ensures value { IfOk result (λ scripts. scripts ≡ scripts_of start gates edits) }
    ensures kept { IfOk result (All IsScript) }
{
    let _ = (start, gates, edits);
    scripts_read_back();
    read_scripts(alloc, texts)
}
