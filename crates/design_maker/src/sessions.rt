//! The scripts of the sessions.

ghost use Rattle.std.specs.Prelude.{◌≡◌, ℕ, ◌+◌, ◌<◌, ◌≤◌, ◌^◌, ◌++◌, [], ◌∷◌, OnOk, IfOk, codes, map};
ghost use Rattle.timing_defs.specs.declared.scripts.Script.{Script};
ghost use Rattle.design_maker.specs.Draws.{drawn_on};
ghost use Rattle.design_maker.specs.Sessions.{drawn_cell, resize_text, commands_from, scripts_from};
ghost use Rattle.design_maker.specs.Written.{commands_text};

use crate::draws::{choose, draw};
use crate::pushing::{push, push_place};
use sta_units::Memory;
use std::alloc::Global;
use timing_defs::Items;

/// The cell that a gate becomes.
#[tactic(auto, unfolding(crate::specs::Sessions::drawn_cell))]
fn cell_of(x: u64) -> &'static [u8]
    ensures { result.now ≡ drawn_cell x }
{
    if (x >> 16) % 2 == 1 {
        b"AND2_X2"
    } else {
        b"AND2_X1"
    }
}

/// An edit of a lane of so many gates.
fn push_resize(
    alloc: Global,
    out: &mut Vec<u8>,
    lane: u32,
    gates: u32,
    x: u64,
) -> Result<(), Memory>
    requires { (0 < gates) × (gates < 2 ^ 31) }
    ensures { OnOk result (out.new.items ≡ out.old.items ++ resize_text lane gates x) }
{
    push(out, b"repower_gate g")?;
    push_place(alloc, out, lane, 1 + choose(x, gates))?;
    push(out, b" ")?;
    push(out, cell_of(x))?;
    push(out, b"\n")
}

/// A script of so many edits, and the question of the least slack behind each; gives the last number drawn.
fn push_script(
    alloc: Global,
    out: &mut Vec<u8>,
    lane: u32,
    gates: u32,
    edits: u32,
    start: u64,
) -> Result<u64, Memory>
    requires { (0 < gates) × (gates < 2 ^ 31) }
    ensures last { IfOk result (λ x. x ≡ drawn_on edits start) }
    ensures text { OnOk result
        (out.new.items ≡ out.old.items ++ commands_text (commands_from lane gates edits start)) }
{
    let mut x = start;
    for edit in 0..edits {
        x = draw(x);
        push_resize(alloc, out, lane, gates, x)?;
        push(out, b"report_wns setup\n")?;
    }
    Ok(x)
}

/// A script alone.
fn script(
    alloc: Global,
    lane: u32,
    gates: u32,
    edits: u32,
    start: u64,
) -> Result<(Items<u8>, u64), Memory>
    requires { (0 < gates) × (gates < 2 ^ 31) }
    ensures { IfOk result
        (λ made. (made.0 ≡ commands_text (commands_from lane gates edits start))
        × (made.1 ≡ drawn_on edits start)) }
{
    let mut text = Vec::new(alloc);
    let x = push_script(alloc, &mut text, lane, gates, edits, start)?;
    Ok((Items::from_vec(text), x))
}

/// The scripts of the four sessions.
pub(crate) fn scripts(
    alloc: Global,
    gates: u32,
    edits: u32,
    start: u64,
) -> Result<Items<Items<u8>>, Memory>
    requires { (0 < gates) × (gates < 2 ^ 31) }
    ensures { IfOk result
        (λ made. made
        ≡ map (λ (script : Script). commands_text script.commands)
        (scripts_from 0 4 gates edits start)) }
{
    let mut all = Items::new(alloc);
    let mut x = start;
    for lane in 0..4 {
        let (text, next) = script(alloc, lane, gates, edits, x)?;
        all.push(text)?;
        x = next;
    }
    Ok(all)
}
