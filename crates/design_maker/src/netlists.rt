//! The text of a netlist.

ghost use Rattle.std.specs.Prelude.{◌≡◌, ℕ, ◌+◌, ◌*◌, ◌<◌, ◌≤◌, ◌++◌, ◌/◌, ◌^◌, OnOk, IfOk, codes, true};
ghost use Rattle.design_maker.specs.Draws.{drawn_on};
ghost use Rattle.design_maker.specs.Insts.{first_register, block_net, gate, last_register, gates_from, registers_from, blocks_of, lane_of, lanes_from, behind_lanes, insts_of};
ghost use Rattle.design_maker.specs.Written.{inst_text, insts_text, conns_text, module_text};

use crate::draws::{choose, draw};
use crate::pushing::{push, push_conn, push_joined, push_number, push_place};
use sta_units::Memory;
use std::alloc::Global;

/// The gates of a block.
const BLOCK: u32 = 32;

/// The connections of the register from which the nets of a lane start.
fn push_first_conns(alloc: Global, out: &mut Vec<u8>, lane: u32) -> Result<(), Memory>
    ensures { OnOk result
        (out.new.items ≡ out.old.items ++ conns_text (first_register lane).conns) }
{
    push_joined(out, b"D", b"d")?;
    push(out, b", ")?;
    push_joined(out, b"CK", b"clk")?;
    push(out, b", ")?;
    push_conn(alloc, out, b"Q", lane, 0)
}

/// That register.
#[tactic(auto, unfolding(crate::specs::Written::inst_text))]
fn push_first(alloc: Global, out: &mut Vec<u8>, lane: u32) -> Result<(), Memory>
    ensures { OnOk result (out.new.items ≡ out.old.items ++ inst_text (first_register lane)) }
{
    push(out, b"DFF f")?;
    push_number(alloc, out, lane)?;
    push(out, b" (")?;
    push_first_conns(alloc, out, lane)?;
    push(out, b");\n")
}

/// The number of a net of a block.
fn net_of(block: u32, at: u32) -> u32
    requires { 32 * block + at < 2 ^ 32 }
    ensures { result ≡ block_net block at }
{
    if at == 0 { 0 } else { BLOCK * block + at }
}

/// The connections of a gate.
fn push_conns(
    alloc: Global,
    out: &mut Vec<u8>,
    lane: u32,
    before: u32,
    x: u64,
) -> Result<(), Memory>
    requires { before < 2 ^ 31 }
    ensures { OnOk result (out.new.items ≡ out.old.items ++ conns_text (gate lane before x).conns) }
{
    let block = before / BLOCK;
    let place = before % BLOCK;
    push_conn(alloc, out, b"A", lane, net_of(block, place))?;
    push(out, b", ")?;
    push_conn(alloc, out, b"B", lane, net_of(block, choose(x, place + 1)))?;
    push(out, b", ")?;
    push_conn(alloc, out, b"Z", lane, before + 1)
}

/// The gate behind `before` gates of a lane.
#[tactic(auto, unfolding(crate::specs::Written::inst_text))]
fn push_gate(alloc: Global, out: &mut Vec<u8>, lane: u32, before: u32, x: u64) -> Result<(), Memory>
    requires { before < 2 ^ 31 }
    ensures { OnOk result (out.new.items ≡ out.old.items ++ inst_text (gate lane before x)) }
{
    push(out, b"AND2_X1 g")?;
    push_place(alloc, out, lane, before + 1)?;
    push(out, b" (")?;
    push_conns(alloc, out, lane, before, x)?;
    push(out, b");\n")
}

/// The register on the net of a block's last gate.
#[tactic(auto, unfolding(crate::specs::Written::inst_text))]
fn push_last(
    alloc: Global,
    out: &mut Vec<u8>,
    lane: u32,
    gates: u32,
    block: u32,
) -> Result<(), Memory>
    requires { block < 2 ^ 26 }
    ensures { OnOk result
        (out.new.items ≡ out.old.items ++ inst_text (last_register lane gates block)) }
{
    push(out, b"DFF e")?;
    push_place(alloc, out, lane, block)?;
    push(out, b" (")?;
    push_conn(alloc, out, b"D", lane, (BLOCK * block + BLOCK).min(gates))?;
    push(out, b", ")?;
    push_joined(out, b"CK", b"clk")?;
    push(out, b");\n")
}

/// The gates of a lane; gives the last number drawn.
fn push_gates(
    alloc: Global,
    out: &mut Vec<u8>,
    lane: u32,
    gates: u32,
    start: u64,
) -> Result<u64, Memory>
    requires { gates < 2 ^ 31 }
    ensures last { IfOk result (λ x. x ≡ drawn_on gates start) }
    ensures text { OnOk result
        (out.new.items ≡ out.old.items ++ insts_text (gates_from lane 0 gates start)) }
{
    let mut x = start;
    for before in 0..gates {
        x = draw(x);
        push_gate(alloc, out, lane, before, x)?;
    }
    Ok(x)
}

/// The registers of a lane's blocks.
fn push_registers(alloc: Global, out: &mut Vec<u8>, lane: u32, gates: u32) -> Result<(), Memory>
    requires { gates < 2 ^ 31 }
    ensures { OnOk result
        (out.new.items
        ≡ out.old.items ++ insts_text (registers_from lane gates 0 (blocks_of gates))) }
{
    for block in 0..(gates + 31) / BLOCK {
        push_last(alloc, out, lane, gates, block)?;
    }
    Ok(())
}

/// A lane of so many gates; gives the last number drawn.
#[tactic(auto, using(crate::proofs::Steps::insts_joined))]
fn push_lane(
    alloc: Global,
    out: &mut Vec<u8>,
    lane: u32,
    gates: u32,
    start: u64,
) -> Result<u64, Memory>
    requires { gates < 2 ^ 31 }
    ensures last { IfOk result (λ x. x ≡ drawn_on gates start) }
    ensures text { OnOk result
        (out.new.items ≡ out.old.items ++ insts_text (lane_of lane gates start)) }
{
    push_first(alloc, out, lane)?;
    let x = push_gates(alloc, out, lane, gates, start)?;
    push_registers(alloc, out, lane, gates)?;
    Ok(x)
}

/// The lanes of a netlist; gives the last number drawn.
fn push_lanes(alloc: Global, out: &mut Vec<u8>, gates: u32, start: u64) -> Result<u64, Memory>
    requires { gates < 2 ^ 31 }
    ensures last { IfOk result (λ x. x ≡ behind_lanes 4 gates start) }
    ensures text { OnOk result
        (out.new.items ≡ out.old.items ++ insts_text (lanes_from 0 4 gates start)) }
{
    let mut x = start;
    for lane in 0..4 {
        x = push_lane(alloc, out, lane, gates, x)?;
    }
    Ok(x)
}

/// A netlist of so many gates in each lane; gives the last number drawn.
#[tactic(auto, unfolding(crate::specs::Written::module_text))]
pub(crate) fn push_netlist(
    alloc: Global,
    out: &mut Vec<u8>,
    gates: u32,
    start: u64,
) -> Result<u64, Memory>
    requires { gates < 2 ^ 31 }
    ensures last { IfOk result (λ x. x ≡ behind_lanes 4 gates start) }
    ensures text { OnOk result
        (out.new.items ≡ out.old.items ++ module_text (lanes_from 0 4 gates start)) }
{
    push(out, b"module generated (clk, d);\ninput clk, d;\n")?;
    let x = push_lanes(alloc, out, gates, start)?;
    push(out, b"endmodule\n")?;
    Ok(x)
}
