//! The lines of nets, of instances and of their sizes.

ghost use Rattle.std.specs.Prelude.{◌≡◌, ◌++◌, ◌∷◌, OnOk, codes, length, decimal};
ghost use Rattle.std.specs.List.{flat_map};
ghost use Rattle.sta_units.specs.Picoseconds.{ps_text};
ghost use Rattle.timing_defs.specs.Output.{line, word, number, name_text, dir_text, wires_text, sink_text, net_text, junction_text, pin_report_text, instance_text, input_text, likeness_text, choice_text, sizes_text, rc_node_text, cap_text, res_text, rc_text, edit_text};
ghost use Rattle.timing_defs.specs.declared.edits.Edit.TheVariants.{SetParasitics};
ghost use Rattle.report_text.specs.NetLines.{net_line};

use crate::pieces::{
    push, push_count, push_digits, push_end, push_number, push_ps, push_time, push_word,
};
use sta_units::{Af, Fs, Memory, Mo};
use timing_defs::{
    Dir, InstanceReport, Junction, Name, NetRc, NetReport, PinCap, PinReport, RcCap, RcNode, RcRes,
    SinkReport, SizeChoice, SizesReport, WireModel,
};

/// A blank and thousandths as a number with three decimals: attofarads as femtofarads, milliohms as ohms.
pub(crate) fn push_amount(out: &mut Vec<u8>, amount: i64) -> Result<(), Memory>
    ensures { OnOk result (out.new.items ≡ out.old.items ++ word (ps_text amount)) }
{
    push_ps(out, Fs(amount))
}

/// A blank and a name, or `none`.
pub(crate) fn push_name(out: &mut Vec<u8>, name: &Option<Name>) -> Result<(), Memory>
    ensures { OnOk result (out.new.items ≡ out.old.items ++ word (name_text name.now)) }
{
    match name {
        None => push_word(out, b"none"),
        Some(name) => push_word(out, name.as_bytes()),
    }
}

/// A blank and a resistance in ohms.
fn push_resistance(out: &mut Vec<u8>, resistance: &Mo) -> Result<(), Memory>
    ensures { OnOk result (out.new.items ≡ out.old.items ++ word (ps_text resistance.now.0)) }
{
    push_amount(out, resistance.0)
}

/// A blank and a capacitance in femtofarads.
fn push_capacitance(out: &mut Vec<u8>, capacitance: &Af) -> Result<(), Memory>
    ensures { OnOk result (out.new.items ≡ out.old.items ++ word (ps_text capacitance.now.0)) }
{
    push_amount(out, capacitance.0)
}

fn push_tree(out: &mut Vec<u8>, nodes: u64, resistance: &Mo) -> Result<(), Memory>
    ensures { OnOk result
        (out.new.items
        ≡ out.old.items ++
        (codes " tree nodes" ++ number nodes ++ codes " resistance" ++ word
        (ps_text resistance.now.0))) }
{
    push(out, b" tree nodes")?;
    push_number(out, nodes)?;
    push(out, b" resistance")?;
    push_resistance(out, resistance)
}

fn push_wires(out: &mut Vec<u8>, wires: &WireModel) -> Result<(), Memory>
    ensures { OnOk result (out.new.items ≡ out.old.items ++ wires_text wires.now) }
{
    match wires {
        WireModel::Ideal => push(out, b" none"),
        WireModel::Lumped => push(out, b" lumped"),
        WireModel::Tree { nodes, resistance } => push_tree(out, *nodes, resistance),
    }
}

/// The line of a sink: its capacitance and the delay of its wire, early and late.
fn push_sink(out: &mut Vec<u8>, sink: &SinkReport) -> Result<(), Memory>
    ensures { OnOk result (out.new.items ≡ out.old.items ++ sink_text sink.now) }
{
    push(out, sink.pin.as_bytes())?;
    push_amount(out, sink.early_cap.0)?;
    push_amount(out, sink.late_cap.0)?;
    push_time(out, sink.early_delay)?;
    push_time(out, sink.late_delay)?;
    push_end(out)
}

#[tactic(auto, using(std::proofs::lemmas::List::drop_more))]
fn push_sinks(out: &mut Vec<u8>, sinks: &[SinkReport]) -> Result<(), Memory>
    ensures { OnOk result (out.new.items ≡ out.old.items ++ flat_map sink_text sinks.now) }
{
    for sink in sinks {
        push_sink(out, sink)?;
    }
    Ok(())
}

/// A blank and a node of parasitics.
fn push_rc_node(out: &mut Vec<u8>, node: &RcNode) -> Result<(), Memory>
    ensures { OnOk result (out.new.items ≡ out.old.items ++ word (rc_node_text node.now)) }
{
    match node {
        RcNode::Pin(name) => push_word(out, name.as_bytes()),
        RcNode::Inner(k) => push_inner(out, *k),
    }
}

fn push_inner(out: &mut Vec<u8>, k: u32) -> Result<(), Memory>
    ensures { OnOk result (out.new.items ≡ out.old.items ++ word (35 ∷ decimal k)) }
{
    push(out, b" #")?;
    push_digits(out, u64::from(k))
}

fn push_cap(out: &mut Vec<u8>, cap: &RcCap) -> Result<(), Memory>
    ensures { OnOk result (out.new.items ≡ out.old.items ++ cap_text cap.now) }
{
    push(out, b" c")?;
    push_rc_node(out, &cap.node)?;
    push_number(out, cap.cap.0.unsigned_abs())
}

#[tactic(auto, using(std::proofs::lemmas::List::drop_more))]
fn push_caps(out: &mut Vec<u8>, caps: &[RcCap]) -> Result<(), Memory>
    ensures { OnOk result (out.new.items ≡ out.old.items ++ flat_map cap_text caps.now) }
{
    for cap in caps {
        push_cap(out, cap)?;
    }
    Ok(())
}

fn push_resistor(out: &mut Vec<u8>, resistor: &RcRes) -> Result<(), Memory>
    ensures { OnOk result (out.new.items ≡ out.old.items ++ res_text resistor.now) }
{
    push(out, b" r")?;
    push_rc_node(out, &resistor.a)?;
    push_rc_node(out, &resistor.b)?;
    push_number(out, resistor.res.0.unsigned_abs())
}

#[tactic(auto, using(std::proofs::lemmas::List::drop_more))]
fn push_resistors(out: &mut Vec<u8>, resistors: &[RcRes]) -> Result<(), Memory>
    ensures { OnOk result (out.new.items ≡ out.old.items ++ flat_map res_text resistors.now) }
{
    for resistor in resistors {
        push_resistor(out, resistor)?;
    }
    Ok(())
}

fn push_items(out: &mut Vec<u8>, rc: &NetRc) -> Result<(), Memory>
    ensures { OnOk result
        (out.new.items
        ≡ out.old.items ++ (flat_map cap_text rc.now.caps ++ flat_map res_text rc.now.ress)) }
{
    push_caps(out, rc.caps.as_slice())?;
    push_resistors(out, rc.ress.as_slice())
}

fn push_rc(out: &mut Vec<u8>, rc: &Option<NetRc>) -> Result<(), Memory>
    ensures { OnOk result (out.new.items ≡ out.old.items ++ rc_text rc.now) }
{
    match rc {
        None => push(out, b" none"),
        Some(rc) => push_items(out, rc),
    }
}

/// The line of the edit that gives a net its parasitics.
fn push_parasitics(out: &mut Vec<u8>, net: &[u8], rc: &Option<NetRc>) -> Result<(), Memory>
    ensures { OnOk result
        (out.new.items ≡ out.old.items ++ line (edit_text (SetParasitics net.now rc.now))) }
{
    push(out, b"set_parasitics")?;
    push_word(out, net)?;
    push_rc(out, rc)?;
    push_end(out)
}

/// The line of a net.
fn push_net_line(out: &mut Vec<u8>, name: &[u8], net: &NetReport) -> Result<(), Memory>
    ensures { OnOk result (out.new.items ≡ out.old.items ++ net_line name.now net.now) }
{
    push(out, b"net")?;
    push_word(out, name)?;
    push(out, b" driver")?;
    push_name(out, &net.driver)?;
    push(out, b" load")?;
    push_capacitance(out, &net.early_load)?;
    push_capacitance(out, &net.late_load)?;
    push(out, b" parasitics")?;
    push_wires(out, &net.wires)?;
    push(out, b" sinks")?;
    push_number(out, net.sinks.len() as u64)?;
    push(out, b" edits 1")?;
    push_end(out)
}

/// A net by its name: a line, one for each sink, and the edit of its parasitics.
pub(crate) fn push_net(out: &mut Vec<u8>, name: &[u8], net: &NetReport) -> Result<(), Memory>
    ensures { OnOk result (out.new.items ≡ out.old.items ++ net_text name.now net.now) }
{
    push_net_line(out, name, net)?;
    push_sinks(out, net.sinks.as_slice())?;
    push_parasitics(out, name, &net.rc)
}

/// A blank and a direction.
fn push_dir(out: &mut Vec<u8>, dir: Dir) -> Result<(), Memory>
    ensures { OnOk result (out.new.items ≡ out.old.items ++ word (dir_text dir)) }
{
    match dir {
        Dir::Input => push_word(out, b"input"),
        Dir::Output => push_word(out, b"output"),
    }
}

fn push_joined_net(out: &mut Vec<u8>, net: &Name) -> Result<(), Memory>
    ensures { OnOk result (out.new.items ≡ out.old.items ++ (codes " net" ++ word net.now)) }
{
    push(out, b" net")?;
    push_word(out, net.as_bytes())
}

fn push_junction(out: &mut Vec<u8>, joined: &Junction) -> Result<(), Memory>
    ensures { OnOk result (out.new.items ≡ out.old.items ++ junction_text joined.now) }
{
    match joined {
        Junction::Net(net) => push_joined_net(out, net),
        Junction::Tied => push(out, b" tied"),
        Junction::Open => push(out, b" open"),
    }
}

/// The line of a pin: its direction and what it is joined to.
fn push_pin(out: &mut Vec<u8>, pin: &PinReport) -> Result<(), Memory>
    ensures { OnOk result (out.new.items ≡ out.old.items ++ pin_report_text pin.now) }
{
    push(out, pin.pin.as_bytes())?;
    push_dir(out, pin.dir)?;
    push_junction(out, &pin.joined)?;
    push_end(out)
}

#[tactic(auto, using(std::proofs::lemmas::List::drop_more))]
fn push_pins(out: &mut Vec<u8>, pins: &[PinReport]) -> Result<(), Memory>
    ensures { OnOk result (out.new.items ≡ out.old.items ++ flat_map pin_report_text pins.now) }
{
    for pin in pins {
        push_pin(out, pin)?;
    }
    Ok(())
}

/// An instance by its name: a line, and one for each pin.
pub(crate) fn push_instance(
    out: &mut Vec<u8>,
    name: &[u8],
    instance: &InstanceReport,
) -> Result<(), Memory>
    ensures { OnOk result (out.new.items ≡ out.old.items ++ instance_text name.now instance.now) }
{
    push(out, b"instance")?;
    push_word(out, name)?;
    push_word(out, instance.cell.as_bytes())?;
    push_count(out, b" pins", instance.pins.len() as u64)?;
    push_end(out)?;
    push_pins(out, instance.pins.as_slice())
}

/// An input pin of a cell and its capacitance.
fn push_input(out: &mut Vec<u8>, input: &PinCap) -> Result<(), Memory>
    ensures { OnOk result (out.new.items ≡ out.old.items ++ input_text input.now) }
{
    push_word(out, input.pin.as_bytes())?;
    push_amount(out, input.cap.0)
}

#[tactic(auto, using(std::proofs::lemmas::List::drop_more))]
fn push_inputs(out: &mut Vec<u8>, inputs: &[PinCap]) -> Result<(), Memory>
    ensures { OnOk result (out.new.items ≡ out.old.items ++ flat_map input_text inputs.now) }
{
    for input in inputs {
        push_input(out, input)?;
    }
    Ok(())
}

/// Whether a cell is like the present one.
fn push_likeness(out: &mut Vec<u8>, alike: bool) -> Result<(), Memory>
    ensures { OnOk result (out.new.items ≡ out.old.items ++ likeness_text alike) }
{
    if alike {
        push(out, b" alike")
    } else {
        push(out, b" other")
    }
}

/// The line of a cell: the capacitances of its inputs.
fn push_choice(out: &mut Vec<u8>, choice: &SizeChoice) -> Result<(), Memory>
    ensures { OnOk result (out.new.items ≡ out.old.items ++ choice_text choice.now) }
{
    push(out, choice.cell.as_bytes())?;
    push_likeness(out, choice.alike)?;
    push_count(out, b" inputs", choice.inputs.len() as u64)?;
    push_inputs(out, choice.inputs.as_slice())?;
    push_end(out)
}

#[tactic(auto, using(std::proofs::lemmas::List::drop_more))]
fn push_choices(out: &mut Vec<u8>, choices: &[SizeChoice]) -> Result<(), Memory>
    ensures { OnOk result (out.new.items ≡ out.old.items ++ flat_map choice_text choices.now) }
{
    for choice in choices {
        push_choice(out, choice)?;
    }
    Ok(())
}

/// The sizes of an instance by its name: a line, and one for each cell.
pub(crate) fn push_sizes(out: &mut Vec<u8>, name: &[u8], sizes: &SizesReport) -> Result<(), Memory>
    ensures { OnOk result (out.new.items ≡ out.old.items ++ sizes_text name.now sizes.now) }
{
    push(out, b"sizes")?;
    push_word(out, name)?;
    push_word(out, sizes.cell.as_bytes())?;
    push_count(out, b" cells", sizes.choices.len() as u64)?;
    push_end(out)?;
    push_choices(out, sizes.choices.as_slice())
}
