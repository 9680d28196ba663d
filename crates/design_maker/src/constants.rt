//! The texts that all designs have in common.

ghost use Rattle.std.specs.Prelude.{◌≡◌, ◌++◌, OnOk, IfOk, codes};
ghost use Rattle.design_maker.specs.Constants.{table_text, clocked_head, test_text, arc_text, input_head, input_text, output_head, tests_text, data_text, register_output, register_text, gate_inputs, gate_output, cell_head, gate_text, library_head, library_text, constraints_text};

use crate::pushing::push;
use sta_units::Memory;
use std::alloc::Global;
use timing_defs::Items;

/// A table by its template.
#[tactic(auto, unfolding(crate::specs::Constants::table_text))]
fn push_table(out: &mut Vec<u8>, name: &[u8], template: &[u8], values: &[u8]) -> Result<(), Memory>
    ensures { OnOk result
        (out.new.items ≡ out.old.items ++ table_text name.now template.now values.now) }
{
    push(out, name)?;
    push(out, b" (")?;
    push(out, template)?;
    push(out, b") { values (\"")?;
    push(out, values)?;
    push(out, b"\"); }\n")
}

/// The begin of a group of arcs from CK, or of times against it.
fn push_clocked(out: &mut Vec<u8>, sort: &[u8]) -> Result<(), Memory>
    ensures { OnOk result (out.new.items ≡ out.old.items ++ clocked_head sort.now) }
{
    push(out, b"timing () { related_pin : \"CK\"; timing_type : ")?;
    push(out, sort)?;
    push(out, b";\n")
}

/// A time of D against the rising CK.
#[tactic(auto, unfolding(crate::specs::Constants::test_text))]
fn push_test(out: &mut Vec<u8>, sort: &[u8], time: &[u8]) -> Result<(), Memory>
    ensures { OnOk result (out.new.items ≡ out.old.items ++ test_text sort.now time.now) }
{
    push_clocked(out, sort)?;
    push_table(out, b"rise_constraint", b"scalar", time)?;
    push_table(out, b"fall_constraint", b"scalar", time)?;
    push(out, b"}\n")
}

/// The tables of an arc.
#[tactic(auto, unfolding(crate::specs::Constants::arc_text))]
fn push_arc(out: &mut Vec<u8>, template: &[u8], delay: &[u8], slew: &[u8]) -> Result<(), Memory>
    ensures { OnOk result
        (out.new.items ≡ out.old.items ++ arc_text template.now delay.now slew.now) }
{
    push_table(out, b"cell_rise", template, delay)?;
    push_table(out, b"rise_transition", template, slew)?;
    push_table(out, b"cell_fall", template, delay)?;
    push_table(out, b"fall_transition", template, slew)
}

/// The begin of an input.
#[tactic(auto, unfolding(crate::specs::Constants::input_head))]
fn push_input_head(out: &mut Vec<u8>, pin: &[u8], cap: &[u8]) -> Result<(), Memory>
    ensures { OnOk result (out.new.items ≡ out.old.items ++ input_head pin.now cap.now) }
{
    push(out, b"pin (")?;
    push(out, pin)?;
    push(out, b") { direction : input; capacitance : ")?;
    push(out, cap)?;
    push(out, b";\n")
}

/// An input.
#[tactic(auto, unfolding(crate::specs::Constants::input_text))]
fn push_input(out: &mut Vec<u8>, pin: &[u8], cap: &[u8]) -> Result<(), Memory>
    ensures { OnOk result (out.new.items ≡ out.old.items ++ input_text pin.now cap.now) }
{
    push_input_head(out, pin, cap)?;
    push(out, b"}\n")
}

/// The begin of an output.
#[tactic(auto, unfolding(crate::specs::Constants::output_head))]
fn push_output_head(out: &mut Vec<u8>, pin: &[u8]) -> Result<(), Memory>
    ensures { OnOk result (out.new.items ≡ out.old.items ++ output_head pin.now) }
{
    push(out, b"pin (")?;
    push(out, pin)?;
    push(out, b") { direction : output;\n")
}

/// The tests of the register.
fn push_tests(out: &mut Vec<u8>) -> Result<(), Memory>
    ensures { OnOk result (out.new.items ≡ out.old.items ++ tests_text) }
{
    push_test(out, b"setup_rising", b"15")?;
    push_test(out, b"hold_rising", b"3")
}

/// The pin D of the register.
#[tactic(auto, unfolding(crate::specs::Constants::data_text))]
fn push_data(out: &mut Vec<u8>) -> Result<(), Memory>
    ensures { OnOk result (out.new.items ≡ out.old.items ++ data_text) }
{
    push_input_head(out, b"D", b"1")?;
    push_tests(out)?;
    push(out, b"}\n")
}

/// The pin Q of the register.
#[tactic(auto, unfolding(crate::specs::Constants::register_output))]
fn push_register_output(out: &mut Vec<u8>) -> Result<(), Memory>
    ensures { OnOk result (out.new.items ≡ out.old.items ++ register_output) }
{
    push_output_head(out, b"Q")?;
    push_clocked(out, b"rising_edge")?;
    push_arc(out, b"scalar", b"20", b"10")?;
    push(out, b"}\n}\n")
}

#[tactic(auto, unfolding(crate::specs::Constants::register_text))]
fn push_register(out: &mut Vec<u8>) -> Result<(), Memory>
    ensures { OnOk result (out.new.items ≡ out.old.items ++ register_text) }
{
    push(out, b"cell (DFF) {\n")?;
    push_data(out)?;
    push_input(out, b"CK", b"1")?;
    push_register_output(out)?;
    push(out, b"}\n")
}

#[tactic(auto, unfolding(crate::specs::Constants::gate_inputs))]
fn push_gate_inputs(out: &mut Vec<u8>, cap: &[u8]) -> Result<(), Memory>
    ensures { OnOk result (out.new.items ≡ out.old.items ++ gate_inputs cap.now) }
{
    push_input(out, b"A", cap)?;
    push_input(out, b"B", cap)
}

fn push_gate_output(out: &mut Vec<u8>, delay: &[u8], slew: &[u8]) -> Result<(), Memory>
    ensures { OnOk result (out.new.items ≡ out.old.items ++ gate_output delay.now slew.now) }
{
    push_output_head(out, b"Z")?;
    push(
        out,
        b"timing () { related_pin : \"A B\"; timing_sense : positive_unate;\n",
    )?;
    push_arc(out, b"ld", delay, slew)?;
    push(out, b"}\n}\n")
}

#[tactic(auto, unfolding(crate::specs::Constants::cell_head))]
fn push_cell_head(out: &mut Vec<u8>, cell: &[u8]) -> Result<(), Memory>
    ensures { OnOk result (out.new.items ≡ out.old.items ++ cell_head cell.now) }
{
    push(out, b"cell (")?;
    push(out, cell)?;
    push(out, b") {\n")
}

/// A gate by its name, the capacitance of its inputs, its delays and its slews.
#[tactic(auto, unfolding(crate::specs::Constants::gate_text))]
fn push_gate(
    out: &mut Vec<u8>,
    cell: &[u8],
    cap: &[u8],
    delay: &[u8],
    slew: &[u8],
) -> Result<(), Memory>
    ensures { OnOk result
        (out.new.items ≡ out.old.items ++ gate_text cell.now cap.now delay.now slew.now) }
{
    push_cell_head(out, cell)?;
    push_gate_inputs(out, cap)?;
    push_gate_output(out, delay, slew)?;
    push(out, b"}\n")
}

/// Units and the template of tables over loads.
#[tactic(auto, unfolding(crate::specs::Constants::library_head))]
fn push_library_head(out: &mut Vec<u8>) -> Result<(), Memory>
    ensures { OnOk result (out.new.items ≡ out.old.items ++ library_head) }
{
    push(
        out,
        b"library (generated) {\ntime_unit : \"1ps\"; capacitive_load_unit (1, ff);\nlu_table_template (ld) { variable_1 : total_output_net_capacitance; index_1 (\"0, 10\"); }\n",
    )
}

#[tactic(auto, unfolding(crate::specs::Constants::library_text))]
fn push_library(out: &mut Vec<u8>) -> Result<(), Memory>
    ensures { OnOk result (out.new.items ≡ out.old.items ++ library_text) }
{
    push_library_head(out)?;
    push_register(out)?;
    push_gate(out, b"AND2_X1", b"1", b"10, 30", b"5, 25")?;
    push_gate(out, b"AND2_X2", b"2", b"8, 18", b"4, 14")?;
    push(out, b"}\n")
}

/// The library, for both splits.
pub(crate) fn library(alloc: Global) -> Result<Items<u8>, Memory>
    ensures { IfOk result (λ text. text ≡ library_text) }
{
    let mut out = Vec::new(alloc);
    push_library(&mut out)?;
    Ok(Items::from_vec(out))
}

/// The clock and the input delay.
pub(crate) fn constraints(alloc: Global) -> Result<Items<u8>, Memory>
    ensures { IfOk result (λ text. text ≡ constraints_text) }
{
    let mut out = Vec::new(alloc);
    push(
        &mut out,
        b"create_clock -name clk -period 1000 [get_ports clk]\nset_input_delay 10 -clock clk [get_ports d]\n",
    )?;
    Ok(Items::from_vec(out))
}
