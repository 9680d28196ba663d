//! The documents that the runs share: two registers over libraries of two splits.

/// A library of the early split.
const EARLY: &str = r#"library (early) { time_unit : "1ps"; capacitive_load_unit (1, ff);
 lu_table_template (ld) { variable_1 : total_output_net_capacitance; index_1 ("0, 10"); }
 lu_table_template (sl) { variable_1 : input_net_transition; index_1 ("0, 100"); }
 cell (BUF_X1) {
  pin (A) { direction : input; capacitance : 1; }
  pin (Z) { direction : output;
   timing () { related_pin : "A"; timing_sense : positive_unate;
    cell_rise (ld) { values ("8, 18"); }
    cell_fall (ld) { values ("8, 18"); }
    rise_transition (ld) { values ("5, 25"); }
    fall_transition (ld) { values ("5, 25"); } } } }
 cell (BUF_X4) {
  pin (A) { direction : input; capacitance : 4; }
  pin (Z) { direction : output;
   timing () { related_pin : "A"; timing_sense : positive_unate;
    cell_rise (ld) { values ("7, 12"); }
    cell_fall (ld) { values ("7, 12"); }
    rise_transition (ld) { values ("4, 9"); }
    fall_transition (ld) { values ("4, 9"); } } } }
 cell (BUF_T) {
  pin (A) { direction : input; capacitance : 1; }
  pin (Z) { direction : output;
   timing () { related_pin : "A"; timing_sense : positive_unate;
    cell_rise (ld) { values ("8, 18"); }
    cell_fall (ld) { values ("8, 18"); }
    rise_transition (scalar) { values ("20"); }
    fall_transition (scalar) { values ("20"); } } } }
 cell (SLW) {
  pin (A) { direction : input; capacitance : 1; }
  pin (Z) { direction : output;
   timing () { related_pin : "A"; timing_sense : positive_unate;
    cell_rise (sl) { values ("10, 60"); }
    cell_fall (sl) { values ("10, 60"); }
    rise_transition (scalar) { values ("5"); }
    fall_transition (scalar) { values ("5"); } } } }
 cell (AND2) {
  pin (A) { direction : input; capacitance : 1; }
  pin (B) { direction : input; capacitance : 1; }
  pin (Z) { direction : output;
   timing () { related_pin : "A"; timing_sense : positive_unate;
    cell_rise (scalar) { values ("9"); }
    cell_fall (scalar) { values ("9"); }
    rise_transition (scalar) { values ("6"); }
    fall_transition (scalar) { values ("6"); } }
   timing () { related_pin : "B"; timing_sense : positive_unate;
    cell_rise (scalar) { values ("9"); }
    cell_fall (scalar) { values ("9"); }
    rise_transition (scalar) { values ("6"); }
    fall_transition (scalar) { values ("6"); } } } }
 cell (DFF) {
  pin (CK) { direction : input; capacitance : 1; }
  pin (D) { direction : input; capacitance : 1;
   timing () { related_pin : "CK"; timing_type : setup_rising;
    rise_constraint (scalar) { values ("15"); } fall_constraint (scalar) { values ("15"); } }
   timing () { related_pin : "CK"; timing_type : hold_rising;
    rise_constraint (scalar) { values ("3"); } fall_constraint (scalar) { values ("3"); } } }
  pin (Q) { direction : output;
   timing () { related_pin : "CK"; timing_type : rising_edge;
    cell_rise (scalar) { values ("18"); }
    cell_fall (scalar) { values ("18"); }
    rise_transition (scalar) { values ("10"); }
    fall_transition (scalar) { values ("10"); } } } } }
"#;

/// The same cells of the late split.
const LATE: &str = r#"library (late) { time_unit : "1ps"; capacitive_load_unit (1, ff);
 lu_table_template (ld) { variable_1 : total_output_net_capacitance; index_1 ("0, 10"); }
 lu_table_template (sl) { variable_1 : input_net_transition; index_1 ("0, 100"); }
 cell (BUF_X1) {
  pin (A) { direction : input; capacitance : 1; }
  pin (Z) { direction : output;
   timing () { related_pin : "A"; timing_sense : positive_unate;
    cell_rise (ld) { values ("10, 30"); }
    cell_fall (ld) { values ("10, 30"); }
    rise_transition (ld) { values ("5, 25"); }
    fall_transition (ld) { values ("5, 25"); } } } }
 cell (BUF_X4) {
  pin (A) { direction : input; capacitance : 4; }
  pin (Z) { direction : output;
   timing () { related_pin : "A"; timing_sense : positive_unate;
    cell_rise (ld) { values ("8, 13"); }
    cell_fall (ld) { values ("8, 13"); }
    rise_transition (ld) { values ("4, 9"); }
    fall_transition (ld) { values ("4, 9"); } } } }
 cell (BUF_T) {
  pin (A) { direction : input; capacitance : 1; }
  pin (Z) { direction : output;
   timing () { related_pin : "A"; timing_sense : positive_unate;
    cell_rise (ld) { values ("10, 30"); }
    cell_fall (ld) { values ("10, 30"); }
    rise_transition (scalar) { values ("20"); }
    fall_transition (scalar) { values ("20"); } } } }
 cell (SLW) {
  pin (A) { direction : input; capacitance : 1; }
  pin (Z) { direction : output;
   timing () { related_pin : "A"; timing_sense : positive_unate;
    cell_rise (sl) { values ("10, 60"); }
    cell_fall (sl) { values ("10, 60"); }
    rise_transition (scalar) { values ("5"); }
    fall_transition (scalar) { values ("5"); } } } }
 cell (AND2) {
  pin (A) { direction : input; capacitance : 1; }
  pin (B) { direction : input; capacitance : 1; }
  pin (Z) { direction : output;
   timing () { related_pin : "A"; timing_sense : positive_unate;
    cell_rise (scalar) { values ("10"); }
    cell_fall (scalar) { values ("10"); }
    rise_transition (scalar) { values ("6"); }
    fall_transition (scalar) { values ("6"); } }
   timing () { related_pin : "B"; timing_sense : positive_unate;
    cell_rise (scalar) { values ("10"); }
    cell_fall (scalar) { values ("10"); }
    rise_transition (scalar) { values ("6"); }
    fall_transition (scalar) { values ("6"); } } } }
 cell (DFF) {
  pin (CK) { direction : input; capacitance : 1; }
  pin (D) { direction : input; capacitance : 1;
   timing () { related_pin : "CK"; timing_type : setup_rising;
    rise_constraint (scalar) { values ("15"); } fall_constraint (scalar) { values ("15"); } }
   timing () { related_pin : "CK"; timing_type : hold_rising;
    rise_constraint (scalar) { values ("3"); } fall_constraint (scalar) { values ("3"); } } }
  pin (Q) { direction : output;
   timing () { related_pin : "CK"; timing_type : rising_edge;
    cell_rise (scalar) { values ("20"); }
    cell_fall (scalar) { values ("20"); }
    rise_transition (scalar) { values ("10"); }
    fall_transition (scalar) { values ("10"); } } } } }
"#;

/// Two registers behind one clock buffer, gates between them, and a gate of the clock and an input.
const NETLIST: &str =
    r#"module top (clk, d, q, o); input clk, d; output q, o; wire c1, n1, n2, n3, g;
BUF_X1 cb (.A(clk), .Z(c1)); DFF r1 (.D(d), .CK(c1), .Q(n1));
BUF_X1 g1 (.A(n1), .Z(n2)); BUF_X1 g2 (.A(n2), .Z(n3)); SLW g3 (.A(n2), .Z(o));
DFF r2 (.D(n3), .CK(c1), .Q(q)); AND2 a1 (.A(clk), .B(d), .Z(g)); endmodule
"#;

/// A clock of 1,000 ps, an input delay and output delays.
const CONSTRAINTS: &str = r#"create_clock -name clk -period 1000 [get_ports clk]
set_input_delay 100 -clock clk [get_ports d]
set_output_delay 0 -clock clk [get_ports {q o}]
"#;

/// The names and the texts of the documents.
pub(crate) const REGISTERS: [(&str, &str); 4] = [
    ("early.lib", EARLY),
    ("late.lib", LATE),
    ("b.v", NETLIST),
    ("b.sdc", CONSTRAINTS),
];
