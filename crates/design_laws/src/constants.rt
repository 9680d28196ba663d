//! The library and the constraints of generated designs.

ghost use Rattle.std.specs.Prelude.{◌≡◌, [], length};
ghost use Rattle.liberty_cells.specs.Faults.{faults_of as library_faults, library_of_text, units_of_text};
ghost use Rattle.sdc_reader.specs.Grammar.{events_of};
ghost use Rattle.sdc_reader.specs.Faults.{faults_of};
ghost use Rattle.sdc_reader.specs.Meaning.{constraints_of};
ghost use Rattle.design_maker.specs.Constants.{library_text, constraints_text};
ghost use Rattle.design_laws.specs.Constants.{ps_and_ff, generated_library, generated_constraints};

/// The library is read without a fault, in ps and fF, as a register and two sizes of a gate.
#[tactic(auto, using(crate::proofs::LibraryBack::no_library_faults, crate::proofs::LibraryBack::library_back, crate::proofs::LibraryBack::units_back))]
pub fn library_read_back()
    ensures faults { library_faults library_text ≡ [] }
    ensures library { library_of_text library_text ≡ generated_library }
    ensures units { units_of_text library_text ≡ ps_and_ff }
{}

/// The constraints are read without a fault, in these units, as a clock and an input delay.
#[tactic(auto, using(crate::proofs::ConstraintsBack::no_faults, crate::proofs::ConstraintsBack::back))]
pub fn constraints_read_back()
    ensures faults { faults_of (length constraints_text) ps_and_ff (events_of constraints_text)
        ≡ [] }
    ensures constraints { constraints_of ps_and_ff (events_of constraints_text)
        ≡ generated_constraints }
{}
