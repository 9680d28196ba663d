//! Netlists.

ghost use Rattle.std.specs.Prelude.{◌≡◌, ℕ, ◌≤◌, List, [], Some};
ghost use Rattle.timing_defs.specs.declared.netlist.Inst.{Inst};
ghost use Rattle.verilog_netlist.specs.Grammar.{events_of};
ghost use Rattle.verilog_netlist.specs.Faults.{faults_of};
ghost use Rattle.verilog_netlist.specs.Modules.{module_of};
ghost use Rattle.design_maker.specs.Insts.{insts_of};
ghost use Rattle.design_maker.specs.Written.{module_text};
ghost use Rattle.design_laws.specs.Netlists.{IsWritable, module_of_insts};

/// A netlist that is written from instances is read without a fault as these instances: if their
/// names are words, none stands twice, and they and their nets are few.
pub fn written_netlist_read_back()
    ensures faults { (insts : List Inst) → IsWritable insts
        → faults_of (events_of (module_text insts)) ≡ [] }
    ensures module { (insts : List Inst) → IsWritable insts
        → module_of (events_of (module_text insts)) ≡ Some (module_of_insts insts) }
{}

/// A generated netlist of up to 40,000 gates is read without a fault as its instances.
pub fn generated_netlist_read_back()
    ensures faults { (start gates : ℕ) → gates ≤ 40000
        → faults_of (events_of (module_text (insts_of start gates))) ≡ [] }
    ensures module { (start gates : ℕ) → gates ≤ 40000
        → module_of (events_of (module_text (insts_of start gates)))
        ≡ Some (module_of_insts (insts_of start gates)) }
{}
