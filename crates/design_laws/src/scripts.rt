//! Scripts.

ghost use Rattle.std.specs.Prelude.{◌≡◌, ℕ, ◌≤◌, map};
ghost use Rattle.design_maker.specs.Sessions.{scripts_of};
ghost use Rattle.design_laws.specs.Scripts.{read_of, made_of};

/// The texts of generated scripts are read as these scripts, each without a fault.
pub fn scripts_read_back()
    ensures { (start gates edits : ℕ) → 4 ≤ gates → gates ≤ 40000 → edits ≤ 4000
        → map read_of (scripts_of start gates edits) ≡ map made_of (scripts_of start gates edits) }
{}
