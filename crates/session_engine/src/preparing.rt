//! The next version that an ECO makes of a base.

ghost use Rattle.std.specs.Prelude.{◌≡◌, ◌-◌, ◌≤◌, true, IfOk, IfErr};
ghost use Rattle.std.specs.Arc.{arc_value};
ghost use Rattle.timing_defs.specs.Documents.{is_eco};
ghost use Rattle.timing_rules.specs.Cones.{IsCounted};
ghost use Rattle.eco_analysis.specs.Soundness.{IsRefusal};
ghost use Rattle.eco_analysis.specs.Counting.{is_told};
ghost use Rattle.session_engine.specs.Versions.{IsNext};

use crate::versions::Version;
use eco_analysis::{Edited, after_eco};
use sta_outside::Gate;
use sta_units::Steps;
use std::alloc::Global;
use std::sync::Arc;
use std::thread::Threads;
use timing_defs::{Eco, Fault};

/// The version that a session's ECO makes of a base, which stays as it is: one entry and one number more,
/// with the design after the edits and its analysis. An ECO is refused by the first fault of its edits
/// (`E1` to `E9`), or else by the first that stands in the design after them, in the order too large
/// (`E17`), two drivers (`E10`), a loop (`E11`), a clock network that is no tree (`E12`), a constraint on
/// nothing (`E13`), parasitics that are no tree (`E14`) or of other pins (`E15`), a quantity out of its
/// range (`E16`). The checks of nets and data look at what the ECO touched, and so does the graph where it left the
/// clock network; the analysis is that of the base where the ECO leads to no change. `steps` counts the evaluations of
/// nodes: where the ECO is accepted at least those that it affects forward, where its design is sound at most these and
/// those that it affects backward, and else none.
pub fn prepare<H: Threads + Sync, G: Gate, L>(
    rt: &H,
    alloc: Global,
    base: &Version,
    who: u32,
    eco: &Eco,
    workers: u32,
    gate: &G,
    steps: &mut Steps<L>,
) -> Result<Arc<Version>, Fault>
    requires eco { is_eco eco.now ≡ true }
    requires some { 1 ≤ workers }
    requires most { workers ≤ 32 }
    ensures next { IfOk result (λ v. IsNext base.now who eco.now (arc_value v)) }
    ensures rises { steps.old ≤ steps.new }
    ensures counted { IsCounted base.now.stored.design eco.now (is_told result)
        (steps.new - steps.old) }
    ensures refused { IfErr result (IsRefusal base.now.stored.design eco.now) }
{
    base.laws();
    match after_eco(
        rt,
        alloc,
        base.store(),
        base.analysis(),
        eco,
        workers,
        gate,
        steps,
    ) {
        Ok(Edited { store, analysis }) => Ok(base.next(alloc, who, eco, store, analysis)?),
        Err(fault) => Err(fault),
    }
}
