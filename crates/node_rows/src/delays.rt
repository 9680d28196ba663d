//! The delays of the arcs into a node, in both splits.

ghost use Rattle.std.specs.Prelude.{◌≡◌, length, IfOk};
ghost use Rattle.node_rows.specs.Evaluation.{both_delays};

use crate::arcs::ArcValues;
use sta_units::Memory;
use std::alloc::Global;
use timing_defs::Items;

/// The delays of an arc in both splits, in fs; none where the arc brings nothing.
#[derive(Clone, Copy, Drop)]
pub struct BothDelays {
    pub early: Option<i64>,
    pub late: Option<i64>,
}

/// The delays of arcs in both splits, of what they bring in each.
pub(crate) fn both_delays(
    alloc: Global,
    early: &[ArcValues],
    late: &[ArcValues],
) -> Result<Items<BothDelays>, Memory>
    requires { length late.now ≡ length early.now }
    ensures { IfOk result (λ delays. delays ≡ both_delays early.now late.now) }
{
    let mut delays = Items::with_room(alloc, early.len())?;
    for (at, values) in early.iter().enumerate() {
        let others = late[at];
        delays.push(BothDelays {
            early: values.delay,
            late: others.delay,
        })?;
    }
    Ok(delays)
}
