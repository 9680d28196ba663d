//! Values with several owners.

ghost use Rattle.std.specs.Prelude.{◌≡◌, IfOk};
ghost use Rattle.std.specs.Arc.{arc_value};
ghost use Rattle.affected_cone.specs.Analysed.{IsAnalysis};

use affected_cone::Analysis;
use sta_units::Memory;
use std::alloc::Global;
use std::sync::Arc;

/// A value that is to be shared, with one owner.
pub fn shared<T: Drop>(alloc: Global, value: T) -> Result<Arc<T>, Memory>
    ensures { IfOk result (λ owner. arc_value owner ≡ value) }
{
    Ok(Arc::new(alloc, value)?)
}

/// What a shared analysis keeps, told to the proofs of callers; the call does nothing.
pub fn tell_laws(analysis: &Arc<Analysis>)
    ensures { IsAnalysis (arc_value analysis.now) }
{
    analysis.laws();
}
