//! Copies of questions that closing timing needs, each equal to what it was made of.

ghost use Rattle.std.specs.Prelude.{◌≡◌, IfOk};
ghost use Rattle.timing_defs.specs.declared.closing.ClosingQuery.TheVariants.{TimingThrough, AdviseSizes};

use crate::closing::{Aim, ClosingQuery};
use crate::items::Items;
use crate::kinds::Kind;
use crate::names::Name;
use sta_units::{Again, Memory, Pair, both};
use std::alloc::Global;

/// Copies the question about a timed path through pins.
fn through_again(
    alloc: Global,
    pin: &Name,
    kind: Kind,
    pins: &Items<Name>,
) -> Result<ClosingQuery, Memory>
    ensures copied { IfOk result (λ copy. copy ≡ TimingThrough pin.now kind pins.now) }
{
    let Pair {
        one: pin,
        other: pins,
    } = both(pin.again(alloc), pins.again(alloc))?;
    Ok(ClosingQuery::TimingThrough { pin, kind, pins })
}

/// Copies the question about the sizes of instances.
fn sizes_again(
    alloc: Global,
    kind: Kind,
    aim: Aim,
    insts: &Items<Name>,
) -> Result<ClosingQuery, Memory>
    ensures copied { IfOk result (λ copy. copy ≡ AdviseSizes kind aim insts.now) }
{
    Ok(ClosingQuery::AdviseSizes {
        kind,
        aim,
        insts: insts.again(alloc)?,
    })
}

impl Again for ClosingQuery {
    fn again(&self, alloc: Global) -> Result<ClosingQuery, Memory> {
        Ok(match self {
            ClosingQuery::Net { net } => ClosingQuery::Net {
                net: net.again(alloc)?,
            },
            ClosingQuery::Instance { inst } => ClosingQuery::Instance {
                inst: inst.again(alloc)?,
            },
            ClosingQuery::Sizes { inst } => ClosingQuery::Sizes {
                inst: inst.again(alloc)?,
            },
            ClosingQuery::Timing { pin, kind } => ClosingQuery::Timing {
                pin: pin.again(alloc)?,
                kind: *kind,
            },
            ClosingQuery::TimingThrough { pin, kind, pins } => {
                through_again(alloc, pin, *kind, pins)?
            }
            ClosingQuery::WorstPaths { kind, count, each } => ClosingQuery::WorstPaths {
                kind: *kind,
                count: *count,
                each: *each,
            },
            ClosingQuery::Failing { kind } => ClosingQuery::Failing { kind: *kind },
            ClosingQuery::Summary { kind } => ClosingQuery::Summary { kind: *kind },
            ClosingQuery::Skew => ClosingQuery::Skew,
            ClosingQuery::AdviseTns { kind, candidates } => ClosingQuery::AdviseTns {
                kind: *kind,
                candidates: candidates.again(alloc)?,
            },
            ClosingQuery::AdviseSizes { kind, aim, insts } => {
                sizes_again(alloc, *kind, *aim, insts)?
            }
        })
    }
}
