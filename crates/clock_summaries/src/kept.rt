//! Endpoints of which the analysis keeps that they have no slack.

ghost use Rattle.std.specs.Prelude.{◌≡◌, true, None, IfOk};
ghost use Rattle.timing_rules.specs.Paths.{IsSlack};

use affected_cone::{Analysis, ask};
use netlist_store::Store;
use sta_units::Memory;
use std::alloc::Global;
use timing_defs::{Kind, Name, Query, Report};

/// Whether the analysis answers that an endpoint has no slack.
#[tactic(auto, using(crate::proofs::KeptLaws::none_told))]
fn tells_none(
    alloc: Global,
    store: &Store,
    analysis: &Analysis,
    kind: Kind,
    pin: &Name,
    q: &Query,
) -> bool
    requires store { store.now ≡ analysis.now.stored }
    requires asked { q.now ≡ Query.Endpoint pin.now kind }
    ensures { result ≡ true → IsSlack analysis.now.stored.design kind pin.now None }
{
    match ask(alloc, store, analysis, q) {
        Ok(Report::Value(None)) => true,
        Ok(_) => false,
        Err(fault) => {
            drop(fault);
            false
        }
    }
}

/// Whether an endpoint is known to have no slack. Of one that is not clocked this is not known.
pub(crate) fn lacks_slack(
    alloc: Global,
    store: &Store,
    analysis: &Analysis,
    kind: Kind,
    pin: &Name,
) -> Result<bool, Memory>
    requires { store.now ≡ analysis.now.stored }
    ensures { IfOk result
        (λ lacks. lacks ≡ true → IsSlack analysis.now.stored.design kind pin.now None) }
{
    let q = Query::Endpoint {
        pin: pin.copied(alloc)?,
        kind,
    };
    let lacks = tells_none(alloc, store, analysis, kind, pin, &q);
    drop(q);
    Ok(lacks)
}
