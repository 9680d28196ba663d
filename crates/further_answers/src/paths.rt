//! The answers to questions about paths.

ghost use Rattle.std.specs.Prelude.{IfOk, IfErr};
ghost use Rattle.timing_rules.specs.Questions.{Told, query_fault};
ghost use Rattle.affected_cone.specs.Analysed.{IsSearch};
ghost use Rattle.affected_cone.specs.Asked.{IsRefusal};

use crate::asked::pins_there;
use affected_cone::{Search, end_named, pin_there};
use path_ranking::k_worst;
use std::alloc::Global;
use through_paths::worst_through;
use timing_defs::{Items, Kind, Name, Query, QueryFault, Report};

/// The worst paths of an endpoint.
pub(crate) fn ranked_paths(
    alloc: Global,
    search: &Search<'_>,
    pin: &Name,
    kind: Kind,
    count: u32,
) -> Result<Report, QueryFault>
    requires { IsSearch search.now }
    ensures told { IfOk result (Told search.now.store.now.design (Query.Paths pin.now kind count)) }
    ensures refused { IfErr result
        (IsRefusal (query_fault search.now.store.now.design (Query.Paths pin.now kind count))) }
{
    let Search {
        store,
        graph,
        arrivals,
        tree,
    } = *search;
    let _number = end_named(alloc, store, graph, pin, kind)?;
    store.laws();
    let paths = k_worst(alloc, store, graph, arrivals, tree, pin, kind, count)?;
    Ok(Report::Paths(paths))
}

/// The worst path to an endpoint through pins.
pub(crate) fn path_through(
    alloc: Global,
    search: &Search<'_>,
    pin: &Name,
    kind: Kind,
    pins: &Items<Name>,
) -> Result<Report, QueryFault>
    requires { IsSearch search.now }
    ensures told { IfOk result
        (Told search.now.store.now.design (Query.Through pin.now kind pins.now)) }
    ensures refused { IfErr result
        (IsRefusal
        (query_fault search.now.store.now.design (Query.Through pin.now kind pins.now))) }
{
    let Search {
        store,
        graph,
        arrivals,
        tree,
    } = *search;
    let _pin = pin_there(alloc, store, pin)?;
    pins_there(alloc, store, pins.as_slice())?;
    let _number = end_named(alloc, store, graph, pin, kind)?;
    store.laws();
    let path = worst_through(alloc, store, graph, arrivals, tree, pin, kind, pins)?;
    Ok(Report::Shown(path))
}
