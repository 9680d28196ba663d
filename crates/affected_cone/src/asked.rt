//! Nodes and endpoints by the names in questions.

ghost use Rattle.std.specs.Prelude.{◌≡◌, true, Some, IfOk, IfErr};
ghost use Rattle.timing_rules.specs.Reports.{unknown_pin, endpoint_fault};
ghost use Rattle.netlist_store.specs.Numbering.{name_at};
ghost use Rattle.affected_cone.specs.Asked.{IsRefusal, IsNode, IsAskedPin, IsAskedEnd};

use netlist_store::Store;
use node_tests::{is_clocked, is_endpoint};
use pin_graph::Graph;
use std::alloc::Global;
use timing_defs::{Kind, Name, QueryFault, Tran};

/// The fault of a name of no pin.
fn unknown_pin(alloc: Global, pin: &Name) -> QueryFault
    ensures { IsRefusal (Some (QueryFault.UnknownPin pin.now)) result }
{
    match pin.copied(alloc) {
        Ok(name) => QueryFault::UnknownPin(name),
        Err(_) => QueryFault::Memory,
    }
}

/// The fault of a pin that is no endpoint.
fn not_endpoint(alloc: Global, pin: &Name) -> QueryFault
    ensures { IsRefusal (Some (QueryFault.NotEndpoint pin.now)) result }
{
    match pin.copied(alloc) {
        Ok(name) => QueryFault::NotEndpoint(name),
        Err(_) => QueryFault::Memory,
    }
}

/// The fault of an endpoint without a clock.
fn not_clocked(alloc: Global, pin: &Name) -> QueryFault
    ensures { IsRefusal (Some (QueryFault.NotClocked pin.now)) result }
{
    match pin.copied(alloc) {
        Ok(name) => QueryFault::NotClocked(name),
        Err(_) => QueryFault::Memory,
    }
}

/// The number of a node; `UnknownPin` exactly where no pin has that name.
pub(crate) fn node_named(
    alloc: Global,
    store: &Store,
    graph: &Graph,
    pin: &Name,
    tran: Tran,
) -> Result<u32, QueryFault>
    requires { graph.now.stored ≡ store.now }
    ensures node { IfOk result (IsNode store.now pin.now tran) }
    ensures refused { IfErr result (IsRefusal (unknown_pin store.now.design pin.now)) }
{
    store.laws();
    match graph.node(pin, tran) {
        Some(node) => Ok(node),
        None => Err(unknown_pin(alloc, pin)),
    }
}

/// The number of a pin; `UnknownPin` exactly where no pin has that name. Takes memory only for the name
/// in a fault.
pub fn pin_there(alloc: Global, store: &Store, pin: &Name) -> Result<u32, QueryFault>
    ensures pin { IfOk result (IsAskedPin store.now pin.now) }
    ensures refused { IfErr result (IsRefusal (unknown_pin store.now.design pin.now)) }
{
    store.laws();
    match store.pin(pin) {
        Some(number) => Ok(number),
        None => Err(unknown_pin(alloc, pin)),
    }
}

/// The number of the pin of an endpoint that is clocked for a kind.
fn end_at(
    alloc: Global,
    store: &Store,
    graph: &Graph,
    pin: &Name,
    kind: Kind,
    number: u32,
) -> Result<u32, QueryFault>
    requires graph { graph.now.stored ≡ store.now }
    requires number { name_at store.now.pins number ≡ Some pin.now }
    ensures end { IfOk result (IsAskedEnd store.now kind pin.now) }
    ensures refused { IfErr result (IsRefusal (endpoint_fault store.now.design kind pin.now)) }
{
    store.laws();
    let end = is_endpoint(store, number);
    if !end {
        return Err(not_endpoint(alloc, pin));
    }
    let clocked = is_clocked(alloc, store, graph, kind, number)?;
    if !clocked {
        return Err(not_clocked(alloc, pin));
    }
    Ok(number)
}

/// The number of an endpoint's pin. `UnknownPin` exactly where no pin has that name, else `NotEndpoint`
/// exactly where the pin is no endpoint, else `NotClocked` exactly where it is a register's pin that is
/// not clocked for the kind. Takes memory for the name in a fault, and for what a test of clocks asks.
pub fn end_named(
    alloc: Global,
    store: &Store,
    graph: &Graph,
    pin: &Name,
    kind: Kind,
) -> Result<u32, QueryFault>
    requires { graph.now.stored ≡ store.now }
    ensures end { IfOk result (IsAskedEnd store.now kind pin.now) }
    ensures refused { IfErr result (IsRefusal (endpoint_fault store.now.design kind pin.now)) }
{
    store.laws();
    match store.pin(pin) {
        Some(number) => end_at(alloc, store, graph, pin, kind, number),
        None => Err(unknown_pin(alloc, pin)),
    }
}
