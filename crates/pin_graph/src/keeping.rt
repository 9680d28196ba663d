//! Whether an ECO left all links: then the graph of its base is that of the edited design too.

ghost use Rattle.std.specs.Prelude.{◌≡◌, ◌&&◌, ◌||◌, not, nat_eq, None, IsTrue, All};
ghost use Rattle.std.specs.Cmp.Lexicographic.{pointwise};
ghost use Rattle.timing_defs.specs.Kinds.{comb_kind};
ghost use Rattle.timing_defs.specs.Kinds.{same_kind};
ghost use Rattle.timing_defs.specs.Edits.{same_cell_pin, same_arc, same_test};
ghost use Rattle.timing_defs.specs.NetChecks.{net_fault};
ghost use Rattle.netlist_store.specs.Applying.{IsEditOf};
ghost use Rattle.pin_graph.specs.Alike.{same_shape, IsSameInst, IsSameNet};
ghost use Rattle.pin_graph.specs.Kept.{HaveSameLinks};

use netlist_store::{Store, Touched};
use timing_defs::{ArcKind, Cell, CellArc, CellPin, CellTest, Kind, Name, Split};

fn same_kind(a: Kind, b: Kind) -> bool
    ensures { result ≡ same_kind a b }
{
    match a {
        Kind::Setup => matches!(b, Kind::Setup),
        Kind::Hold => matches!(b, Kind::Hold),
    }
}

fn same_arc_kind(a: ArcKind, b: ArcKind) -> bool
    ensures { result ≡ ((comb_kind a && comb_kind b) || (not (comb_kind a) && not (comb_kind b))) }
{
    a.is_comb() == b.is_comb()
}

fn same_pin(a: &CellPin, b: &CellPin) -> bool
    ensures { result ≡ same_cell_pin a.now b.now }
{
    a.name == b.name && a.dir.is(b.dir)
}

fn same_arc(a: &CellArc, b: &CellArc) -> bool
    ensures { result ≡ same_arc a.now b.now }
{
    a.from == b.from
        && a.from_tran.is(b.from_tran)
        && a.to == b.to
        && a.to_tran.is(b.to_tran)
        && same_arc_kind(a.kind, b.kind)
}

fn same_test(a: &CellTest, b: &CellTest) -> bool
    ensures { result ≡ same_test a.now b.now }
{
    a.pin == b.pin
        && a.tran.is(b.tran)
        && a.clock == b.clock
        && a.active.is(b.active)
        && same_kind(a.kind, b.kind)
}

/// Whether two cells have the same pins, in one order.
fn same_pins(a: &[CellPin], b: &[CellPin]) -> bool
    ensures { result ≡ pointwise same_cell_pin a.now b.now }
{
    let mut rest = b;
    for pin in a {
        let [first, more @ ..] = rest else {
            return false;
        };
        if !same_pin(pin, first) {
            return false;
        }
        rest = more;
    }
    rest.is_empty()
}

/// Whether two cells have the same arcs, in one order.
fn same_arcs(a: &[CellArc], b: &[CellArc]) -> bool
    ensures { result ≡ pointwise same_arc a.now b.now }
{
    let mut rest = b;
    for arc in a {
        let [first, more @ ..] = rest else {
            return false;
        };
        if !same_arc(arc, first) {
            return false;
        }
        rest = more;
    }
    rest.is_empty()
}

/// Whether two cells have the same tests, in one order.
fn same_tests(a: &[CellTest], b: &[CellTest]) -> bool
    ensures { result ≡ pointwise same_test a.now b.now }
{
    let mut rest = b;
    for test in a {
        let [first, more @ ..] = rest else {
            return false;
        };
        if !same_test(test, first) {
            return false;
        }
        rest = more;
    }
    rest.is_empty()
}

/// Whether two cells have the same pins, arcs and tests, in one order.
fn same_shape(a: &Cell, b: &Cell) -> bool
    ensures { result ≡ same_shape a.now b.now }
{
    same_pins(a.pins.as_slice(), b.pins.as_slice())
        && same_arcs(a.arcs.as_slice(), b.arcs.as_slice())
        && same_tests(a.tests.as_slice(), b.tests.as_slice())
}

/// Whether an instance is there before and after the ECO, with cells of one shape.
#[tactic(auto, using(crate::proofs::StartLaws::number_is, crate::proofs::AlikeAfter::same_inst))]
fn keeps_inst(base: &Store, store: &Store, name: &Name) -> bool
    ensures { IsTrue result → IsSameInst base.now store.now name.now }
{
    match (base.inst(name), store.inst(name)) {
        (Some(a), Some(b)) => {
            same_shape(base.cell_at(a, Split::Late), store.cell_at(b, Split::Late))
        }
        _ => false,
    }
}

/// Whether all instances are there before and after the ECO, with cells of one shape.
fn keeps_insts(base: &Store, store: &Store, names: &[Name]) -> bool
    ensures { IsTrue result → All (λ name. IsSameInst base.now store.now name) names.now }
{
    for name in names {
        if !keeps_inst(base, store, name) {
            return false;
        }
    }
    true
}

fn same_numbers(a: &[u32], b: &[u32]) -> bool
    ensures { result ≡ pointwise nat_eq a.now b.now }
{
    a == b
}

/// Whether a net is there before and after the ECO, with the same pins.
#[tactic(auto, using(crate::proofs::AlikeAfter::same_net))]
fn keeps_net(base: &Store, store: &Store, name: &Name) -> bool
    ensures { IsTrue result → IsSameNet base.now store.now name.now }
{
    match (base.net(name), store.net(name)) {
        (Some(a), Some(b)) => same_numbers(base.net_pins(a), store.net_pins(b)),
        _ => false,
    }
}

/// Whether all nets are there before and after the ECO, with the same pins.
fn keeps_nets(base: &Store, store: &Store, names: &[Name]) -> bool
    ensures { IsTrue result → All (λ name. IsSameNet base.now store.now name) names.now }
{
    for name in names {
        if !keeps_net(base, store, name) {
            return false;
        }
    }
    true
}

/// Whether an ECO left all links, ports of clocks and clock pins of registers, by numbers: not where it
/// adds or removes an instance, or a net, or where a pin joins or leaves a net. Takes as many steps as
/// the nets that it touched have pins, and the cells of the instances that it touched pins, arcs and tests.
pub(crate) fn keeps_links(base: &Store, store: &Store, touched: &Touched) -> bool
    requires made { IsEditOf base.now
        (record { insts = touched.now.insts; nets = touched.now.nets }) store.now }
    requires fault { net_fault store.now.design ≡ None }
    ensures { IsTrue result → HaveSameLinks base.now store.now }
{
    base.laws();
    store.laws();
    if base.pin_bound() != store.pin_bound() || base.inst_bound() != store.inst_bound() {
        return false;
    }
    if !keeps_insts(base, store, touched.insts.as_slice()) {
        return false;
    }
    keeps_nets(base, store, touched.nets.as_slice())
}
