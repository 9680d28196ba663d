//! Whether two cells have the same pins, arcs and tests, as sets.

ghost use Rattle.std.specs.Prelude.{◌≡◌, ◌&&◌, ◌||◌, not, false, slice_get};
ghost use Rattle.std.specs.List.{list_all, list_any};
ghost use Rattle.std.specs.Option.{option_map_or};
ghost use Rattle.timing_defs.specs.Kinds.{comb_kind};
ghost use Rattle.timing_defs.specs.Kinds.{same_kind};
ghost use Rattle.timing_defs.specs.Edits.{same_cell_pin, same_arc, same_test, same_set, cells_agree};

use timing_defs::{ArcKind, Cell, CellArc, CellPin, CellTest, Kind};

fn same_kind(a: Kind, b: Kind) -> bool
    ensures { result ≡ same_kind a b }
{
    match a {
        Kind::Setup => matches!(b, Kind::Setup),
        Kind::Hold => matches!(b, Kind::Hold),
    }
}

fn same_pin(a: &CellPin, b: &CellPin) -> bool
    ensures { result ≡ same_cell_pin a.now b.now }
{
    a.name == b.name && a.dir.is(b.dir)
}

fn same_arc_kind(a: ArcKind, b: ArcKind) -> bool
    ensures { result ≡ ((comb_kind a && comb_kind b) || (not (comb_kind a) && not (comb_kind b))) }
{
    a.is_comb() == b.is_comb()
}

fn same_arc(a: &CellArc, b: &CellArc) -> bool
    ensures { result ≡ same_arc a.now b.now }
{
    a.from == b.from
        && a.from_tran.is(b.from_tran)
        && a.to == b.to
        && a.to_tran.is(b.to_tran)
        && same_arc_kind(a.kind, b.kind)
}

fn same_test(a: &CellTest, b: &CellTest) -> bool
    ensures { result ≡ same_test a.now b.now }
{
    a.pin == b.pin
        && a.tran.is(b.tran)
        && a.clock == b.clock
        && a.active.is(b.active)
        && same_kind(a.kind, b.kind)
}

/// Whether a pin stands at a place.
fn is_pin_at(pins: &[CellPin], at: usize, pin: &CellPin) -> bool
    ensures { result ≡ option_map_or (same_cell_pin pin.now) (slice_get pins.now at) false }
{
    match pins.get(at) {
        Some(other) => same_pin(pin, other),
        None => false,
    }
}

/// Whether a pin is among others; the place where it is looked for first is the one that it has in
/// a library of the same order.
fn has_pin(pins: &[CellPin], at: usize, pin: &CellPin) -> bool
    ensures { result ≡ list_any (same_cell_pin pin.now) pins.now }
{
    if is_pin_at(pins, at, pin) {
        return true;
    }
    pins.iter().any(|other| same_pin(pin, other))
}

/// Whether an arc stands at a place.
fn is_arc_at(arcs: &[CellArc], at: usize, arc: &CellArc) -> bool
    ensures { result ≡ option_map_or (same_arc arc.now) (slice_get arcs.now at) false }
{
    match arcs.get(at) {
        Some(other) => same_arc(arc, other),
        None => false,
    }
}

/// Whether an arc is among others; the place where it is looked for first is the one that it has in
/// a library of the same order.
fn has_arc(arcs: &[CellArc], at: usize, arc: &CellArc) -> bool
    ensures { result ≡ list_any (same_arc arc.now) arcs.now }
{
    if is_arc_at(arcs, at, arc) {
        return true;
    }
    arcs.iter().any(|other| same_arc(arc, other))
}

/// Whether a test stands at a place.
fn is_test_at(tests: &[CellTest], at: usize, test: &CellTest) -> bool
    ensures { result ≡ option_map_or (same_test test.now) (slice_get tests.now at) false }
{
    match tests.get(at) {
        Some(other) => same_test(test, other),
        None => false,
    }
}

/// Whether a test is among others; the place where it is looked for first is the one that it has in
/// a library of the same order.
fn has_test(tests: &[CellTest], at: usize, test: &CellTest) -> bool
    ensures { result ≡ list_any (same_test test.now) tests.now }
{
    if is_test_at(tests, at, test) {
        return true;
    }
    tests.iter().any(|other| same_test(test, other))
}

fn pins_within(pins: &[CellPin], others: &[CellPin]) -> bool
    ensures { result ≡ list_all (λ pin. list_any (same_cell_pin pin) others.now) pins.now }
{
    for (at, pin) in pins.iter().enumerate() {
        if !has_pin(others, at, pin) {
            return false;
        }
    }
    true
}

fn arcs_within(arcs: &[CellArc], others: &[CellArc]) -> bool
    ensures { result ≡ list_all (λ arc. list_any (same_arc arc) others.now) arcs.now }
{
    for (at, arc) in arcs.iter().enumerate() {
        if !has_arc(others, at, arc) {
            return false;
        }
    }
    true
}

fn tests_within(tests: &[CellTest], others: &[CellTest]) -> bool
    ensures { result ≡ list_all (λ test. list_any (same_test test) others.now) tests.now }
{
    for (at, test) in tests.iter().enumerate() {
        if !has_test(others, at, test) {
            return false;
        }
    }
    true
}

fn same_pins(a: &[CellPin], b: &[CellPin]) -> bool
    ensures { result ≡ same_set same_cell_pin a.now b.now }
{
    pins_within(a, b) && pins_within(b, a)
}

fn same_arcs(a: &[CellArc], b: &[CellArc]) -> bool
    ensures { result ≡ same_set same_arc a.now b.now }
{
    arcs_within(a, b) && arcs_within(b, a)
}

fn same_tests(a: &[CellTest], b: &[CellTest]) -> bool
    ensures { result ≡ same_set same_test a.now b.now }
{
    tests_within(a, b) && tests_within(b, a)
}

/// Whether two cells have the same pins with their directions, arcs with their kinds, and tests.
pub fn cells_agree(a: &Cell, b: &Cell) -> bool
    ensures { result ≡ cells_agree a.now b.now }
{
    same_pins(a.pins.as_slice(), b.pins.as_slice())
        && same_arcs(a.arcs.as_slice(), b.arcs.as_slice())
        && same_tests(a.tests.as_slice(), b.tests.as_slice())
}
