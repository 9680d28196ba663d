//! The setup and hold tests that a group of timing gives.

ghost use Rattle.std.specs.Prelude.{◌≡◌, ◌++◌, IfOk};
ghost use Rattle.liberty_cells.specs.Statements.{told};
ghost use Rattle.liberty_cells.specs.Cells.{group_tests, test_with, tests_between, tests_from, all_tests};

use crate::arcs::table_of;
use crate::axes::{Form, Purpose};
use crate::library_units::Known;
use crate::templates::Templates;
use sta_units::{Again, Memory, Pair, both};
use std::alloc::Global;
use timing_defs::{CellTest, Items, Kind, Name, Table, Tran, Tree};

/// What a group of timing says of tests: the times that the pin's rise and fall need.
#[derive(Drop)]
pub(crate) struct Needs {
    pub(crate) kind: Kind,
    pub(crate) edge: Tran,
    pub(crate) rise: Option<Table>,
    pub(crate) fall: Option<Table>,
}

/// What a group of timing says of tests.
pub(crate) fn group_tests(
    alloc: Global,
    known: Known,
    templates: &Templates<'_>,
    group: &Tree,
    kind: Kind,
    edge: Tran,
) -> Result<Needs, Memory>
    ensures { IfOk result
        (λ needs. needs ≡ group_tests known (told templates.now.trees) group.now kind edge) }
{
    let form = Form {
        purpose: Purpose::Constraint,
        known,
    };
    let rise = table_of(alloc, form, templates, b"rise_constraint", group)?;
    match table_of(alloc, form, templates, b"fall_constraint", group) {
        Ok(fall) => Ok(Needs {
            kind,
            edge,
            rise,
            fall,
        }),
        Err(wanting) => {
            drop(rise);
            Err(wanting)
        }
    }
}

/// Adds the test of a transition where it has a table.
fn add_test(
    alloc: Global,
    tests: &mut Items<CellTest>,
    edge: (Kind, Tran),
    clock: &Name,
    pin: &Name,
    tran: Tran,
    need: &Option<Table>,
) -> Result<(), Memory>
    ensures { IfOk result
        (λ _. tests.new ≡ tests.old ++ test_with edge.0 edge.1 clock.now pin.now tran need.now) }
{
    match need {
        None => Ok(()),
        Some(need) => {
            let Pair {
                one: names,
                other: need,
            } = both(
                both(pin.again(alloc), clock.again(alloc)),
                need.again(alloc),
            )?;
            let Pair {
                one: pin,
                other: clock,
            } = names;
            tests.push(CellTest {
                pin,
                tran,
                clock,
                active: edge.1,
                kind: edge.0,
                need,
            })
        }
    }
}

/// Adds the tests of a pin against a clock pin, rise before fall.
fn add_between(
    alloc: Global,
    tests: &mut Items<CellTest>,
    needs: &Needs,
    clock: &Name,
    pin: &Name,
) -> Result<(), Memory>
    ensures { IfOk result
        (λ _. tests.new ≡ tests.old ++ tests_between needs.now pin.now clock.now) }
{
    let edge = (needs.kind, needs.edge);
    add_test(alloc, tests, edge, clock, pin, Tran::Rise, &needs.rise)?;
    add_test(alloc, tests, edge, clock, pin, Tran::Fall, &needs.fall)
}

/// Adds the tests of a pin against these.
#[tactic(auto, using(std::proofs::lemmas::List::drop_more))]
fn add_from(
    alloc: Global,
    tests: &mut Items<CellTest>,
    needs: &Needs,
    clocks: &[Name],
    pin: &Name,
) -> Result<(), Memory>
    ensures { IfOk result (λ _. tests.new ≡ tests.old ++ tests_from needs.now clocks.now pin.now) }
{
    for clock in clocks {
        add_between(alloc, tests, needs, clock, pin)?;
    }
    Ok(())
}

/// Adds the tests of each of the pins against each of the clock pins.
#[tactic(auto, using(std::proofs::lemmas::List::drop_more))]
pub(crate) fn add_tests(
    alloc: Global,
    tests: &mut Items<CellTest>,
    needs: &Needs,
    clocks: &[Name],
    pins: &[Name],
) -> Result<(), Memory>
    ensures { IfOk result (λ _. tests.new ≡ tests.old ++ all_tests needs.now clocks.now pins.now) }
{
    for pin in pins {
        add_from(alloc, tests, needs, clocks, pin)?;
    }
    Ok(())
}
