//! What tables are over.

ghost use Rattle.std.specs.Prelude.{◌≡◌, IfOk};
ghost use Rattle.std.specs.Str.{bytes_eq};
ghost use Rattle.std.specs.List.{list_all};
ghost use Rattle.liberty_cells.specs.Statements.{told};
ghost use Rattle.liberty_cells.specs.Tables.{over_xs, over_ys, unit_of, side_named, side, is_side, last_side, axes_with, axes_between, has_third, two_axes, axes_of};

use crate::library_units::Known;
use crate::statements::{last, one_text, values};
use sta_units::{Memory, Pair, Unit, both};
use std::alloc::Global;
use timing_defs::{Item, Lexeme};

/// What a table tells: a delay or a slew, or a setup or hold time.
#[derive(Clone, Copy, Drop)]
pub(crate) enum Purpose {
    Delay,
    Constraint,
}

/// What a table tells, and the units that are known.
#[derive(Clone, Copy, Drop)]
pub(crate) struct Form {
    pub(crate) purpose: Purpose,
    pub(crate) known: Known,
}

/// An axis of a table.
#[derive(Clone, Copy, Drop)]
pub(crate) enum Side {
    Xs,
    Ys,
}

/// The axes of a template, in the order of its indexes.
#[derive(Clone, Copy, Drop)]
pub(crate) enum Axes {
    One(Side),
    Two(Side, Side),
}

fn is_over_xs(purpose: Purpose, name: &[u8]) -> bool
    ensures { result ≡ bytes_eq name.now (over_xs purpose) }
{
    match purpose {
        Purpose::Delay => name == b"input_net_transition".as_slice(),
        Purpose::Constraint => name == b"related_pin_transition".as_slice(),
    }
}

fn is_over_ys(purpose: Purpose, name: &[u8]) -> bool
    ensures { result ≡ bytes_eq name.now (over_ys purpose) }
{
    match purpose {
        Purpose::Delay => name == b"total_output_net_capacitance".as_slice(),
        Purpose::Constraint => name == b"constrained_pin_transition".as_slice(),
    }
}

/// The unit of an axis.
pub(crate) fn unit_of(form: Form, side: Side) -> Option<Unit>
    ensures { result ≡ unit_of form side }
{
    match (side, form.purpose) {
        (Side::Ys, Purpose::Delay) => form.known.cap,
        _ => form.known.time,
    }
}

fn side_named(purpose: Purpose, name: &[u8]) -> Option<Side>
    ensures { result ≡ side_named purpose name.now }
{
    if is_over_xs(purpose, name) {
        Some(Side::Xs)
    } else if is_over_ys(purpose, name) {
        Some(Side::Ys)
    } else {
        None
    }
}

/// The axis of a variable; none where it is another.
fn side_of(purpose: Purpose, value: &[Lexeme]) -> Option<Side>
    ensures { result ≡ side purpose value.now }
{
    match one_text(value) {
        None => None,
        Some(name) => side_named(purpose, name),
    }
}

fn is_side(purpose: Purpose, value: &[Lexeme]) -> bool
    ensures { result ≡ is_side purpose value.now }
{
    side_of(purpose, value).is_some()
}

/// Whether each variable is that of an axis.
#[tactic(auto, using(std::proofs::lemmas::List::drop_more))]
fn are_sides(purpose: Purpose, found: &[&[Lexeme]]) -> bool
    ensures { result ≡ list_all (is_side purpose) (told found.now) }
{
    for value in found {
        if !is_side(purpose, *value) {
            return false;
        }
    }
    true
}

/// The axis of the last variable.
fn last_side(purpose: Purpose, found: &[&[Lexeme]]) -> Option<Side>
    ensures { result ≡ last_side purpose (told found.now) }
{
    match last(found) {
        None => None,
        Some(value) => side_of(purpose, value),
    }
}

fn axes_with(first: Option<Side>, second: Option<Side>) -> Option<Axes>
    ensures { result ≡ axes_with first second }
{
    match (first, second) {
        (None, _) | (Some(Side::Xs), Some(Side::Xs)) | (Some(Side::Ys), Some(Side::Ys)) => None,
        (Some(side), None) => Some(Axes::One(side)),
        (Some(Side::Xs), Some(Side::Ys)) => Some(Axes::Two(Side::Xs, Side::Ys)),
        (Some(Side::Ys), Some(Side::Xs)) => Some(Axes::Two(Side::Ys, Side::Xs)),
    }
}

/// The axes of a first and a second variable; none where one is another or both are the same.
#[tactic(auto, unfolding(crate::specs::Tables::axes_between))]
fn axes_between(purpose: Purpose, first: &[&[Lexeme]], second: &[&[Lexeme]]) -> Option<Axes>
    ensures { result ≡ axes_between purpose (told first.now) (told second.now) }
{
    if are_sides(purpose, first) && are_sides(purpose, second) {
        return axes_with(last_side(purpose, first), last_side(purpose, second));
    }
    None
}

/// Whether a template has a third variable.
fn has_third(alloc: Global, template: &[Item]) -> Result<bool, Memory>
    ensures { IfOk result (λ has. has ≡ has_third template.now) }
{
    let found = values(alloc, template, b"variable_3")?;
    let has = !found.is_empty();
    drop(found);
    Ok(has)
}

/// The axes of the first and the second variable of a template.
fn two_axes(alloc: Global, purpose: Purpose, template: &[Item]) -> Result<Option<Axes>, Memory>
    ensures { IfOk result (λ axes. axes ≡ two_axes purpose template.now) }
{
    let Pair {
        one: first,
        other: second,
    } = both(
        values(alloc, template, b"variable_1"),
        values(alloc, template, b"variable_2"),
    )?;
    let axes = axes_between(purpose, first.as_slice(), second.as_slice());
    drop(first);
    drop(second);
    Ok(axes)
}

/// The axes of a template in the order of its indexes; none where a variable is another, stands
/// twice or is a third.
pub(crate) fn axes_of(
    alloc: Global,
    purpose: Purpose,
    template: &[Item],
) -> Result<Option<Axes>, Memory>
    ensures { IfOk result (λ axes. axes ≡ axes_of purpose template.now) }
{
    if has_third(alloc, template)? {
        return Ok(None);
    }
    two_axes(alloc, purpose, template)
}
