//! Look-up tables.

ghost use Rattle.std.specs.Prelude.{◌≡◌, ◌++◌, ◌∷◌, ◌&&◌, ◌==◌, ◌-◌, [], get_or, length, pos, nat_le, int_lt, map, Result, Ok, Err, List, IfOk};
ghost use Rattle.std.specs.List.{list_all, flat_map};
ghost use Rattle.timing_defs.specs.declared.liberty_tree.Lexeme.{Lexeme};
ghost use Rattle.timing_defs.specs.Lookup.{is_rising};
ghost use Rattle.liberty_cells.specs.Statements.{told, lists};
ghost use Rattle.liberty_cells.specs.Tables.{flat, all_rows, row, or_else, index, last_flat, axis, is_index, rises, stand_all, is_axis, all_rise, has_values, is_row_of, has_rows, rows_of, last_rows, flatten, column, columns, lone, one_way, two_way, table_or, table_of_one, table_of_two, table_at, table_with, table_in, scalar_in};

use crate::axes::{Axes, Form, Side, axes_of, unit_of};
use crate::numbers::{Numbers, add_row, flat};
use crate::statements::lists;
use sta_units::{Memory, Pair, Unit, both};
use std::alloc::Global;
use timing_defs::{Code, Item, Items, Lexeme, Table};

fn all_above(x: i64, more: &[i64]) -> bool
    ensures { result ≡ list_all (int_lt x) more.now }
{
    more.iter().all(|y| x < *y)
}

/// Whether an index of at most 64 entries rises strictly.
#[tactic(auto, using(std::proofs::lemmas::List::drop_more))]
fn is_rising(index: &[i64]) -> bool
    ensures { result ≡ is_rising index.now }
{
    for (i, x) in index.iter().enumerate() {
        if !all_above(*x, index.split_at(i + 1).1) {
            return false;
        }
    }
    true
}

fn is_index(numbers: &Numbers) -> bool
    ensures { result
        ≡
        (numbers.now.good && nat_le 1 (length numbers.now.values) && nat_le
        (length numbers.now.values) 64) }
{
    numbers.good && 1 <= numbers.values.len() && numbers.values.len() <= 64
}

/// Whether an index of this form rises strictly, where its unit is known.
fn rises(unit: Option<Unit>, numbers: &Numbers) -> bool
    ensures { (args : List Lexeme) → numbers.now.good ≡ all_rows unit args → numbers.now.values
        ≡ flat unit args → result ≡ rises unit args }
{
    match unit {
        None => true,
        Some(_) => !is_index(numbers) || is_rising(numbers.values.as_slice()),
    }
}

/// An index that stands once or more: whether each is one, whether each rises, and the last one's
/// numbers.
#[derive(Drop)]
struct Index {
    fits: bool,
    rises: bool,
    values: Items<i64>,
}

#[tactic(auto, unfolding(crate::specs::Tables::last_flat), using(std::proofs::lemmas::List::drop_more))]
fn read_index(alloc: Global, unit: Option<Unit>, found: &[&[Lexeme]]) -> Result<Index, Memory>
    ensures fits { IfOk result (λ index. index.fits ≡ is_axis unit (told found.now)) }
    ensures rises { IfOk result (λ index. index.rises ≡ all_rise unit (told found.now)) }
    ensures values { IfOk result (λ index. index.values ≡ axis unit (told found.now)) }
{
    let mut index = Index {
        fits: !found.is_empty(),
        rises: true,
        values: Items::new(alloc),
    };
    for args in found {
        index = next_index(alloc, unit, *args, index)?;
    }
    Ok(index)
}

/// Reads one more of an index's lists.
fn next_index(
    alloc: Global,
    unit: Option<Unit>,
    args: &[Lexeme],
    before: Index,
) -> Result<Index, Memory>
    ensures { IfOk result
        (λ index. (index.fits ≡ (before.fits && is_index unit args.now))
        × (index.rises ≡ (before.rises && rises unit args.now))
        × (index.values ≡ flat unit args.now)) }
{
    let (fit, rise) = (before.fits, before.rises);
    drop(before);
    let numbers = flat(alloc, unit, args)?;
    Ok(Index {
        fits: fit && is_index(&numbers),
        rises: rise && rises(unit, &numbers),
        values: numbers.values,
    })
}

/// Values that stand once or more: whether each list is one of so many, and the last one's numbers.
#[tactic(auto, unfolding(crate::specs::Tables::last_flat), using(std::proofs::lemmas::List::drop_more))]
fn read_values(
    alloc: Global,
    unit: Option<Unit>,
    count: usize,
    found: &[&[Lexeme]],
) -> Result<Numbers, Memory>
    ensures good { IfOk result
        (λ numbers. numbers.good ≡ stand_all (has_values unit count) (told found.now)) }
    ensures values { IfOk result (λ numbers. numbers.values ≡ last_flat unit [] (told found.now)) }
{
    let mut good = !found.is_empty();
    let mut values = Items::new(alloc);
    for args in found {
        drop(values);
        let numbers = flat(alloc, unit, *args)?;
        good = good && numbers.good && numbers.values.len() == count;
        values = numbers.values;
    }
    Ok(Numbers { good, values })
}

/// Rows of numbers, and whether they have the form that is asked.
#[derive(Drop)]
struct Rows {
    good: bool,
    rows: Items<Items<i64>>,
}

/// Adds a row; whether it is one of so many values.
fn push_row(
    alloc: Global,
    unit: Option<Unit>,
    columns: usize,
    arg: &Lexeme,
    rows: &mut Items<Items<i64>>,
) -> Result<bool, Memory>
    ensures { IfOk result
        (λ good. (good ≡ is_row_of unit columns arg.now)
        × (rows.new ≡ rows.old ++ row unit arg.now.text ∷ [])) }
{
    let mut values = Items::new(alloc);
    match add_row(unit, arg.text.as_slice(), &mut values) {
        Ok(good) => {
            let fits = good && values.len() == columns;
            rows.push(values)?;
            Ok(fits)
        }
        Err(wanting) => {
            drop(values);
            Err(wanting)
        }
    }
}

/// The rows of a list, and whether each is one of so many values.
#[tactic(auto, using(std::proofs::lemmas::List::drop_more))]
fn rows_of(
    alloc: Global,
    unit: Option<Unit>,
    columns: usize,
    args: &[Lexeme],
) -> Result<Rows, Memory>
    ensures { IfOk result
        (λ found. (found.good ≡ list_all (is_row_of unit columns) args.now)
        × (found.rows ≡ rows_of unit args.now)) }
{
    let mut good = true;
    let mut rows = Items::new(alloc);
    for arg in args {
        match push_row(alloc, unit, columns, arg, &mut rows) {
            Ok(fits) => good = good && fits,
            Err(wanting) => {
                drop(rows);
                return Err(wanting);
            }
        }
    }
    Ok(Rows { good, rows })
}

/// Values that stand once or more, as rows: whether each list has so many rows of so many values,
/// and the last one's rows.
#[tactic(auto, unfolding(crate::specs::Tables::last_rows), using(std::proofs::lemmas::List::drop_more))]
fn read_rows(
    alloc: Global,
    unit: Option<Unit>,
    count: usize,
    columns: usize,
    found: &[&[Lexeme]],
) -> Result<Rows, Memory>
    ensures good { IfOk result
        (λ read. read.good ≡ stand_all (has_rows unit count columns) (told found.now)) }
    ensures rows { IfOk result (λ read. read.rows ≡ last_rows unit [] (told found.now)) }
{
    let mut good = !found.is_empty();
    let mut rows = Items::new(alloc);
    for args in found {
        drop(rows);
        let read = rows_of(alloc, unit, columns, *args)?;
        good = good && args.len() == count && read.good;
        rows = read.rows;
    }
    Ok(Rows { good, rows })
}

/// Adds numbers behind others.
#[tactic(auto, using(std::proofs::lemmas::List::drop_more))]
fn add_all(values: &mut Items<i64>, more: &[i64]) -> Result<(), Memory>
    ensures { IfOk result (λ _. values.new ≡ values.old ++ more.now) }
{
    for value in more {
        values.push(*value)?;
    }
    Ok(())
}

/// The numbers of all rows in order.
#[tactic(auto, using(std::proofs::lemmas::List::drop_more))]
fn flatten(alloc: Global, rows: &[Items<i64>]) -> Result<Items<i64>, Memory>
    ensures { IfOk result (λ values. values ≡ flatten rows.now) }
{
    let mut values = Items::new(alloc);
    for row in rows {
        match add_all(&mut values, row.as_slice()) {
            Ok(()) => {}
            Err(wanting) => {
                drop(values);
                return Err(wanting);
            }
        }
    }
    Ok(values)
}

#[tactic(auto, using(crate::proofs::TablesLemmas::entry_or_zero))]
fn entry(row: &Items<i64>, at: usize) -> i64
    ensures { result ≡ get_or row.now at (pos 0) }
{
    row.get(at).copied().unwrap_or(0)
}

/// Adds a column of rows.
#[tactic(auto, using(std::proofs::lemmas::List::drop_more))]
fn add_column(values: &mut Items<i64>, at: usize, rows: &[Items<i64>]) -> Result<(), Memory>
    ensures { IfOk result (λ _. values.new ≡ values.old ++ column at rows.now) }
{
    for row in rows {
        values.push(entry(row, at))?;
    }
    Ok(())
}

/// So many columns of rows.
fn columns(alloc: Global, count: usize, rows: &[Items<i64>]) -> Result<Items<i64>, Memory>
    ensures { IfOk result (λ values. values ≡ columns 0 count rows.now) }
{
    let mut values = Items::new(alloc);
    for at in 0..count {
        add_column(&mut values, at, rows)?;
    }
    Ok(values)
}

/// An axis that a table lacks.
fn lone(alloc: Global) -> Result<Items<i64>, Memory>
    ensures { IfOk result (λ axis. axis ≡ lone) }
{
    let mut axis = Items::new(alloc);
    match axis.push(0) {
        Ok(()) => Ok(axis),
        Err(wanting) => {
            drop(axis);
            Err(wanting)
        }
    }
}

fn one_way(alloc: Global, side: Side, index: Items<i64>, vals: Items<i64>) -> Result<Table, Memory>
    ensures { IfOk result (λ table. table ≡ one_way side index vals) }
{
    match lone(alloc) {
        Ok(other) => match side {
            Side::Xs => Ok(Table {
                xs: index,
                ys: other,
                vals,
            }),
            Side::Ys => Ok(Table {
                xs: other,
                ys: index,
                vals,
            }),
        },
        Err(wanting) => {
            drop(index);
            drop(vals);
            Err(wanting)
        }
    }
}

fn two_way(
    alloc: Global,
    side: Side,
    first: Items<i64>,
    second: Items<i64>,
    rows: &[Items<i64>],
) -> Result<Table, Memory>
    ensures { IfOk result (λ table. table ≡ two_way side first second rows.now) }
{
    match side {
        Side::Xs => match flatten(alloc, rows) {
            Ok(vals) => Ok(Table {
                xs: first,
                ys: second,
                vals,
            }),
            Err(wanting) => {
                drop(first);
                drop(second);
                Err(wanting)
            }
        },
        Side::Ys => match columns(alloc, second.len(), rows) {
            Ok(vals) => Ok(Table {
                xs: second,
                ys: first,
                vals,
            }),
            Err(wanting) => {
                drop(first);
                drop(second);
                Err(wanting)
            }
        },
    }
}

fn table_or(fits: bool, rises: bool, table: Table) -> Result<Table, Code>
    ensures { result ≡ table_or fits rises table }
{
    if !fits {
        drop(table);
        Err(Code::LibertyBadTable)
    } else if !rises {
        drop(table);
        Err(Code::LibertyIndexNotRising)
    } else {
        Ok(table)
    }
}

/// A table of one index, or the code of its fault.
fn table_of_one(
    alloc: Global,
    form: Form,
    side: Side,
    first: &[&[Lexeme]],
    found: &[&[Lexeme]],
) -> Result<Result<Table, Code>, Memory>
    ensures { IfOk result
        (λ table. table ≡ table_of_one form side (told first.now) (told found.now)) }
{
    let index = read_index(alloc, unit_of(form, side), first)?;
    match read_values(alloc, form.known.time, index.values.len(), found) {
        Ok(numbers) => {
            let fits = index.fits && numbers.good;
            let rises = index.rises;
            let table = one_way(alloc, side, index.values, numbers.values)?;
            Ok(table_or(fits, rises, table))
        }
        Err(wanting) => {
            drop(index);
            Err(wanting)
        }
    }
}

/// A table of two indexes, or the code of its fault.
fn table_of_two(
    alloc: Global,
    form: Form,
    sides: (Side, Side),
    first: &[&[Lexeme]],
    second: &[&[Lexeme]],
    found: &[&[Lexeme]],
) -> Result<Result<Table, Code>, Memory>
    ensures { IfOk result
        (λ table. table
        ≡ table_of_two form sides.0 sides.1 (told first.now) (told second.now) (told found.now)) }
{
    let Pair { one, other: two } = both(
        read_index(alloc, unit_of(form, sides.0), first),
        read_index(alloc, unit_of(form, sides.1), second),
    )?;
    let (count, columns) = (one.values.len(), two.values.len());
    match read_rows(alloc, form.known.time, count, columns, found) {
        Ok(read) => {
            let fits = one.fits && two.fits && read.good;
            let rises = one.rises && two.rises;
            let table = two_way(alloc, sides.0, one.values, two.values, read.rows.as_slice());
            drop(read);
            Ok(table_or(fits, rises, table?))
        }
        Err(wanting) => {
            drop(one);
            drop(two);
            Err(wanting)
        }
    }
}

/// The lists of the table's own index, or of its template's.
fn index_lists<'a>(
    alloc: Global,
    name: &[u8],
    table: &'a [Item],
    template: &'a [Item],
) -> Result<Items<&'a [Lexeme]>, Memory>
    ensures { IfOk result
        (λ found. told found ≡ index name.now table.entry.now template.entry.now) }
{
    let own = lists(alloc, table, name)?;
    if own.is_empty() {
        drop(own);
        return lists(alloc, template, name);
    }
    Ok(own)
}

/// A table with these axes, or the code of its fault.
fn table_at(
    alloc: Global,
    form: Form,
    axes: Axes,
    indexes: (&[&[Lexeme]], &[&[Lexeme]]),
    found: &[&[Lexeme]],
) -> Result<Result<Table, Code>, Memory>
    ensures { IfOk result
        (λ table. table
        ≡ table_at form axes (told indexes.entry.0.now) (told indexes.entry.1.now)
        (told found.now)) }
{
    match axes {
        Axes::One(side) => table_of_one(alloc, form, side, indexes.0, found),
        Axes::Two(one, two) => table_of_two(alloc, form, (one, two), indexes.0, indexes.1, found),
    }
}

/// A table in the form of its template, or the code of its fault.
pub(crate) fn table_in(
    alloc: Global,
    form: Form,
    table: &[Item],
    template: &[Item],
) -> Result<Result<Table, Code>, Memory>
    ensures { IfOk result (λ read. read ≡ table_in form table.now template.now) }
{
    let Some(axes) = axes_of(alloc, form.purpose, template)? else {
        return Ok(Err(Code::LibertyBadTable));
    };
    let indexes = both(
        index_lists(alloc, b"index_1", table, template),
        index_lists(alloc, b"index_2", table, template),
    );
    let Pair {
        one: indexes,
        other: found,
    } = both(indexes, lists(alloc, table, b"values"))?;
    let slices = (indexes.one.as_slice(), indexes.other.as_slice());
    let read = table_at(alloc, form, axes, slices, found.as_slice());
    drop(indexes);
    drop(found);
    read
}

/// A table of one value, or the code of its fault.
pub(crate) fn scalar_in(
    alloc: Global,
    form: Form,
    table: &[Item],
) -> Result<Result<Table, Code>, Memory>
    ensures { IfOk result (λ read. read ≡ scalar_in form table.now) }
{
    let found = lists(alloc, table, b"values")?;
    let numbers = read_values(alloc, form.known.time, 1, found.as_slice());
    drop(found);
    let axes = both(lone(alloc), lone(alloc));
    let Pair {
        one: axes,
        other: numbers,
    } = both(axes, numbers)?;
    let Pair { one: xs, other: ys } = axes;
    let Numbers { good, values: vals } = numbers;
    Ok(table_or(good, true, Table { xs, ys, vals }))
}
