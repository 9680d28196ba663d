//! Values of a cell library's tables, between, on and beyond their entries.
//!
//!     tables grid 15000 2000    the value of a table below at a slew and a load, or `out of range`

ghost use Rattle.std.specs.Prelude.{◌≡◌, true, IfOk};
ghost use Rattle.timing_defs.specs.Lookup.{is_well_formed};

use crate::answers::Answer;
use crate::words::{Stop, number, parted};
use nldm_lookup::{OutOfRange, look_up};
use sta_units::{LIM, Memory};
use std::alloc::Global;
use timing_defs::{Items, Table};

/// The slews, the loads and the values of a table, row by row.
fn table(alloc: Global, xs: &[i64], ys: &[i64], vals: &[i64]) -> Result<Table, Memory>
    ensures { IfOk result (λ table. table ≡ record { xs = xs.now; ys = ys.now; vals = vals.now }) }
{
    let xs = Items::from_slice(alloc, xs);
    let ys = Items::from_slice(alloc, ys);
    let vals = Items::from_slice(alloc, vals);
    match (xs, ys, vals) {
        (Ok(xs), Ok(ys), Ok(vals)) => Ok(Table { xs, ys, vals }),
        _ => Err(Memory),
    }
}

/// Two slews and two loads.
fn grid(alloc: Global) -> Result<Table, Memory>
    ensures { IfOk result (λ table. is_well_formed table ≡ true) }
{
    let slews = [10_000, 20_000];
    let loads = [1_000, 3_000];
    let values = [5_000, 9_000, 7_000, 12_000];
    table(alloc, &slews, &loads, &values)
}

/// One slew and two loads.
fn line(alloc: Global) -> Result<Table, Memory>
    ensures { IfOk result (λ table. is_well_formed table ≡ true) }
{
    table(alloc, &[10_000], &[1_000, 3_000], &[5_000, 9_000])
}

/// One entry, which is the greatest number.
fn entry(alloc: Global) -> Result<Table, Memory>
    ensures { IfOk result (λ table. is_well_formed table ≡ true) }
{
    table(alloc, &[10_000], &[1_000], &[LIM])
}

/// The table of a name.
fn named_table(alloc: Global, name: &str) -> Result<Table, Stop>
    ensures { IfOk result (λ table. is_well_formed table ≡ true) }
{
    let found = match name {
        "grid" => grid(alloc),
        "line" => line(alloc),
        "entry" => entry(alloc),
        _ => return Err(Stop::Row),
    };
    match found {
        Ok(table) => Ok(table),
        Err(Memory) => Err(Stop::Memory),
    }
}

/// Adds the value of a table at a slew and a load.
fn add_value(answer: &mut Answer, table: &Table, slew: i64, load: i64) -> Result<(), Stop>
    requires { is_well_formed table.now ≡ true }
{
    if slew < -LIM || slew > LIM || load < -LIM || load > LIM {
        return Err(Stop::Row);
    }
    match look_up(table, slew, load) {
        Ok(value) => answer.value(value),
        Err(OutOfRange) => answer.word("out of range"),
    }
}

pub(crate) fn answer(alloc: Global, answer: &mut Answer, row: &str) -> Result<(), Stop> {
    let (name, rest) = parted(row, ' ')?;
    let (slew, load) = parted(rest, ' ')?;
    let slew = number(slew)?;
    let load = number(load)?;
    match named_table(alloc, name) {
        Ok(table) => add_value(answer, &table, slew, load),
        Err(stop) => Err(stop),
    }
}
