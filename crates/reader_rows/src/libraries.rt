//! Libraries: a line for each cell with its pins and their capacitances, its arcs and its tests.

use crate::texts::Text;
use liberty_cells::{read_library, units};
use std::alloc::Global;
use timing_defs::{
    ArcKind, Cell, CellArc, CellPin, CellTest, Items, Kind, Library, Name, Table, Tran,
};

fn show_numbers(mark: &[u8], numbers: &Items<i64>, out: &mut Text) {
    let mut next = mark;
    for number in numbers.as_slice() {
        out.number(next, *number);
        next = b",";
    }
}

fn show_table(table: &Table, out: &mut Text) {
    show_numbers(b" ", &table.xs, out);
    show_numbers(b"/", &table.ys, out);
    show_numbers(b"/", &table.vals, out);
}

fn show_end(mark: &[u8], name: &Name, tran: Tran, out: &mut Text) {
    out.name(mark, name);
    out.tran(tran);
}

fn show_arc(arc: &CellArc, out: &mut Text) {
    show_end(b"; ", &arc.from, arc.from_tran, out);
    show_end(b" ", &arc.to, arc.to_tran, out);
    match arc.kind {
        ArcKind::Comb => out.add(b" comb"),
        ArcKind::Edge => out.add(b" edge"),
    }
    show_table(&arc.delay, out);
    show_table(&arc.slew, out);
}

fn show_test(test: &CellTest, out: &mut Text) {
    out.kind(b"; ", test.kind);
    show_end(b" ", &test.pin, test.tran, out);
    show_end(b" ", &test.clock, test.active, out);
    show_table(&test.need, out);
}

fn show_pin(pin: &CellPin, out: &mut Text) {
    out.dir(pin.dir);
    out.name(b"", &pin.name);
    out.number(b" ", pin.cap.0);
}

fn show_cell(cell: &Cell, out: &mut Text) {
    out.name(b"", &cell.name);
    for pin in cell.pins.as_slice() {
        show_pin(pin, out);
    }
    for arc in cell.arcs.as_slice() {
        show_arc(arc, out);
    }
    for test in cell.tests.as_slice() {
        show_test(test, out);
    }
    out.end();
}

fn show_sizes(cell: &Cell, out: &mut Text) {
    out.name(b"", &cell.name);
    out.count(b" pins ", cell.pins.len() as u64);
    out.count(b" arcs ", cell.arcs.len() as u64);
    out.count(b" tests ", cell.tests.len() as u64);
    out.end();
}

fn show_cells(library: &Library, out: &mut Text) {
    for cell in library.cells.as_slice() {
        show_cell(cell, out);
    }
}

fn show_all_sizes(library: &Library, out: &mut Text) {
    for cell in library.cells.as_slice() {
        show_sizes(cell, out);
    }
}

/// Writes the cells.
pub(crate) fn answer_library(alloc: Global, document: &[u8], out: &mut Text) {
    match read_library(alloc, document) {
        Ok(library) => {
            show_cells(&library, out);
            drop(library);
        }
        Err(fault) => out.fault(fault),
    }
}

/// Writes how many pins, arcs and tests each cell has.
pub(crate) fn answer_sizes(alloc: Global, document: &[u8], out: &mut Text) {
    match read_library(alloc, document) {
        Ok(library) => {
            show_all_sizes(&library, out);
            drop(library);
        }
        Err(fault) => out.fault(fault),
    }
}

/// Writes the powers of ten of the units, in fs and aF.
pub(crate) fn answer_units(alloc: Global, document: &[u8], out: &mut Text) {
    match units(alloc, document) {
        Ok(units) => {
            out.number(b"time ", i64::from(units.time.ten));
            out.number(b" capacitance ", i64::from(units.cap.ten));
            out.end();
        }
        Err(fault) => out.fault(fault),
    }
}
