//! Lists, codes and copies.

use crate::given::{name, one};
use sta_units::{Again, Fs};
use std::alloc::Global;
use std::process::Abort;
use timing_defs::{Code, Conn, EdgeTime, EdgeTimes, Inst, Items, NodeRow, Tran, same_name};

fn inst(rt: &impl Abort, alloc: Global) -> Inst {
    let conn = Conn {
        pin: name(rt, alloc, "A"),
        net: Some(name(rt, alloc, "in")),
    };
    Inst {
        name: name(rt, alloc, "u1"),
        cell: name(rt, alloc, "INV"),
        conns: one(rt, alloc, conn),
    }
}

fn times(rt: &impl Abort, alloc: Global, count: u32) -> EdgeTimes {
    let mut times = EdgeTimes::new(alloc);
    for clock in 0..count {
        times
            .push(EdgeTime {
                clock,
                tran: Tran::Fall,
                time: Fs(-2),
            })
            .expect(rt, "memory");
    }
    times
}

#[test]
fn lists_keep_their_order(rt: HostRuntime) {
    let alloc = rt.alloc();
    let mut items = Items::with_room(alloc, 1).expect(&rt, "memory");
    for number in 0..5u32 {
        items.push(number).expect(&rt, "memory");
    }
    assert_eq!(rt; items.as_slice(), [0, 1, 2, 3, 4].as_slice());
    let copy = items.again(alloc).expect(&rt, "memory");
    assert_eq!(rt; copy.as_slice(), items.as_slice());
    assert_eq!(rt; items.get(4).copied(), Some(4));
    assert_eq!(rt; items.into_vec().len(), 5);
}

#[test]
fn times_keep_their_order(rt: HostRuntime) {
    let alloc = rt.alloc();
    let times = times(&rt, alloc, 5);
    assert_eq!(rt; times.len(), 5);
    let copy = times.again(alloc).expect(&rt, "memory");
    assert_eq!(rt; copy.as_slice(), times.as_slice());
}

#[test]
fn codes_are_printed(rt: HostRuntime) {
    for &(code, text) in &[
        (Code::LibertyTooMany, "L10"),
        (Code::VerilogNoModule, "V5"),
        (Code::SdcLeftOut, "S3"),
        (Code::SpefDoubleNet, "P5"),
        (Code::ScriptTooLong, "C2"),
        (Code::JournalVersion, "J3"),
        (Code::JournalOtherDerates, "J5"),
    ] {
        assert_eq!(rt; code.label(), text);
    }
}

fn same_conn(one: &Conn, other: &Conn) -> bool {
    let same_net = match (&one.net, &other.net) {
        (Some(net), Some(other)) => same_name(net, other),
        (None, None) => true,
        _ => false,
    };
    same_name(&one.pin, &other.pin) && same_net
}

fn same_conns(some: &Items<Conn>, others: &Items<Conn>) -> bool {
    for (at, conn) in some.as_slice().iter().enumerate() {
        if !others.get(at).is_some_and(|other| same_conn(conn, other)) {
            return false;
        }
    }
    some.len() == others.len()
}

fn same_inst(one: &Inst, other: &Inst) -> bool {
    same_name(&one.name, &other.name)
        && same_name(&one.cell, &other.cell)
        && same_conns(&one.conns, &other.conns)
}

fn same_row(one: &NodeRow, other: &NodeRow) -> bool {
    (one.early_slew, one.late_slew) == (other.early_slew, other.late_slew)
        && one.early.as_slice() == other.early.as_slice()
        && one.late.as_slice() == other.late.as_slice()
}

#[test]
fn copies_equal(rt: HostRuntime) {
    let alloc = rt.alloc();
    let inst = inst(&rt, alloc);
    let copy = inst.again(alloc).expect(&rt, "memory");
    assert!(rt; same_inst(&copy, &inst));
    let row = NodeRow {
        early_slew: None,
        late_slew: Some(Fs(20_000)),
        early: times(&rt, alloc, 1),
        late: times(&rt, alloc, 6),
    };
    let copy = row.again(alloc).expect(&rt, "memory");
    assert!(rt; same_row(&copy, &row));
}
