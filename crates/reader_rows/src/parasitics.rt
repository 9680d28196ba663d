//! Parasitics: for each net its name, its lump, its capacitances and its resistances.

use crate::texts::Text;
use spef_reader::read_parasitics;
use std::alloc::Global;
use timing_defs::{NetRc, Parasitics, RcCap, RcNode, RcRes};

fn show_node(node: &RcNode, out: &mut Text) {
    match node {
        RcNode::Pin(name) => out.name(b" ", name),
        RcNode::Inner(number) => out.number(b" #", i64::from(*number)),
    }
}

fn show_cap(cap: &RcCap, out: &mut Text) {
    out.add(b" c");
    show_node(&cap.node, out);
    out.number(b" ", cap.cap.0);
}

fn show_res(res: &RcRes, out: &mut Text) {
    out.add(b" r");
    show_node(&res.a, out);
    show_node(&res.b, out);
    out.number(b" ", res.res.0);
}

pub(crate) fn show_net(net: &NetRc, out: &mut Text) {
    out.name(b"", &net.net);
    out.number(b" ", net.lump.0);
    for cap in net.caps.as_slice() {
        show_cap(cap, out);
    }
    for res in net.ress.as_slice() {
        show_res(res, out);
    }
    out.add(b";");
}

fn show_nets(parasitics: &Parasitics, out: &mut Text) {
    for net in parasitics.nets.as_slice() {
        show_net(net, out);
    }
    out.end();
}

pub(crate) fn answer_parasitics(alloc: Global, document: &[u8], out: &mut Text) {
    match read_parasitics(alloc, document) {
        Ok(parasitics) => {
            show_nets(&parasitics, out);
            drop(parasitics);
        }
        Err(fault) => out.fault(fault),
    }
}
