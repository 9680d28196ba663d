//! Netlists: a line with the module's name, ports, nets and instances.

use crate::texts::Text;
use std::alloc::Global;
use timing_defs::{Conn, Inst, Module, Port};
use verilog_netlist::read_module;

fn show_port(port: &Port, out: &mut Text) {
    out.dir(port.dir);
    out.name(b"", &port.name);
}

fn show_conn(conn: &Conn, out: &mut Text) {
    out.name(b" ", &conn.pin);
    match &conn.net {
        Some(net) => out.name(b"=", net),
        None => out.add(b"=?"),
    }
}

fn show_inst(inst: &Inst, out: &mut Text) {
    out.name(b"; ", &inst.cell);
    out.name(b" ", &inst.name);
    for conn in inst.conns.as_slice() {
        show_conn(conn, out);
    }
}

fn show_module(module: &Module, out: &mut Text) {
    out.name(b"", &module.name);
    for port in module.ports.as_slice() {
        show_port(port, out);
    }
    out.add(b";");
    out.names(module.nets.as_slice());
    for inst in module.insts.as_slice() {
        show_inst(inst, out);
    }
    out.end();
}

pub(crate) fn answer_netlist(alloc: Global, document: &[u8], out: &mut Text) {
    match read_module(alloc, document) {
        Ok(module) => {
            show_module(&module, out);
            drop(module);
        }
        Err(fault) => out.fault(fault),
    }
}
