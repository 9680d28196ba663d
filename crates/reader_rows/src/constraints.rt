//! Constraints: a line with the clocks, the rows of ports, the exceptions and the derates.

use crate::texts::Text;
use sdc_reader::read_constraints;
use sta_units::Unit;
use std::alloc::Global;
use timing_defs::{
    Clock, Constraints, Derates, Effect, Exception, Items, Name, Object, PortDelay, PortLoad,
    PortSlew, Units,
};

fn show_clock(clock: &Clock, out: &mut Text) {
    out.name(b"clock ", &clock.name);
    match &clock.port {
        Some(port) => out.name(b" ", port),
        None => out.add(b" -"),
    }
    out.number(b" ", clock.period.0);
    out.number(b" ", clock.rise.0);
    out.number(b" ", clock.fall.0);
    out.number(b" ", clock.unc_setup.0);
    out.number(b" ", clock.unc_hold.0);
    out.add(b"; ");
}

fn show_delay(mark: &[u8], delay: &PortDelay, out: &mut Text) {
    out.name(mark, &delay.port);
    out.split(delay.split);
    out.tran(delay.tran);
    out.number(b" ", i64::from(delay.clock));
    out.number(b" ", delay.delay.0);
    out.add(b"; ");
}

fn show_slew(slew: &PortSlew, out: &mut Text) {
    out.name(b"slew ", &slew.port);
    out.split(slew.split);
    out.tran(slew.tran);
    out.number(b" ", slew.slew.0);
    out.add(b"; ");
}

fn show_load(load: &PortLoad, out: &mut Text) {
    out.name(b"load ", &load.port);
    out.split(load.split);
    out.number(b" ", load.load.0);
    out.add(b"; ");
}

/// The sort of an object behind a blank, and its name.
fn object_words(object: &Object) -> (&'static [u8], &Name) {
    match object {
        Object::Clock(name) => (b" clock ", name),
        Object::Port(name) => (b" port ", name),
        Object::Pin(name) => (b" pin ", name),
        Object::Cell(name) => (b" cell ", name),
        Object::Any(name) => (b" any ", name),
    }
}

fn show_objects(mark: &[u8], objects: &Option<Items<Object>>, out: &mut Text) {
    let Some(objects) = objects else {
        return;
    };
    out.add(mark);
    for object in objects.as_slice() {
        let (sort, name) = object_words(object);
        out.name(sort, name);
    }
}

fn show_effect(effect: Effect, out: &mut Text) {
    match effect {
        Effect::FalseSetup => out.add(b"false setup"),
        Effect::FalseHold => out.add(b"false hold"),
        Effect::CyclesSetup(cycles) => out.number(b"cycles setup ", i64::from(cycles)),
        Effect::CyclesHold(cycles) => out.number(b"cycles hold ", i64::from(cycles)),
    }
}

fn show_exception(exception: &Exception, out: &mut Text) {
    show_effect(exception.effect, out);
    show_objects(b" from", &exception.from, out);
    show_objects(b" to", &exception.to, out);
    out.add(b"; ");
}

fn show_derates(derates: Derates, out: &mut Text) {
    out.number(b"derates ", i64::from(derates.early_cell));
    out.number(b" ", i64::from(derates.late_cell));
    out.number(b" ", i64::from(derates.early_net));
    out.number(b" ", i64::from(derates.late_net));
    out.end();
}

fn show_delays(mark: &[u8], delays: &Items<PortDelay>, out: &mut Text) {
    for delay in delays.as_slice() {
        show_delay(mark, delay, out);
    }
}

fn show_ports(constraints: &Constraints, out: &mut Text) {
    show_delays(b"input ", &constraints.inputs, out);
    show_delays(b"output ", &constraints.outputs, out);
    for slew in constraints.slews.as_slice() {
        show_slew(slew, out);
    }
    for load in constraints.loads.as_slice() {
        show_load(load, out);
    }
}

/// Writes all constraints, each list in its order.
fn show_constraints(constraints: &Constraints, out: &mut Text) {
    for clock in constraints.clocks.as_slice() {
        show_clock(clock, out);
    }
    show_ports(constraints, out);
    for exception in constraints.exceptions.as_slice() {
        show_exception(exception, out);
    }
    show_derates(constraints.derates, out);
}

/// Ten to `time` fs is the unit of time, and the unit of capacitance is fF.
pub(crate) fn answer_constraints(alloc: Global, time: i32, document: &[u8], out: &mut Text) {
    let units = Units {
        time: Unit { ten: time },
        cap: Unit { ten: 3 },
    };
    match read_constraints(alloc, document, &units) {
        Ok(constraints) => {
            show_constraints(&constraints, out);
            drop(constraints);
        }
        Err(fault) => out.fault(fault),
    }
}
