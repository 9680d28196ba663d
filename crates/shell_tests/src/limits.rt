//! A run at the limit of commands.

use crate::documents::REGISTERS;
use crate::running::{Texts, run};
use sta_outside::NoGate;
use std::alloc::Global;
use std::process::Abort;

/// What a script of so many takings writes.
fn taken(rt: &impl Abort, alloc: Global, count: u32) -> String {
    let mut text = format!(in alloc; "journal 1 0\nsession 1 rows {count}\n").expect(rt, "memory");
    for row in 1..=count {
        let line = format!(in alloc; "{row} 0 taken\n").expect(rt, "memory");
        text.push_str(line.as_str()).expect(rt, "memory");
    }
    text.push_str("final 0 setup 895.000 0.000 hold 28.000 0.000\n")
        .expect(rt, "memory");
    text
}

/// The registers, and a script of so many takings.
fn takings(rt: &impl Abort, alloc: Global, count: usize) -> Texts {
    let script = "take\n".repeat(alloc, count).expect(rt, "memory");
    let mut texts = Texts::new(alloc);
    texts.add(rt, alloc, &REGISTERS);
    texts.add_text(rt, alloc, "s1", script.into_bytes());
    texts
}

#[test]
fn ten_thousand_commands_are_run(rt: HostRuntime) {
    let alloc = rt.alloc();
    let line = "run early.lib late.lib b.v b.sdc none 2 s1";
    let (status, text) = run(&rt, alloc, line, takings(&rt, alloc, 10_000), &NoGate);
    let wanted = taken(&rt, alloc, 10_000);
    assert!(rt; status == 0 && text.as_str() == wanted.as_str());
}
