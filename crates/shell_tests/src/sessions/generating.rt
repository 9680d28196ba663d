//! Generated runs: four sessions over a generated design, held and left free, and one session that makes all their edits.

use super::moving::second_first;
use super::{compare, run};
use crate::running;
use crate::running::Texts;
use design_maker::{Documents, make};
use shell_session::Status;
use sta_outside::NoGate;
use std::alloc::Global;
use std::process::Abort;
use std::sync::Wait;
use std::thread::Threads;

const FOUR: &str = "generated 4 4 accepted 4 setup 953.000 0.000 hold 7.000 0.000\n";

#[test]
fn gates_generate(rt: HostRuntime) {
    let gate = second_first();
    compare(&rt, rt.alloc(), "generate 1 4 4", &[], &gate, 0, FOUR);
    gate.check(&rt);
    assert!(rt; gate.numbers_prepared() >= 16, "session 1 prepared once");
    assert_eq!(rt;
        gate.counts_published(),
        0x1111,
        "a version of each session"
    );
}

/// The generated documents of 400 gates with 40 edits, with the scripts of all sessions in one.
fn texts_of(rt: &impl Abort, alloc: Global) -> Texts {
    let Documents {
        lib,
        netlist,
        sdc,
        scripts,
    } = make(alloc, 7, 400, 40).expect(rt, "memory");
    let mut script = Vec::new(alloc);
    for text in scripts.as_slice() {
        script
            .extend_from_slice(text.as_slice())
            .expect(rt, "memory");
    }
    let mut texts = Texts::new(alloc);
    texts.add_text(rt, alloc, "lib", lib.into_vec());
    texts.add_text(rt, alloc, "netlist", netlist.into_vec());
    texts.add_text(rt, alloc, "sdc", sdc.into_vec());
    texts.add_text(rt, alloc, "script", script);
    texts
}

/// The status of one session that makes all edits, and what it writes.
fn one_session<H: Abort + Threads + Wait + Sync>(rt: &H, alloc: Global) -> (Status, String) {
    let line = "run lib lib netlist sdc none 4 script";
    running::run(rt, alloc, line, texts_of(rt, alloc), &NoGate)
}

/// The totals of a text, as it ends with them: what follows these words, the last time.
fn totals<'a>(text: &'a str, words: &str) -> &'a str {
    match text.rsplit_once(words) {
        Some((_, totals)) => totals,
        None => "no totals",
    }
}

#[test]
fn four_sessions_twice_and_one_session_give_the_same_totals(rt: HostRuntime) {
    let line = "generate 7 400 40";
    let (status, first) = run(&rt, rt.alloc(), line, &[], &NoGate);
    assert_eq!(rt; status, 0);
    compare(&rt, rt.alloc(), line, &[], &NoGate, 0, first.as_str());
    let (status, alone) = one_session(&rt, rt.alloc());
    assert_eq!(rt; status, 0);
    assert_eq!(rt;
        totals(alone.as_str(), "final 40 "),
        totals(first.as_str(), "generated 400 40 accepted 40 ")
    );
}
