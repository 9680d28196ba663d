//! Sessions at their doors: their rows, and a door that fails.

use crate::given::{Given, LIBRARY, NETLIST, Wanted, assert_told, served, sound};
use shell_session::serve;
use sta_outside::{MemShelf, MemSink, NoGate};
use std::alloc::Global;
use std::process::Abort;
use std::sync::Wait;
use std::thread::Threads;

/// A question, a resize and the question once more.
const LINES: &str =
    "take\nreport_slew u2:Z late rise\nrepower_gate u2 INVX2\nreport_slew u2:Z late rise\n";

/// The rows of these.
const STORY: &str =
    "< take\n1 0 taken\n< report_slew u2:Z late rise\n2 0 slew 4.000\n< repower_gate u2 INVX2\n3 1 accepted\n< report_slew u2:Z late rise\n4 1 slew 3.000\n";

/// The batch run of these lines.
const BATCH: &str = "journal 1 1
entry 1 session 1 edits 1
repower_gate u2 INVX2
session 1 rows 4
1 0 taken
2 0 slew 4.000
3 1 accepted
4 1 slew 3.000
final 1 setup none 0.000 hold none 0.000
";

/// What the batch run of a script writes.
fn batch<H: Abort + Threads + Wait + Sync>(rt: &H, alloc: Global, script: &str) -> MemSink {
    let mut words = Vec::new(alloc);
    for word in "run a.lib a.lib a.v empty none 1 s1".split_whitespace() {
        words
            .push(String::from_str(alloc, word).expect(rt, "memory"))
            .expect(rt, "memory");
    }
    let mut names = Vec::new(alloc);
    let mut texts = Vec::new(alloc);
    let documents = [
        ("a.lib", LIBRARY),
        ("a.v", NETLIST),
        ("empty", ""),
        ("s1", script),
    ];
    for (name, text) in &documents {
        names
            .push(String::from_str(alloc, name).expect(rt, "memory"))
            .expect(rt, "memory");
        texts
            .push(text.as_bytes().to_vec(alloc).expect(rt, "memory"))
            .expect(rt, "memory");
    }
    let mut shelf = MemShelf::new(names, texts, Vec::new(alloc));
    let mut sink = MemSink::new(alloc, 1_000_000, Vec::new(alloc)).expect(rt, "memory");
    serve(rt, alloc, words.as_slice(), &mut shelf, &mut sink, &NoGate);
    sink
}

#[test]
fn rows_are_those_of_the_batch_run(rt: HostRuntime) {
    let alloc = rt.alloc();
    let told = served(&rt, alloc, &[sound(LINES)], None, &NoGate);
    let wanted = Wanted {
        status: 0,
        stories: STORY,
        journal: "",
        written: "final 1 setup none 0.000 hold none 0.000\n",
    };
    assert_told(&rt, &told, &wanted);
    assert_eq!(rt; batch(&rt, alloc, LINES).bytes(), BATCH.as_bytes());
}

#[test]
fn a_session_ends_where_its_input_fails(rt: HostRuntime) {
    let deaf = Given {
        lines: LINES,
        fails: 3,
    };
    let told = served(&rt, rt.alloc(), &[deaf], None, &NoGate);
    let wanted = Wanted {
        status: 4,
        stories: "< take\n1 0 taken\n",
        journal: "",
        written: "final 0 setup none 0.000 hold none 0.000\n",
    };
    assert_told(&rt, &told, &wanted);
}

#[test]
fn a_session_whose_output_fails_leaves_its_eco(rt: HostRuntime) {
    let mute = Given {
        lines: "repower_gate u2 INVX2\ntake",
        fails: 2,
    };
    let told = served(&rt, rt.alloc(), &[mute], None, &NoGate);
    let wanted = Wanted {
        status: 5,
        stories: "< repower_gate u2 INVX2\n1 1 ac",
        journal: "",
        written: "final 1 setup none 0.000 hold none 0.000\n",
    };
    assert_told(&rt, &told, &wanted);
}
