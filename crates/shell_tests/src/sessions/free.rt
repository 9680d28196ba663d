//! Sessions that nobody holds: what they write is one of the legal texts.

use super::{Scripts, TWO, run};
use sta_outside::NoGate;
use std::alloc::Global;
use std::process::Abort;

/// The run of two registers behind one clock buffer by three sessions.
const THREE: &str = "run early.lib late.lib b.v b.sdc none 2 s1 s2 s3";

const WAITING: Scripts = &[("s1", "await 1 1000\n"), ("s2", "repower_gate g2 BUF_X4\n")];

const REACHED: &str = "journal 1 1
entry 1 session 2 edits 1
repower_gate g2 BUF_X4
session 1 rows 1
1 1 reached
session 2 rows 1
1 1 accepted
final 1 setup 895.000 0.000 hold 28.000 0.000
";

const NOT_YET: &str = "journal 1 1
entry 1 session 2 edits 1
repower_gate g2 BUF_X4
session 1 rows 1
1 0 not_yet 1000
session 2 rows 1
1 1 accepted
final 1 setup 895.000 0.000 hold 28.000 0.000
";

#[test]
fn an_await_beside_an_eco_reaches_it_or_not(rt: HostRuntime) {
    let (status, text) = run(&rt, rt.alloc(), TWO, WAITING, &NoGate);
    let reaches = status == 0 && text.as_str() == REACHED;
    let does_not = status == 1 && text.as_str() == NOT_YET;
    assert!(rt; reaches || does_not, "{status} and\n{text}");
}

const SAME_NET: Scripts = &[("s1", "insert_net n9\n"), ("s2", "insert_net n9\n")];

const FIRST_MADE: &str = "journal 1 1
entry 1 session 1 edits 1
insert_net n9
session 1 rows 1
1 1 accepted
session 2 rows 1
1 1 refused E5 n9
final 1 setup 895.000 0.000 hold 28.000 0.000
";

const SECOND_MADE: &str = "journal 1 1
entry 1 session 2 edits 1
insert_net n9
session 1 rows 1
1 1 refused E5 n9
session 2 rows 1
1 1 accepted
final 1 setup 895.000 0.000 hold 28.000 0.000
";

#[test]
fn of_two_nets_of_one_name_one_is_refused(rt: HostRuntime) {
    let (status, text) = run(&rt, rt.alloc(), TWO, SAME_NET, &NoGate);
    let is_legal = text.as_str() == FIRST_MADE || text.as_str() == SECOND_MADE;
    assert!(rt; status == 1 && is_legal, "{status} and\n{text}");
}

const RESIZES: Scripts = &[
    ("s1", "repower_gate g2 BUF_X4\n"),
    ("s2", "repower_gate g2 BUF_T\n"),
    (
        "s3",
        "report_endpoint r2:D setup\ntake\nreport_endpoint r2:D setup\n",
    ),
];

/// The journal and the rows of the sessions that resize, and the slack at the number 0, 1 and 2.
type Resized = (&'static str, [&'static str; 3]);

const FIRST_THEN_SECOND: Resized = (
    "journal 1 2
entry 1 session 1 edits 1
repower_gate g2 BUF_X4
entry 2 session 2 edits 1
repower_gate g2 BUF_T
session 1 rows 1
1 1 accepted
session 2 rows 1
1 2 accepted
",
    ["939.000", "936.500", "939.000"],
);

const SECOND_THEN_FIRST: Resized = (
    "journal 1 2
entry 1 session 2 edits 1
repower_gate g2 BUF_T
entry 2 session 1 edits 1
repower_gate g2 BUF_X4
session 1 rows 1
1 2 accepted
session 2 rows 1
1 1 accepted
",
    ["939.000", "939.000", "936.500"],
);

/// The numbers of session 3's first row and of the others: they never fall.
const NUMBERS: [(usize, usize); 6] = [(0, 0), (0, 1), (0, 2), (1, 1), (1, 2), (2, 2)];

/// What a run writes where session 3 asks at these numbers.
fn resized(rt: &impl Abort, alloc: Global, resized: &Resized, first: usize, then: usize) -> String {
    let (head, slacks) = resized;
    let one = slacks.get(first).expect(rt, "a number");
    let two = slacks.get(then).expect(rt, "a number");
    format!(in alloc;
        "{head}session 3 rows 3\n1 {first} endpoint {one}\n2 {then} taken\n3 {then} endpoint {two}\nfinal 2 setup 895.000 0.000 hold 28.000 0.000\n"
    ).expect(rt, "memory")
}

/// Whether a text is one of those with this journal.
fn is_resized(rt: &impl Abort, alloc: Global, text: &str, journal: &Resized) -> bool {
    for &(first, then) in &NUMBERS {
        if resized(rt, alloc, journal, first, then).as_str() == text {
            return true;
        }
    }
    false
}

#[test]
fn three_sessions_write_a_legal_text(rt: HostRuntime) {
    let alloc = rt.alloc();
    let (status, text) = run(&rt, alloc, THREE, RESIZES, &NoGate);
    let is_legal = is_resized(&rt, alloc, text.as_str(), &FIRST_THEN_SECOND)
        || is_resized(&rt, alloc, text.as_str(), &SECOND_THEN_FIRST);
    assert!(rt; status == 0 && is_legal, "{status} and\n{text}");
}
