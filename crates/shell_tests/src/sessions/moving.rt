//! A session publishes while another has prepared its version over the same base: that one is prepared
//! again over the newer version, and accepted or refused there.

use super::meetings::{Meeting, prepared, published};
use super::{Scripts, TWO, compare};
use std::alloc::Global;
use std::process::Abort;
use std::sync::Wait;
use std::thread::Threads;

/// The meeting where session 2 publishes while session 1 has prepared a version.
pub(super) fn second_first() -> Meeting {
    Meeting::new(prepared(1), prepared(2), published(2))
}

/// Compares a run of that meeting with its status and its text, and the numbers that session 1 prepared.
fn compare_moved<H: Abort + Threads + Wait + Sync>(
    rt: &H,
    alloc: Global,
    scripts: &[(&str, &str)],
    status: u8,
    text: &str,
    numbers: u64,
) {
    let gate = second_first();
    compare(rt, alloc, TWO, scripts, &gate, status, text);
    gate.check(rt);
    assert_eq!(rt; gate.numbers_prepared(), numbers);
}

const SCRIPTS: Scripts = &[
    ("s1", "repower_gate g2 BUF_X4\n"),
    ("s2", "repower_gate g1 BUF_T\n"),
];

const ANSWERS: &str = "journal 1 2
entry 1 session 2 edits 1
repower_gate g1 BUF_T
entry 2 session 1 edits 1
repower_gate g2 BUF_X4
session 1 rows 1
1 2 accepted
session 2 rows 1
1 1 accepted
final 2 setup 895.000 0.000 hold 28.000 0.000
";

#[test]
fn gates_moved(rt: HostRuntime) {
    compare_moved(&rt, rt.alloc(), SCRIPTS, 0, ANSWERS, 0x12);
}

const SAME_NET: Scripts = &[("s1", "insert_net n9\ntake\n"), ("s2", "insert_net n9\n")];

const SECOND_REFUSED: &str = "journal 1 1
entry 1 session 2 edits 1
insert_net n9
session 1 rows 2
1 1 refused E5 n9
2 1 taken
session 2 rows 1
1 1 accepted
final 1 setup 895.000 0.000 hold 28.000 0.000
";

#[test]
fn an_eco_is_refused_over_the_version_that_came_first(rt: HostRuntime) {
    compare_moved(&rt, rt.alloc(), SAME_NET, 1, SECOND_REFUSED, 0x1);
}
