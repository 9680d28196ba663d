//! A session asks while another has prepared a version and has not published it.

use super::meetings::{Meeting, prepared, taken};
use super::{Scripts, TWO, compare};
use sta_outside::Point;

pub(super) const SCRIPTS: Scripts = &[
    ("s1", "repower_gate g2 BUF_X4\nreport_endpoint r2:D setup\n"),
    ("s2", "take\nreport_endpoint r2:D setup\n"),
];

pub(super) const ANSWERS: &str = "journal 1 1
entry 1 session 1 edits 1
repower_gate g2 BUF_X4
session 1 rows 2
1 1 accepted
2 1 endpoint 936.500
session 2 rows 2
1 0 taken
2 0 endpoint 939.000
final 1 setup 895.000 0.000 hold 28.000 0.000
";

/// Where session 2 has answered its question.
pub(super) const ASKED: Point = Point::Answered {
    session: 2,
    command: 2,
};

#[test]
fn gates_prepared(rt: HostRuntime) {
    let gate = Meeting::new(prepared(1), taken(2), ASKED);
    compare(&rt, rt.alloc(), TWO, SCRIPTS, &gate, 0, ANSWERS);
    gate.check(&rt);
}
