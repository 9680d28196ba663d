//! A session's looks are made in its command, and see the newest version.

use super::meetings::{Meeting, looked, prepared, published};
use super::{Scripts, TWO, compare};
use sta_outside::Point;

const SCRIPTS: Scripts = &[
    ("s1", "take\nawait 1 1\ntake\n"),
    ("s2", "repower_gate g2 BUF_X4\n"),
];

const ANSWERS: &str = "journal 1 1
entry 1 session 2 edits 1
repower_gate g2 BUF_X4
session 1 rows 3
1 0 taken
2 1 reached
3 1 taken
session 2 rows 1
1 1 accepted
final 1 setup 895.000 0.000 hold 28.000 0.000
";

/// Where session 1 has answered its first command.
const ANSWERED: Point = Point::Answered {
    session: 1,
    command: 1,
};

#[test]
fn gates_looks(rt: HostRuntime) {
    let gate = Meeting::new(ANSWERED, prepared(2), published(2));
    compare(&rt, rt.alloc(), TWO, SCRIPTS, &gate, 0, ANSWERS);
    gate.check(&rt);
}

const WAITING: Scripts = &[("s1", "await 1 1000\n"), ("s2", "repower_gate g2 BUF_X4\n")];

const WAITED: &str = "journal 1 1
entry 1 session 2 edits 1
repower_gate g2 BUF_X4
session 1 rows 1
1 1 reached
session 2 rows 1
1 1 accepted
final 1 setup 895.000 0.000 hold 28.000 0.000
";

#[test]
fn an_await_that_is_held_at_a_look_reaches_what_was_published(rt: HostRuntime) {
    let gate = Meeting::new(looked(1), prepared(2), published(2));
    compare(&rt, rt.alloc(), TWO, WAITING, &gate, 0, WAITED);
    gate.check(&rt);
}
