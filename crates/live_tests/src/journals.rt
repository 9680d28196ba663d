//! The journal of a live run: it goes on behind what was saved, and a put into it fails.

use crate::given::{EMPTY, Saved, Wanted, assert_told, served, sound};
use sta_outside::NoGate;

/// Two resizes with a question between them.
const RESIZES: &str =
    "repower_gate u2 INVX2\nreport_slew u2:Z late rise\nrepower_gate u1 INVX2\ntake";

/// The block of the first resize.
const FIRST: &str =
    "journal 2 0 1\nderates 1000000 1000000 1000000 1000000\nentry 1 session 1 edits 1\nrepower_gate u2 INVX2\n";

/// The first two lines as they are answered.
const BEGUN: &str =
    "< repower_gate u2 INVX2\nkept 1\n1 1 accepted\n< report_slew u2:Z late rise\nkept 1\n2 1 slew 3.000\n< repower_gate u1 INVX2\n";

#[test]
fn each_entry_stands_behind_the_saved_ones(rt: HostRuntime) {
    let saved = Saved {
        text: FIRST,
        ..EMPTY
    };
    let told = served(
        &rt,
        rt.alloc(),
        &[sound("report_slew u2:Z late rise\nrepower_gate u1 INVX2")],
        Some(saved),
        &NoGate,
    );
    let wanted = Wanted {
        status: 0,
        stories: "< report_slew u2:Z late rise\nkept 1\n1 1 slew 3.000\n< repower_gate u1 INVX2\nkept 2\n2 2 accepted\n",
        journal: "journal 2 1 1\nderates 1000000 1000000 1000000 1000000\nentry 2 session 1 edits 1\nrepower_gate u1 INVX2\n",
        written: "final 2 setup none 0.000 hold none 0.000\n",
    };
    assert_told(&rt, &told, &wanted);
}

#[test]
fn no_row_is_said_behind_a_put_that_fails(rt: HostRuntime) {
    let saved = Saved { fails: 2, ..EMPTY };
    let told = served(&rt, rt.alloc(), &[sound(RESIZES)], Some(saved), &NoGate);
    let wanted = Wanted {
        status: 5,
        stories: BEGUN,
        journal: FIRST,
        written: "final 2 setup none 0.000 hold none 0.000\n",
    };
    assert_told(&rt, &told, &wanted);
}

#[test]
fn a_saved_journal_that_may_be_torn_is_refused(rt: HostRuntime) {
    let saved = Saved {
        text: "journal 1 0",
        ..EMPTY
    };
    let told = served(&rt, rt.alloc(), &[sound("take")], Some(saved), &NoGate);
    let wanted = Wanted {
        status: 3,
        stories: "",
        journal: "",
        written: "fault journal J1 11\n",
    };
    assert_told(&rt, &told, &wanted);
}

#[test]
fn no_session_is_held_where_the_named_journal_cannot_be_written(rt: HostRuntime) {
    let saved = Saved {
        is_there: false,
        ..EMPTY
    };
    let told = served(&rt, rt.alloc(), &[sound("take")], Some(saved), &NoGate);
    let wanted = Wanted {
        status: 5,
        stories: "",
        journal: "",
        written: "",
    };
    assert_told(&rt, &told, &wanted);
}
