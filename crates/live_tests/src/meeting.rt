//! A row that speaks of another session's ECO, which is published and which that session has not yet kept.

use crate::given::{EMPTY, Wanted, assert_told, served, sound};
use sta_outside::{Gate, Point};
use std::sync::atomic::{AtomicBool, Ordering};

/// How many turns a thread is held.
const TURNS: u64 = 500_000_000;

/// Holds session 2 at its begin until session 1 has published a version, and session 1 there until session 2 has answered its
/// second command.
#[derive(Drop)]
struct Between {
    published: AtomicBool,
    answered: AtomicBool,
    given_up: AtomicBool,
}

impl Between {
    fn new() -> Between {
        Between {
            published: AtomicBool::new(false),
            answered: AtomicBool::new(false),
            given_up: AtomicBool::new(false),
        }
    }

    /// Holds the caller until it is freed, or for all its turns.
    fn wait(&self, until: &AtomicBool) {
        for _ in 0..TURNS {
            if until.load(Ordering::SeqCst) {
                return;
            }
        }
        self.given_up.store(true, Ordering::SeqCst);
    }
}

impl Gate for Between {
    fn at(&self, point: Point) {
        match point {
            Point::Taken { session: 2, .. } => self.wait(&self.published),
            Point::Published { session: 1, .. } => {
                self.published.store(true, Ordering::SeqCst);
                self.wait(&self.answered);
            }
            Point::Answered {
                session: 2,
                command: 2,
            } => self.answered.store(true, Ordering::SeqCst),
            _ => {}
        }
    }
}

#[test]
fn a_row_is_not_said_before_the_eco_of_another_session_stands(rt: HostRuntime) {
    let alloc = rt.alloc();
    let gate = Between::new();
    let sessions = [
        sound("repower_gate u2 INVX2"),
        sound("take\nreport_slew u2:Z late rise"),
    ];
    let told = served(&rt, alloc, &sessions, Some(EMPTY), &gate);
    let wanted = Wanted {
        status: 0,
        stories: "< repower_gate u2 INVX2\nkept 1\n1 1 accepted\n< take\nkept 1\n1 1 taken\n< report_slew u2:Z late rise\nkept 1\n2 1 slew 3.000\n",
        journal: "journal 2 0 1\nderates 1000000 1000000 1000000 1000000\nentry 1 session 1 edits 1\nrepower_gate u2 INVX2\n",
        written: "final 1 setup none 0.000 hold none 0.000\n",
    };
    assert_told(&rt, &told, &wanted);
    assert!(rt;
        !gate.given_up.load(Ordering::SeqCst),
        "a session was held in vain"
    );
}
