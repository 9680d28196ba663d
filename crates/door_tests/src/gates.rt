//! When the gate of a live run pauses a session.

use live_doors::LiveGate;
use sta_outside::{Gate, Point};
use std::io;
use std::io::ErrorKind;
use std::process::Abort;
use std::sync::atomic::{AtomicU64, Ordering};
use std::time::{Clock, Duration};

/// A clock that counts the milliseconds that were slept, and shows no time.
#[derive(Drop)]
struct Counting {
    slept: AtomicU64,
}

impl Clock for Counting {
    fn monotonic(&self) -> io::Result<Duration> {
        Err(io::Error::from(ErrorKind::Unsupported))
    }

    fn since_1970(&self) -> io::Result<Duration> {
        Err(io::Error::from(ErrorKind::Unsupported))
    }

    fn sleep(&self, duration: Duration) {
        self.slept
            .fetch_add(duration.subsec_millis() as u64, Ordering::SeqCst);
    }
}

/// A session looks at a number and takes it.
fn look<G: Gate>(gate: &G, session: u32, number: u64) {
    gate.at(Point::Looked { session, number });
    gate.at(Point::Taken { session, number });
}

/// A session takes a step: it looks at a number, or has answered its command where there is none.
fn step<G: Gate>(gate: &G, session: u32, step: Option<u64>) {
    match step {
        Some(number) => look(gate, session, number),
        None => gate.at(Point::Answered {
            session,
            command: 1,
        }),
    }
}

/// Sessions take their steps.
fn step_all<G: Gate>(gate: &G, steps: &[(u32, Option<u64>)]) {
    for (session, number) in steps {
        step(gate, *session, *number);
    }
}

/// How long sessions pause in all, in milliseconds: each looks at a number, or has answered its command where there is
/// none.
fn pauses(steps: &[(u32, Option<u64>)]) -> u64 {
    let clock = Counting {
        slept: AtomicU64::new(0),
    };
    let gate = LiveGate::new(&clock);
    step_all(&gate, steps);
    drop(gate);
    let slept = clock.slept.load(Ordering::SeqCst);
    drop(clock);
    slept
}

/// Asserts how long sessions pause in all.
fn assert_pauses(rt: &impl Abort, steps: &[(u32, Option<u64>)], wanted: u64) {
    assert_eq!(rt; pauses(steps), wanted);
}

#[test]
fn a_session_that_sees_nothing_new_pauses(rt: HostRuntime) {
    assert_pauses(&rt, &[(1, Some(0))], 0);
    assert_pauses(&rt, &[(1, Some(0)), (1, Some(0))], 1);
    assert_pauses(&rt, &[(1, Some(4)), (2, Some(4)), (16, Some(4))], 0);
    assert_pauses(&rt, &[(1, Some(4)), (1, Some(5)), (1, Some(6))], 0);
    assert_pauses(
        &rt,
        &[
            (1, Some(4)),
            (16, Some(4)),
            (1, Some(4)),
            (16, Some(4)),
            (16, Some(4)),
        ],
        3,
    );
    assert_pauses(&rt, &[(17, Some(4)), (17, Some(4)), (17, None)], 0);
}

#[test]
fn the_first_look_of_a_command_pauses_nobody(rt: HostRuntime) {
    assert_pauses(&rt, &[(1, Some(4)), (1, None), (1, Some(4))], 0);
    assert_pauses(&rt, &[(1, Some(4)), (2, None), (1, Some(4))], 1);
    assert_pauses(
        &rt,
        &[(1, Some(4)), (1, None), (1, Some(4)), (1, Some(4))],
        1,
    );
}
