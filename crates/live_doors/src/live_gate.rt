//! The gate of a live run: who waits for a colleague pauses between two looks.

use sta_outside::{Gate, Point};
use std::sync::atomic::{AtomicU64, Ordering};
use std::thread;
use std::time::{Clock, Duration};

/// One place for each of 16 sessions, which count from 1, and one that stays free.
const PLACES: usize = 17;

/// How many milliseconds a session pauses.
const PAUSE: u64 = 1;

/// No version has this number.
const NONE: u64 = u64::MAX;

/// A gate that pauses a session whose look finds the number of its look before, where both are of one command. At
/// `Point::Answered`, which sessions raise behind each row, it forgets what the session saw.
#[derive(Drop)]
pub struct LiveGate<'a, R: Clock> {
    rt: &'a R,
    seen: [AtomicU64; PLACES],
}

impl<'a, R: Clock> LiveGate<'a, R> {
    /// The gate before any look.
    pub fn new(rt: &'a R) -> LiveGate<'a, R> {
        LiveGate {
            rt,
            seen: std::array::from_fn(|_| AtomicU64::new(NONE)),
        }
    }

    /// Notes what a session sees, and tells whether it saw the same before, for the same command.
    fn sees_again(&self, session: u32, number: u64) -> bool {
        match self.seen.get(session as usize) {
            Some(place) => place.swap(number, Ordering::SeqCst) == number,
            None => false,
        }
    }

    /// Forgets what a session saw.
    fn forget(&self, session: u32) {
        if let Some(place) = self.seen.get(session as usize) {
            place.store(NONE, Ordering::SeqCst);
        }
    }
}

impl<R: Clock + Sync> Gate for LiveGate<'_, R> {
    fn at(&self, point: Point) {
        match point {
            Point::Looked { session, number } => {
                if self.sees_again(session, number) {
                    thread::sleep(self.rt, Duration::from_millis(PAUSE));
                }
            }
            Point::Answered { session, .. } => self.forget(session),
            _ => {}
        }
    }
}
