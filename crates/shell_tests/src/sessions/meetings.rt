//! How a gate makes two sessions meet: it holds each at a point until the other has come to one of its own, for so many turns at
//! most, so that a run which meets no other ends, and fails.

use sta_outside::{Gate, Point};
use std::process::Abort;
use std::sync::atomic::{AtomicU64, Ordering};

/// How many turns a thread is held.
const TURNS: u64 = 500_000_000;

/// Whether a point of a run was reached.
#[derive(Drop)]
pub(crate) struct Reached {
    times: AtomicU64,
}

impl Reached {
    pub(crate) fn new() -> Reached {
        Reached {
            times: AtomicU64::new(0),
        }
    }

    /// Counts the point once more, and tells whether it was the first time.
    pub(crate) fn is_first(&self) -> bool {
        self.times.fetch_add(1, Ordering::SeqCst) == 0
    }

    pub(crate) fn is_reached(&self) -> bool {
        self.times.load(Ordering::SeqCst) != 0
    }
}

/// A point, whatever its number.
fn spot(point: Point) -> Point {
    match point {
        Point::Piece { level: _, piece: _ } => Point::Piece { level: 0, piece: 0 },
        Point::Taken { session, number: _ } => taken(session),
        Point::Looked { session, number: _ } => looked(session),
        Point::Prepared { session, number: _ } => prepared(session),
        Point::Published { session, number: _ } => published(session),
        Point::Answered { session, command } => Point::Answered { session, command },
    }
}

/// Where a session has taken a version.
pub(crate) fn taken(session: u32) -> Point {
    Point::Taken { session, number: 0 }
}

/// Where a session has looked at the newest version.
pub(crate) fn looked(session: u32) -> Point {
    Point::Looked { session, number: 0 }
}

/// Where a session has prepared a version.
pub(crate) fn prepared(session: u32) -> Point {
    Point::Prepared { session, number: 0 }
}

/// Where a session has published a version.
pub(crate) fn published(session: u32) -> Point {
    Point::Published { session, number: 0 }
}

/// Whoever is first at one point is held until someone is at another.
#[derive(Drop)]
struct Hold {
    at: Point,
    until: Point,
    held: Reached,
    freed: Reached,
}

impl Hold {
    fn new(at: Point, until: Point) -> Hold {
        Hold {
            at,
            until,
            held: Reached::new(),
            freed: Reached::new(),
        }
    }

    /// Frees who is held, where this is the point.
    fn free(&self, spot: Point) {
        if spot == self.until {
            self.freed.is_first();
        }
    }

    /// Whether the caller is to be held here.
    fn holds(&self, spot: Point) -> bool {
        spot == self.at && self.held.is_first()
    }

    /// Fails where nobody came to one of its points.
    fn check(&self, rt: &impl Abort) {
        assert!(rt; self.held.is_reached(), "nobody was at {:?}", self.at);
        assert!(rt; self.freed.is_reached(), "nobody was at {:?}", self.until);
    }
}

/// Two sessions that meet. It also notes what session 1 prepares, and what all sessions publish.
#[derive(Drop)]
pub(crate) struct Meeting {
    one: Hold,
    two: Hold,
    given_up: Reached,
    prepared: AtomicU64,
    published: AtomicU64,
}

impl Meeting {
    /// Holds who comes to `second` until someone comes to `first`, and that one until someone comes to `end`.
    pub(crate) fn new(first: Point, second: Point, end: Point) -> Meeting {
        Meeting {
            one: Hold::new(first, end),
            two: Hold::new(second, first),
            given_up: Reached::new(),
            prepared: AtomicU64::new(0),
            published: AtomicU64::new(0),
        }
    }

    /// Holds the caller until it is freed, or for all its turns. Once someone was held for all of them, nobody is held any more.
    fn wait(&self, until: &Reached) {
        for _ in 0..TURNS {
            if until.is_reached() || self.given_up.is_reached() {
                return;
            }
        }
        self.given_up.is_first();
    }

    /// Notes that session 1 has prepared a version of a number.
    fn note_prepared(&self, number: u64) {
        let before = self.prepared.load(Ordering::SeqCst);
        let after = before.wrapping_mul(16).wrapping_add(number);
        self.prepared.store(after, Ordering::SeqCst);
    }

    /// Notes what is prepared and published.
    fn note(&self, point: Point) {
        match point {
            Point::Prepared { session: 1, number } => self.note_prepared(number),
            Point::Published { session, number: _ } => {
                self.published.fetch_add(place(session), Ordering::SeqCst);
            }
            _ => {}
        }
    }

    /// The numbers of the versions that session 1 has prepared, the last in the lowest four bits.
    pub(crate) fn numbers_prepared(&self) -> u64 {
        self.prepared.load(Ordering::SeqCst)
    }

    /// How many versions each session has published, four bits for each, session 1 in the lowest.
    pub(crate) fn counts_published(&self) -> u64 {
        self.published.load(Ordering::SeqCst)
    }

    /// Fails where a session was held in vain, or came to none of its points.
    pub(crate) fn check(&self, rt: &impl Abort) {
        assert!(rt; !self.given_up.is_reached(), "a session was held in vain");
        self.one.check(rt);
        self.two.check(rt);
    }
}

/// Where the versions of a session are counted.
fn place(session: u32) -> u64 {
    match session {
        1 => 1,
        2 => 16,
        3 => 256,
        _ => 4096,
    }
}

impl Gate for Meeting {
    fn at(&self, point: Point) {
        self.note(point);
        let spot = spot(point);
        self.one.free(spot);
        self.two.free(spot);
        if self.one.holds(spot) {
            self.wait(&self.one.freed);
        }
        if self.two.holds(spot) {
            self.wait(&self.two.freed);
        }
    }
}
