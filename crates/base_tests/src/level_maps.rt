//! The map of a few items by several numbers of workers, and pieces that run beside each other.

use level_workers::map_level;
use sta_outside::{Gate, NoGate, Point};
use sta_units::Memory;
use std::process::Abort;
use std::sync::atomic::{AtomicU64, Ordering};

/// How many turns a piece waits for the other.
const TURNS: u64 = 500_000_000;

/// Holds each of two pieces of level 7 until the other has begun, or until it has waited for all its
/// turns. `begun` counts piece 0 in its low half and piece 1 in its high half.
#[derive(Drop)]
struct BothBegin {
    begun: AtomicU64,
    other: AtomicU64,
    given_up: AtomicU64,
}

impl Gate for BothBegin {
    fn at(&self, point: Point) {
        match point {
            Point::Piece { level: 7, piece: 0 } => {
                self.begun.fetch_add(1, Ordering::SeqCst);
            }
            Point::Piece { level: 7, piece: 1 } => {
                self.begun.fetch_add(1 << 32, Ordering::SeqCst);
            }
            _ => {
                self.other.fetch_add(1, Ordering::SeqCst);
            }
        }
        for _ in 0..TURNS {
            if self.begun.load(Ordering::SeqCst) == (1 << 32) + 1 {
                return;
            }
        }
        self.given_up.fetch_add(1, Ordering::SeqCst);
    }
}

impl BothBegin {
    /// Asserts that both pieces began, that nothing else did, and that nobody waited in vain.
    fn check(&self, rt: &impl Abort) {
        assert_eq!(rt; self.begun.load(Ordering::SeqCst), (1 << 32) + 1);
        assert_eq!(rt; self.other.load(Ordering::SeqCst), 0);
        assert_eq!(rt; self.given_up.load(Ordering::SeqCst), 0);
    }
}

/// Holds piece 1 of level 8 until five items are mapped, or until it has waited for all its turns.
#[derive(Drop)]
struct HoldsOne {
    mapped: AtomicU64,
    given_up: AtomicU64,
}

impl Gate for HoldsOne {
    fn at(&self, point: Point) {
        if point != (Point::Piece { level: 8, piece: 1 }) {
            return;
        }
        for _ in 0..TURNS {
            if self.mapped.load(Ordering::SeqCst) == 5 {
                return;
            }
        }
        self.given_up.fetch_add(1, Ordering::SeqCst);
    }
}

/// Asserts the doubles of the items 1 to 5.
fn assert_doubled(rt: &impl Abort, found: &[u32]) {
    assert_eq!(rt; found, [2, 4, 6, 8, 10].as_slice());
}

fn doubled(x: &u32) -> Result<u32, Memory> {
    Ok(x.wrapping_mul(2))
}

#[test]
fn map_is_the_plain_map_for_every_number_of_workers(rt: HostRuntime) {
    let alloc = rt.alloc();
    let items = [1u32, 2, 3, 4, 5];
    for &workers in &[1, 2, 3, 32] {
        let found = map_level(&rt, alloc, workers, 0, &items, &doubled, &NoGate).expect(
            &rt, "memory",
        );
        assert_doubled(&rt, found.as_slice());
    }
    let none: [u32; 0] = [];
    let found = map_level(&rt, alloc, 4, 0, &none, &doubled, &NoGate).expect(&rt, "memory");
    assert!(rt; found.is_empty());
}

#[test]
fn gates_pieces(rt: HostRuntime) {
    let gate = BothBegin {
        begun: AtomicU64::new(0),
        other: AtomicU64::new(0),
        given_up: AtomicU64::new(0),
    };
    let found = map_level(&rt, rt.alloc(), 2, 7, &[1, 2, 3, 4, 5], &doubled, &gate).expect(
        &rt, "memory",
    );
    assert_doubled(&rt, found.as_slice());
    gate.check(&rt);
}

#[test]
fn blocks_of_a_piece_that_is_held_are_taken_over(rt: HostRuntime) {
    let gate = HoldsOne {
        mapped: AtomicU64::new(0),
        given_up: AtomicU64::new(0),
    };
    let count = |x: &u32| -> Result<u32, Memory> {
        gate.mapped.fetch_add(1, Ordering::SeqCst);
        doubled(x)
    };
    let found = map_level(&rt, rt.alloc(), 2, 8, &[1, 2, 3, 4, 5], &count, &gate).expect(
        &rt, "memory",
    );
    assert_doubled(&rt, found.as_slice());
    assert_eq!(rt; gate.mapped.load(Ordering::SeqCst), 5);
    assert_eq!(rt; gate.given_up.load(Ordering::SeqCst), 0);
}
