//! The levels of an analysis are shared between threads where they are worth it.

use super::run;
use sta_outside::{Gate, Point};
use std::sync::atomic::{AtomicU64, Ordering};

/// Counts how often a second thread begins at level 3: that of the pins which the first registers of a
/// generated design drive.
#[derive(Drop)]
struct SecondPieces {
    begun: AtomicU64,
}

impl Gate for SecondPieces {
    fn at(&self, point: Point) {
        match point {
            Point::Piece { level: 3, piece: 1 } => {
                self.begun.fetch_add(1, Ordering::SeqCst);
            }
            _ => {}
        }
    }
}

/// The 16 blocks of 400 gates begin with two pins each on the nets of the first registers, so that level has
/// 64 nodes at least. One analysis goes over it twice: for slews and arrivals, and for required times.
#[test]
fn gates_shared_levels(rt: HostRuntime) {
    let gate = SecondPieces {
        begun: AtomicU64::new(0),
    };
    let (status, _) = run(&rt, rt.alloc(), "generate 7 400 0", &[], &gate);
    assert_eq!(rt; status, 0);
    assert_eq!(rt; gate.begun.load(Ordering::SeqCst), 2);
}
