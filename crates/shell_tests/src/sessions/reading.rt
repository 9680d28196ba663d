//! A session asks while the levels of another session's ECO are evaluated.

use super::meetings::{Meeting, Reached, taken};
use super::preparing::{ANSWERS, ASKED, SCRIPTS};
use super::{TWO, compare};
use sta_outside::{Gate, Point};

/// Lets the pieces of levels count after the look of session 1's ECO alone. Session 2 has no ECO, so these pieces are session 1's.
#[derive(Drop)]
struct BehindLook {
    meeting: Meeting,
    looked: Reached,
}

impl Gate for BehindLook {
    fn at(&self, point: Point) {
        match point {
            Point::Looked {
                session: 1,
                number: _,
            } => {
                self.looked.is_first();
            }
            Point::Piece { level: _, piece: _ } => {
                if self.looked.is_reached() {
                    self.meeting.at(point);
                }
            }
            _ => self.meeting.at(point),
        }
    }
}

#[test]
fn gates_reader(rt: HostRuntime) {
    let gate = BehindLook {
        meeting: Meeting::new(Point::Piece { level: 0, piece: 0 }, taken(2), ASKED),
        looked: Reached::new(),
    };
    compare(&rt, rt.alloc(), TWO, SCRIPTS, &gate, 0, ANSWERS);
    gate.meeting.check(&rt);
}
