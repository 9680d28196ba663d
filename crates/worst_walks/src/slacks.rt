//! The least slack of the walks to an end node of a cone.

ghost use Rattle.std.specs.Prelude.{◌≡◌, ℕ, ◌^◌, ◌≤◌, unsigned_abs, int_lt, None};
ghost use Rattle.worst_walks.specs.Best.{better};
ghost use Rattle.worst_walks.specs.Walks.{most_nodes, IsEnd};
ghost use Rattle.worst_walks.specs.Tables.{row_in, offered, least_from, IsBounded};

use crate::cones::{Cone, Launch, WalkEnd};
use crate::tables::{Entry, row_at};

/// The least slack of the walks from a launch, in fs.
pub fn slack_at(rows: &[Option<Entry>], launch: &Launch) -> Option<i64>
    requires offer { unsigned_abs launch.now.offer ≤ 10 ^ 18 }
    requires bounded { IsBounded (most_nodes) (row_in rows.now launch.now.node) }
    ensures { result ≡ offered rows.now launch.now }
{
    match row_at(rows, launch.node) {
        Some(entry) => Some(launch.offer - entry.total),
        None => None,
    }
}

/// The lesser of two slacks, where there are two.
fn lesser(least: Option<i64>, slack: Option<i64>) -> Option<i64>
    ensures { result ≡ better int_lt least slack }
{
    match (least, slack) {
        (None, second) => second,
        (Some(x), None) => Some(x),
        (Some(x), Some(y)) => if y < x { Some(y) } else { Some(x) },
    }
}

/// The least slack of the walks from the launches of an end node.
pub(crate) fn least_offer(cone: &Cone, end: &WalkEnd, rows: &[Option<Entry>]) -> Option<i64>
    requires end { IsEnd cone.now end.now }
    requires bounded { (n : ℕ) → IsBounded (most_nodes) (row_in rows.now n) }
    ensures { result ≡ least_from rows.now None end.now.launches }
{
    let mut least = None;
    for launch in end.launches.as_slice() {
        least = lesser(least, slack_at(rows, launch));
    }
    least
}
