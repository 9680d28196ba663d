//! Arcs as texts.

use crate::words::{Stop, add, is_none, place_and_amount};
use timing_defs::Items;
use worst_walks::WalkArc;

/// Adds the arcs of a text such as `1 2, 3 -9`, each by the node that it leads from and its delay;
/// `-` has none.
pub(crate) fn add_arcs(arcs: &mut Items<WalkArc>, text: &str) -> Result<(), Stop> {
    if is_none(text) {
        return Ok(());
    }
    for part in text.split(',') {
        let (from, delay) = place_and_amount(part)?;
        add(arcs, WalkArc { from, delay })?;
    }
    Ok(())
}
