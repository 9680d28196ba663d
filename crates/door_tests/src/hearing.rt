//! What is heard at any door.

use live_doors::{Door, Lost};
use std::alloc::Global;

/// Whether a door gives a line more, or is at its end.
pub(crate) fn hears<D: Door>(alloc: Global, door: &mut D) -> Result<bool, Lost> {
    match door.hear(alloc) {
        Ok(Some(line)) => {
            drop(line);
            Ok(true)
        }
        Ok(None) => Ok(false),
        Err(lost) => Err(lost),
    }
}
