//! The rows of a clock tree.

use sta_units::Fs;

/// A place of a clock tree: the place of its parent, none at a root, and its early and late arrival
/// in fs.
#[derive(Clone, Copy, Drop)]
pub struct TreeRow {
    pub parent: Option<u32>,
    pub early: Fs,
    pub late: Fs,
}
