//! What the checks of a text know of the whole.

/// A text's length in bytes, and whether the grammar accepts all of it.
#[derive(Clone, Copy, Drop)]
pub(crate) struct Extent {
    pub(crate) size: usize,
    pub(crate) whole: bool,
}
