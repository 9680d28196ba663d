//! Kinds of tokens and of texts.

/// A kind of token. `Bad` is an unclosed string or comment, or a byte that the style does not
/// allow.
#[derive(Debug, Clone, Copy, PartialEq, Eq, Drop)]
pub enum Sort {
    Word,
    Quoted,
    Mark,
    LineEnd,
    Bad,
}

/// How a text is cut into tokens.
#[derive(Clone, Copy, Drop)]
pub enum Style {
    Liberty,
    Verilog,
    Tcl,
    Spef,
    Script,
}
