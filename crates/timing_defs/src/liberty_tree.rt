//! The statements of a Liberty text as a tree.

use crate::items::Items;

/// A word or a quoted string: its text without quotes and continuations of lines, whether it was
/// quoted, and the offset of its first byte in the source, the quote included.
#[derive(Drop)]
pub struct Lexeme {
    pub text: Items<u8>,
    pub quoted: bool,
    pub offset: u64,
}

/// A group `word ( args ) { items }`, in the order of the text.
#[derive(Drop)]
#[cycle(tree)]
pub struct Tree {
    pub word: Lexeme,
    pub args: Items<Lexeme>,
    pub items: Items<Item>,
}

/// A statement of a group: a group, a complex attribute `word ( args )`, or a simple attribute
/// `word : value`.
#[derive(Drop)]
#[cycle(tree)]
pub enum Item {
    Group(Tree),
    Complex { word: Lexeme, args: Items<Lexeme> },
    Simple { word: Lexeme, value: Items<Lexeme> },
}
