//! What is read of a text.

use sta_text::{Token, Wrong};
use sta_units::Memory;
use timing_defs::{Item, Items, Lexeme, Tree};

/// What is read of a text: its tree, or the statements of its `library` group that have ended before
/// the first fault, and that fault. Statements of groups that are still open are not among them.
#[derive(Drop)]
pub enum Reading {
    Whole(Tree),
    Broken { items: Items<Item>, wrong: Wrong },
}

/// Why a part of the reading stops: want of memory, or a fault.
#[derive(Clone, Copy, Drop)]
pub(crate) enum Stop {
    Memory,
    Fault(Wrong),
}

impl From<Memory> for Stop {
    ghost use Rattle.std.specs.Prelude.{◌≡◌};
    ghost use Rattle.liberty_syntax.specs.declared.reading.Stop.TheVariants as stop;

    ghost from_gives = { λ _ told. told ≡ stop.Memory };

    fn from(_wanting: Memory) -> Stop {
        Stop::Memory
    }
}

/// What follows a list of arguments: a group's begin, or the attribute's end, with the token behind
/// it where there is one.
#[derive(Drop)]
pub(crate) enum Tail<'a> {
    Begin,
    Ended(Option<Token<'a>>),
}

/// A statement up to its end: the begin of a group, or an attribute with the token behind it where
/// there is one.
#[derive(Drop)]
pub(crate) enum Statement<'a> {
    Opening { word: Lexeme, args: Items<Lexeme> },
    Attribute { item: Item, next: Option<Token<'a>> },
}
