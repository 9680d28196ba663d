//! Statements, each up to its end or to the begin of its group.

ghost use Rattle.std.specs.Prelude.{◌≡◌, ◌<◌, ◌≤◌, [], ◌∷◌, ◌++◌, Bool, List, true, false, length, MatchResult, if◌then◌else◌};
ghost use Rattle.timing_defs.specs.declared.liberty_tree.Lexeme.{Lexeme};
ghost use Rattle.timing_defs.specs.declared.liberty_tree.Item.TheVariants.{Simple};
ghost use Rattle.sta_text.specs.Tokens.{tok_of};
ghost use Rattle.liberty_syntax.specs.Grammar.{Frame, add, is_inside, body, named, listed, closed, valued, grow};
ghost use Rattle.liberty_syntax.specs.Parts.{Stops, Follows, left_behind, Says, left_after};

use crate::reading::{Statement, Stop, Tail};
use crate::tokens::{
    cut_off, is_lexeme, is_line_end, is_mark, is_part, is_skip, lexeme, unfit, unfit_in_list, wrong,
};
use sta_text::{Cursor, Token};
use std::alloc::Global;
use timing_defs::{Code, Item, Items, Lexeme};

/// Takes what follows a statement's name: whether a list begins, or a value.
#[tactic(auto, unfolding(crate::specs::Grammar::grow))]
pub(crate) fn after_name(cursor: &mut Cursor<'_>, size: usize, within: bool) -> Result<bool, Stop>
    ensures { MatchResult result
        (λ list. (length cursor.new < length cursor.old) × (within ≡ false → list ≡ true)
        ×
        ((fs : List Frame) (word : Lexeme) → is_inside fs ≡ within
        → grow size fs (named word) cursor.old
        ≡ grow size fs (if list then listed word [] false true else valued word []) cursor.new))
        (λ e. (fs : List Frame) (word : Lexeme) → is_inside fs ≡ within
        → Stops e fs (grow size fs (named word) cursor.old)) }
{
    'each: loop {
        let Some(token) = cursor.next() else {
            return Err(Stop::Fault(cut_off(size, within)));
        };
        if !is_line_end(token) {
            if is_mark(token, b'(') {
                return Ok(true);
            }
            if is_mark(token, b':') && within {
                return Ok(false);
            }
            return Err(Stop::Fault(unfit(size, within, false, token)));
        }
    }
}

/// Takes the arguments of a list, and its end.
#[tactic(auto, unfolding(crate::specs::Grammar::grow))]
pub(crate) fn arguments(
    alloc: Global,
    cursor: &mut Cursor<'_>,
    size: usize,
    within: bool,
) -> Result<Items<Lexeme>, Stop>
    ensures { MatchResult result
        (λ args. (length cursor.new < length cursor.old)
        ×
        ((fs : List Frame) (word : Lexeme) → is_inside fs ≡ within
        → grow size fs (listed word [] false true) cursor.old
        ≡ grow size fs (closed word args false) cursor.new))
        (λ e. (fs : List Frame) (word : Lexeme) → is_inside fs ≡ within
        → Stops e fs (grow size fs (listed word [] false true) cursor.old)) }
{
    let mut args = Items::new(alloc);
    let mut more = false;
    let mut last = true;
    'each: loop {
        let Some(token) = cursor.next() else {
            return Err(Stop::Fault(wrong(Code::LibertyUnbalanced, size)));
        };
        if is_lexeme(token) {
            args.push(lexeme(alloc, token)?)?;
            more = true;
            last = true;
        } else if is_mark(token, b',') && more {
            more = false;
            last = false;
        } else if is_mark(token, b')') && last {
            return Ok(args);
        } else if !is_line_end(token) {
            return Err(Stop::Fault(unfit_in_list(size, within, token)));
        }
    }
}

/// Takes what follows a list of arguments in a group.
#[tactic(auto, unfolding(crate::specs::Grammar::grow))]
fn after_list<'a>(cursor: &mut Cursor<'a>, size: usize) -> Result<Tail<'a>, Stop>
    ensures { MatchResult result
        (λ tail. (length (left_behind tail cursor.new) ≤ length cursor.old)
        ×
        ((f : Frame) (fs : List Frame) (word : Lexeme) (args : List Lexeme)
        → Follows size f fs word args tail cursor.new
        (grow size (f ∷ fs) (closed word args false) cursor.old)))
        (λ e. (f : Frame) (fs : List Frame) (word : Lexeme) (args : List Lexeme)
        → Stops e (f ∷ fs) (grow size (f ∷ fs) (closed word args false) cursor.old)) }
{
    let mut ended = false;
    'each: loop {
        let Some(token) = cursor.next() else {
            if ended {
                return Ok(Tail::Ended(None));
            }
            return Err(Stop::Fault(cut_off(size, true)));
        };
        if is_line_end(token) {
            ended = true;
        } else if is_mark(token, b'{') {
            return Ok(Tail::Begin);
        } else if ended || is_mark(token, b';') || is_mark(token, b'}') {
            return Ok(Tail::Ended(Some(token)));
        } else {
            return Err(Stop::Fault(unfit(size, true, false, token)));
        }
    }
}

/// Takes the value of a simple attribute, and the token that ends it.
#[tactic(auto, unfolding(crate::specs::Grammar::grow))]
fn value<'a>(
    alloc: Global,
    cursor: &mut Cursor<'a>,
    size: usize,
) -> Result<(Items<Lexeme>, Token<'a>), Stop>
    ensures { MatchResult result
        (λ v. (length (tok_of v.1 ∷ cursor.new) ≤ length cursor.old)
        ×
        ((f : Frame) (fs : List Frame) (word : Lexeme)
        → grow size (f ∷ fs) (valued word []) cursor.old
        ≡ grow size (add f (Simple word v.0) ∷ fs) body (tok_of v.1 ∷ cursor.new)))
        (λ e. (f : Frame) (fs : List Frame) (word : Lexeme)
        → Stops e (f ∷ fs) (grow size (f ∷ fs) (valued word []) cursor.old)) }
{
    let mut value = Items::new(alloc);
    'each: loop {
        let Some(token) = cursor.next() else {
            return Err(Stop::Fault(cut_off(size, true)));
        };
        if is_part(token) {
            value.push(lexeme(alloc, token)?)?;
        } else if !is_skip(token) && !is_mark(token, b'}') {
            return Err(Stop::Fault(unfit(size, true, true, token)));
        } else if value.is_empty() {
            return Err(Stop::Fault(wrong(Code::LibertyBadToken, token.start)));
        } else {
            return Ok((value, token));
        }
    }
}

/// Takes a list of arguments and what follows it.
fn with_list<'a>(
    alloc: Global,
    cursor: &mut Cursor<'a>,
    size: usize,
    word: Lexeme,
) -> Result<Statement<'a>, Stop>
    ensures { MatchResult result
        (λ s. (length (left_after s cursor.new) ≤ length cursor.old)
        ×
        ((f : Frame) (fs : List Frame)
        → Says size f fs s cursor.new (grow size (f ∷ fs) (listed word [] false true) cursor.old)))
        (λ e. (f : Frame) (fs : List Frame)
        → Stops e (f ∷ fs) (grow size (f ∷ fs) (listed word [] false true) cursor.old)) }
{
    let args = arguments(alloc, cursor, size, true)?;
    match after_list(cursor, size)? {
        Tail::Begin => Ok(Statement::Opening { word, args }),
        Tail::Ended(next) => Ok(Statement::Attribute {
            item: Item::Complex { word, args },
            next,
        }),
    }
}

/// Takes a value, and makes the attribute.
fn with_value<'a>(
    alloc: Global,
    cursor: &mut Cursor<'a>,
    size: usize,
    word: Lexeme,
) -> Result<Statement<'a>, Stop>
    ensures { MatchResult result
        (λ s. (length (left_after s cursor.new) ≤ length cursor.old)
        ×
        ((f : Frame) (fs : List Frame)
        → Says size f fs s cursor.new (grow size (f ∷ fs) (valued word []) cursor.old)))
        (λ e. (f : Frame) (fs : List Frame)
        → Stops e (f ∷ fs) (grow size (f ∷ fs) (valued word []) cursor.old)) }
{
    let (value, token) = value(alloc, cursor, size)?;
    Ok(Statement::Attribute {
        item: Item::Simple { word, value },
        next: Some(token),
    })
}

/// Takes a statement behind its name.
pub(crate) fn statement<'a>(
    alloc: Global,
    cursor: &mut Cursor<'a>,
    size: usize,
    word: Lexeme,
) -> Result<Statement<'a>, Stop>
    ensures { MatchResult result
        (λ s. (length (left_after s cursor.new) ≤ length cursor.old)
        ×
        ((f : Frame) (fs : List Frame)
        → Says size f fs s cursor.new (grow size (f ∷ fs) (named word) cursor.old)))
        (λ e. (f : Frame) (fs : List Frame)
        → Stops e (f ∷ fs) (grow size (f ∷ fs) (named word) cursor.old)) }
{
    if after_name(cursor, size, true)? {
        with_list(alloc, cursor, size, word)
    } else {
        with_value(alloc, cursor, size, word)
    }
}
