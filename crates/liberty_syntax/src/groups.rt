//! Groups, and the statements in them.

ghost use Rattle.std.specs.Prelude.{◌≡◌, ◌+◌, ◌≤◌, [], ◌∷◌, List, false, length, MatchResult};
ghost use Rattle.timing_defs.specs.declared.liberty_tree.Lexeme.{Lexeme};
ghost use Rattle.sta_text.specs.Tokens.{tok_of};
ghost use Rattle.liberty_syntax.specs.Grammar.{Frame, frame, add, is_skip, is_mark, body, grow};
ghost use Rattle.liberty_syntax.specs.Parts.{Stops, opening, ending, left};

use crate::reading::{Statement, Stop};
use crate::statements::statement;
use crate::tokens::{
    cut_off, is_called, is_lexeme, is_mark, is_skip, lexeme, take_next, unfit, wrong,
};
use sta_text::{Cursor, Token};
use std::alloc::Global;
use timing_defs::{Code, Item, Items, Lexeme, Tree};

/// Takes the statements of a group up to its end, behind those that stand in `out`. Of `depth`
/// groups that are open this is the innermost.
#[cycle(groups)]
#[tactic(auto, unfolding(crate::specs::Grammar::grow))]
pub(crate) fn group_items(
    alloc: Global,
    cursor: &mut Cursor<'_>,
    size: usize,
    depth: usize,
    out: &mut Items<Item>,
) -> Result<(), Stop>
    requires { depth ≤ 64 }
    ensures { MatchResult result
        (λ _. (length cursor.new ≤ length cursor.old)
        ×
        ((word : Lexeme) (args : List Lexeme) (fs : List Frame) → length fs + 1 ≡ depth
        → grow size (frame word args out.old ∷ fs) body cursor.old
        ≡ ending size (frame word args out.new) fs cursor.new))
        (λ e. (word : Lexeme) (args : List Lexeme) (fs : List Frame) → length fs + 1 ≡ depth
        → Stops e (frame word args out.new ∷ fs)
        (grow size (frame word args out.old ∷ fs) body cursor.old)) }
{
    let mut pending = None;
    'each: loop {
        let Some(token) = take_next(pending, cursor) else {
            return Err(Stop::Fault(cut_off(size, true)));
        };
        if is_skip(token) {
            pending = None;
        } else if is_mark(token, b'}') {
            return Ok(());
        } else {
            let (item, next) = group_item(alloc, cursor, size, depth, token)?;
            out.push(item)?;
            pending = next;
        }
    }
}

/// Takes a statement, given its first token; gives it with the token behind it, where one was taken.
#[cycle(groups)]
#[tactic(auto, unfolding(crate::specs::Grammar::grow))]
fn group_item<'a>(
    alloc: Global,
    cursor: &mut Cursor<'a>,
    size: usize,
    depth: usize,
    token: Token<'a>,
) -> Result<(Item, Option<Token<'a>>), Stop>
    requires depth { depth ≤ 64 }
    requires fresh { is_skip (tok_of token) ≡ false }
    requires inner { is_mark (tok_of token) 125 ≡ false }
    ensures { MatchResult result
        (λ v. (length (left v.1 cursor.new) ≤ length cursor.old)
        ×
        ((f : Frame) (fs : List Frame) → length fs + 1 ≡ depth
        → grow size (f ∷ fs) body (tok_of token.entry ∷ cursor.old)
        ≡ grow size (add f v.0 ∷ fs) body (left v.1 cursor.new)))
        (λ e. (f : Frame) (fs : List Frame) → length fs + 1 ≡ depth
        → Stops e (f ∷ fs) (grow size (f ∷ fs) body (tok_of token.entry ∷ cursor.old))) }
{
    if !is_lexeme(token) {
        return Err(Stop::Fault(unfit(size, true, true, token)));
    }
    let word = lexeme(alloc, token)?;
    if is_called(&word, b"include_file") {
        return Err(Stop::Fault(unfit(size, true, true, token)));
    }
    match statement(alloc, cursor, size, word)? {
        Statement::Attribute { item, next } => Ok((item, next)),
        Statement::Opening { word, args } => {
            let item = group(alloc, cursor, size, depth, word, args)?;
            Ok((item, None))
        }
    }
}

/// Takes the statements and the end of a group that begins within `depth` others.
#[cycle(groups)]
fn group(
    alloc: Global,
    cursor: &mut Cursor<'_>,
    size: usize,
    depth: usize,
    word: Lexeme,
    args: Items<Lexeme>,
) -> Result<Item, Stop>
    requires { depth ≤ 64 }
    ensures { MatchResult result
        (λ item. (length cursor.new ≤ length cursor.old)
        ×
        ((f : Frame) (fs : List Frame) → length fs + 1 ≡ depth
        → opening size (f ∷ fs) word args cursor.old ≡ grow size (add f item ∷ fs) body cursor.new))
        (λ e. (f : Frame) (fs : List Frame) → length fs + 1 ≡ depth
        → Stops e (f ∷ fs) (opening size (f ∷ fs) word args cursor.old)) }
{
    if depth == 64 {
        return Err(Stop::Fault(wrong(Code::LibertyBadToken, word.offset as usize)));
    }
    let mut items = Items::new(alloc);
    group_items(alloc, cursor, size, depth + 1, &mut items)?;
    Ok(Item::Group(Tree { word, args, items }))
}
