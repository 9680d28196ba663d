//! The sections of a text, and the whole of it.

ghost use Rattle.std.specs.Prelude.{◌≡◌, ◌≤◌, ◌++◌, ◌∷◌, length, IfOk, MatchResult};
ghost use Rattle.sta_text.specs.Tokens.{tok_of};
ghost use Rattle.spef_reader.specs.Grammar.{events, start, name_map, passed, section, is_complete, at_end, fresh, events_of};
ghost use Rattle.spef_reader.specs.Reads.{whole, Reads, ReadsRow, Ends, Advance};

use crate::context::{Bus, Context, Header};
use crate::events::Event;
use crate::header::{header_lines, title};
use crate::name_map::NameMap;
use crate::nets::net;
use crate::tokens::{Stop, Tokens, any, is, is_bad, is_word, leave_out, missing, unexpected};
use crate::words::{index_of, is_left_out, is_passed, is_port_word, is_section, is_spelled};
use sta_text::Token;
use sta_units::Memory;
use std::alloc::Global;

/// Takes a row of the name map; whether there was one.
#[tactic(auto, unfolding(crate::specs::Grammar::events))]
fn name_row<'a>(
    alloc: Global,
    context: &mut Context<'a>,
    tokens: &mut Tokens<'a>,
    out: &mut Vec<Event>,
) -> Result<bool, Stop>
    ensures { ReadsRow result context.old name_map context.new name_map section tokens.old
        tokens.new out.old.items out.new.items }
{
    let Some(index) = tokens.take_index() else {
        return Ok(false);
    };
    let word = any(context, tokens, out)?;
    if !(is_word(&word) && is_spelled(word.text)) {
        return Err(unexpected(context, out, false, &word));
    }
    let bus = context.header.bus;
    context
        .names
        .set(alloc, bus, index_of(index.text), word.text)?;
    Ok(true)
}

/// Takes the name map, of which the first word was taken.
fn name_map<'a>(
    alloc: Global,
    context: &mut Context<'a>,
    tokens: &mut Tokens<'a>,
    out: &mut Vec<Event>,
) -> Result<(), Stop>
    ensures { Reads result context.old name_map context.new section tokens.old tokens.new
        out.old.items out.new.items }
{
    'each: while name_row(alloc, context, tokens, out)? {}
    Ok(())
}

/// Passes over a token of a section; whether there was one.
#[tactic(auto, unfolding(crate::specs::Grammar::events))]
fn pass<'a>(
    context: &Context<'a>,
    tokens: &mut Tokens<'a>,
    out: &mut Vec<Event>,
) -> Result<bool, Stop>
    ensures { ReadsRow result context.now passed context.now passed section tokens.old tokens.new
        out.old.items out.new.items }
{
    let Some(token) = tokens.peek() else {
        return Ok(false);
    };
    if is_section(token.text) {
        return Ok(false);
    }
    if is_bad(&token) || !is_port_word(context.header.delimiter, token.text) {
        return Err(unexpected(context, out, true, &token));
    }
    let _ = tokens.next();
    Ok(true)
}

/// Passes over a section, of which the first word was taken.
fn passed<'a>(
    context: &Context<'a>,
    tokens: &mut Tokens<'a>,
    out: &mut Vec<Event>,
) -> Result<(), Stop>
    ensures { Reads result context.now passed context.now section tokens.old tokens.new
        out.old.items out.new.items }
{
    'each: while pass(context, tokens, out)? {}
    Ok(())
}

/// Takes a section, of which the first word was taken.
#[tactic(auto, unfolding(crate::specs::Grammar::events))]
fn section<'a>(
    alloc: Global,
    context: &mut Context<'a>,
    tokens: &mut Tokens<'a>,
    out: &mut Vec<Event>,
    word: Token<'a>,
) -> Result<(), Stop>
    ensures place { Reads result context.old section context.new section
        (tok_of word.entry ∷ tokens.old) tokens.new out.old.items out.new.items }
    ensures fewer { IfOk result (λ _. length tokens.new ≤ length tokens.old) }
{
    if is(&word, b"*NAME_MAP") {
        return name_map(alloc, context, tokens, out);
    }
    if is(&word, b"*D_NET") {
        return net(alloc, context, tokens, out, word.start);
    }
    if is_passed(word.text) {
        return passed(context, tokens, out);
    }
    if is_left_out(word.text) {
        return Err(leave_out(out, word.start));
    }
    Err(unexpected(context, out, false, &word))
}

/// Whether the header has a delimiter and the units.
fn is_complete(header: Header) -> bool
    ensures { result ≡ is_complete header }
{
    header.delimiter.is_some() && header.farad.is_some() && header.ohm.is_some()
}

/// Looks at the header where the text ends.
fn text_end(context: &Context<'_>, out: &mut Vec<Event>) -> Result<(), Stop>
    ensures { MatchResult result (λ _. out.new.items ≡ out.old.items ++ at_end context.now section)
        (λ stop. stop ≡ Stop.Refused → out.new.items
        ≡ out.old.items ++ at_end context.now section) }
{
    if is_complete(context.header) {
        return Ok(());
    }
    Err(missing(context, out))
}

/// Takes a section, where there is one.
fn next_section<'a>(
    alloc: Global,
    context: &mut Context<'a>,
    tokens: &mut Tokens<'a>,
    out: &mut Vec<Event>,
) -> Result<bool, Stop>
    ensures { MatchResult result
        (λ more.
        (whole context.new section tokens.new out.new.items
        ≡ whole context.old section tokens.old out.old.items) × Advance more tokens.old tokens.new)
        (λ stop. stop ≡ Stop.Refused → out.new.items
        ≡ whole context.old section tokens.old out.old.items) }
{
    match tokens.next() {
        None => Ok(false),
        Some(word) => {
            section(alloc, context, tokens, out, word)?;
            Ok(true)
        }
    }
}

/// Takes the sections, up to the text's end.
#[tactic(auto, unfolding(crate::specs::Grammar::events))]
fn sections<'a>(
    alloc: Global,
    context: &mut Context<'a>,
    tokens: &mut Tokens<'a>,
    out: &mut Vec<Event>,
) -> Result<(), Stop>
    ensures { Ends result context.old section tokens.old out.old.items out.new.items }
{
    'each: while next_section(alloc, context, tokens, out)? {}
    text_end(context, out)
}

fn whole_text<'a>(
    alloc: Global,
    context: &mut Context<'a>,
    tokens: &mut Tokens<'a>,
    out: &mut Vec<Event>,
) -> Result<(), Stop>
    ensures { Ends result context.old start tokens.old out.old.items out.new.items }
{
    title(context, tokens, out)?;
    header_lines(context, tokens, out)?;
    sections(alloc, context, tokens, out)
}

fn fresh<'a>(alloc: Global, size: usize) -> Context<'a>
    ensures { result ≡ fresh size }
{
    Context {
        size,
        header: Header {
            delimiter: None,
            bus: Bus {
                opening: None,
                closing: None,
            },
            farad: None,
            ohm: None,
        },
        names: NameMap::new(alloc),
    }
}

/// What the text writes, up to its end or to its first token that does not fit.
pub(crate) fn events_of(alloc: Global, bytes: &[u8]) -> Result<Vec<Event>, Memory>
    ensures { IfOk result (λ found. found.items ≡ events_of bytes.now) }
{
    let mut context = fresh(alloc, bytes.len());
    let mut tokens = Tokens::new(bytes);
    let mut out = Vec::new(alloc);
    match whole_text(alloc, &mut context, &mut tokens, &mut out) {
        Ok(()) | Err(Stop::Refused) => Ok(out),
        Err(Stop::Memory) => Err(Memory),
    }
}
