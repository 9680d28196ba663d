//! The header: delimiters and units.

ghost use Rattle.std.specs.Prelude.{◌≡◌, ◌≤◌, ◌+◌, ◌++◌, ◌∷◌, true, length, IfOk, if◌then◌else◌};
ghost use Rattle.sta_text.specs.Tokens.{tok_of};
ghost use Rattle.spef_reader.specs.Words.{is_header_word};
ghost use Rattle.spef_reader.specs.Grammar.{events, start, title, header, first_text, next_text, divider, delimiter, bus_open, bus_close, factor, unit, section, with_unit, is_unit, ten_to};
ghost use Rattle.spef_reader.specs.Reads.{Reads, ReadsValue, ReadsRow};

use crate::context::{Bus, Context, Measure};
use crate::events::Event;
use crate::tokens::{Stop, Tokens, any, is, is_bad, is_string, is_word, unexpected};
use crate::values::power_of;
use crate::words::{delimiter_of, is_header_word, is_text_word, mark_of};
use sta_text::Token;
use sta_units::Unit;

/// Takes the title.
#[tactic(auto, unfolding(crate::specs::Grammar::events))]
pub(crate) fn title(
    context: &Context<'_>,
    tokens: &mut Tokens<'_>,
    out: &mut Vec<Event>,
) -> Result<(), Stop>
    ensures { Reads result context.now start context.now header tokens.old tokens.new out.old.items
        out.new.items }
{
    let word = any(context, tokens, out)?;
    if !is(&word, b"*SPEF") {
        return Err(unexpected(context, out, false, &word));
    }
    let text = any(context, tokens, out)?;
    if !is_string(&text) {
        return Err(unexpected(context, out, true, &text));
    }
    Ok(())
}

/// Takes the first of the texts behind a header word.
#[tactic(auto, unfolding(crate::specs::Grammar::events))]
fn first_text(
    context: &Context<'_>,
    tokens: &mut Tokens<'_>,
    out: &mut Vec<Event>,
) -> Result<(), Stop>
    ensures { Reads result context.now first_text context.now next_text tokens.old tokens.new
        out.old.items out.new.items }
{
    let text = any(context, tokens, out)?;
    if !is_string(&text) {
        return Err(unexpected(context, out, true, &text));
    }
    Ok(())
}

/// Takes another text, where there is one.
#[tactic(auto, unfolding(crate::specs::Grammar::events))]
fn next_text(
    context: &Context<'_>,
    tokens: &mut Tokens<'_>,
    out: &mut Vec<Event>,
) -> Result<bool, Stop>
    ensures { ReadsRow result context.now next_text context.now next_text header tokens.old
        tokens.new out.old.items out.new.items }
{
    if tokens.take_string().is_some() {
        return Ok(true);
    }
    match tokens.peek() {
        Some(token) if is_bad(&token) => Err(unexpected(context, out, true, &token)),
        _ => Ok(false),
    }
}

/// Takes the texts behind a header word.
fn texts(context: &Context<'_>, tokens: &mut Tokens<'_>, out: &mut Vec<Event>) -> Result<(), Stop>
    ensures { Reads result context.now first_text context.now header tokens.old tokens.new
        out.old.items out.new.items }
{
    first_text(context, tokens, out)?;
    'each: while next_text(context, tokens, out)? {}
    Ok(())
}

/// Takes the divider of hierarchical names, which is passed over.
#[tactic(auto, unfolding(crate::specs::Grammar::events))]
fn divider(context: &Context<'_>, tokens: &mut Tokens<'_>, out: &mut Vec<Event>) -> Result<(), Stop>
    ensures { Reads result context.now divider context.now header tokens.old tokens.new
        out.old.items out.new.items }
{
    let word = any(context, tokens, out)?;
    if !is_word(&word) {
        return Err(unexpected(context, out, false, &word));
    }
    Ok(())
}

/// Takes the delimiter between an instance and its pin.
#[tactic(auto, unfolding(crate::specs::Grammar::events))]
fn delimiter(
    context: &mut Context<'_>,
    tokens: &mut Tokens<'_>,
    out: &mut Vec<Event>,
) -> Result<(), Stop>
    ensures { Reads result context.old delimiter context.new header tokens.old tokens.new
        out.old.items out.new.items }
{
    let word = any(context, tokens, out)?;
    let mark = delimiter_of(word.text);
    if mark.is_none() {
        return Err(unexpected(context, out, false, &word));
    }
    context.header.delimiter = mark;
    Ok(())
}

/// Takes the mark that stands for `[` in names.
#[tactic(auto, unfolding(crate::specs::Grammar::events))]
fn bus_open(
    context: &mut Context<'_>,
    tokens: &mut Tokens<'_>,
    out: &mut Vec<Event>,
) -> Result<(), Stop>
    ensures { Reads result context.old bus_open context.new bus_close tokens.old tokens.new
        out.old.items out.new.items }
{
    let word = any(context, tokens, out)?;
    let mark = mark_of(word.text);
    if !is_word(&word) || mark.is_none() {
        return Err(unexpected(context, out, false, &word));
    }
    context.header.bus = Bus {
        opening: mark,
        closing: None,
    };
    Ok(())
}

/// Takes the mark that stands for `]` in names, where there is one.
#[tactic(auto, unfolding(crate::specs::Grammar::events))]
fn bus_close(context: &mut Context<'_>, tokens: &mut Tokens<'_>, out: &Vec<Event>)
    ensures place { out.now.items ++ events context.new header tokens.new
        ≡ out.now.items ++ events context.old bus_close tokens.old }
    ensures fewer { length tokens.new ≤ length tokens.old }
{
    if let Some(word) = tokens.take_mark() {
        context.header.bus.closing = mark_of(word.text);
    }
}

/// Takes the marks of buses.
fn buses(
    context: &mut Context<'_>,
    tokens: &mut Tokens<'_>,
    out: &mut Vec<Event>,
) -> Result<(), Stop>
    ensures { Reads result context.old bus_open context.new header tokens.old tokens.new
        out.old.items out.new.items }
{
    bus_open(context, tokens, out)?;
    bus_close(context, tokens, out);
    Ok(())
}

/// Takes the factor of a unit; a thousand times it is ten to the power that is given.
#[tactic(auto, unfolding(crate::specs::Grammar::events))]
fn factor(
    context: &Context<'_>,
    tokens: &mut Tokens<'_>,
    out: &mut Vec<Event>,
    measure: Measure,
) -> Result<u8, Stop>
    ensures place { ReadsValue result context.now (factor measure) (λ k. unit measure k) tokens.old
        tokens.new out.old.items out.new.items }
    ensures bound { IfOk result (λ k. k ≤ 6) }
{
    let word = any(context, tokens, out)?;
    match power_of(word.text) {
        None => Err(unexpected(context, out, false, &word)),
        Some(power) => Ok(power),
    }
}

fn is_unit(measure: Measure, word: &[u8]) -> bool
    ensures { result ≡ is_unit measure word.now }
{
    match measure {
        Measure::Capacitance => word == b"PF".as_slice() || word == b"FF".as_slice(),
        Measure::Resistance => word == b"KOHM".as_slice() || word == b"OHM".as_slice(),
        Measure::Other => true,
    }
}

/// The unit that is ten to a power, or a thousand times that.
fn ten_to(power: u8, thousands: bool) -> Option<Unit>
    requires { power ≤ 6 }
    ensures { result ≡ ten_to (if thousands then power + 3 else power) }
{
    let ten = if thousands { power + 3 } else { power };
    Some(Unit {
        ten: i32::from(ten),
    })
}

fn set_unit(context: &mut Context<'_>, measure: Measure, power: u8, word: &[u8])
    requires { power ≤ 6 }
    ensures { context.new ≡ with_unit context.old measure power word.now }
{
    match measure {
        Measure::Capacitance => context.header.farad = ten_to(power, word == b"PF".as_slice()),
        Measure::Resistance => context.header.ohm = ten_to(power, word == b"KOHM".as_slice()),
        Measure::Other => {}
    }
}

/// Takes a unit behind its factor.
#[tactic(auto, unfolding(crate::specs::Grammar::events))]
fn unit(
    context: &mut Context<'_>,
    tokens: &mut Tokens<'_>,
    out: &mut Vec<Event>,
    measure: Measure,
    power: u8,
) -> Result<(), Stop>
    requires { power ≤ 6 }
    ensures { Reads result context.old (unit measure power) context.new header tokens.old tokens.new
        out.old.items out.new.items }
{
    let word = any(context, tokens, out)?;
    if !(is_word(&word) && is_unit(measure, word.text)) {
        return Err(unexpected(context, out, false, &word));
    }
    set_unit(context, measure, power, word.text);
    Ok(())
}

/// Takes a factor and its unit.
fn units(
    context: &mut Context<'_>,
    tokens: &mut Tokens<'_>,
    out: &mut Vec<Event>,
    measure: Measure,
) -> Result<(), Stop>
    ensures { Reads result context.old (factor measure) context.new header tokens.old tokens.new
        out.old.items out.new.items }
{
    let power = factor(context, tokens, out, measure)?;
    unit(context, tokens, out, measure, power)
}

/// Takes what stands behind a header word, which was taken.
#[tactic(auto, unfolding(crate::specs::Grammar::events, crate::specs::Words::is_header_word))]
fn header_line<'a>(
    context: &mut Context<'a>,
    tokens: &mut Tokens<'a>,
    out: &mut Vec<Event>,
    word: Token<'a>,
) -> Result<(), Stop>
    requires { is_header_word word.text.now ≡ true }
    ensures place { Reads result context.old header context.new header
        (tok_of word.entry ∷ tokens.old) tokens.new out.old.items out.new.items }
    ensures fewer { IfOk result (λ _. length tokens.new ≤ length tokens.old) }
{
    if is_text_word(word.text) {
        return texts(context, tokens, out);
    }
    if is(&word, b"*DIVIDER") {
        return divider(context, tokens, out);
    }
    if is(&word, b"*DELIMITER") {
        return delimiter(context, tokens, out);
    }
    if is(&word, b"*BUS_DELIMITER") {
        return buses(context, tokens, out);
    }
    if is(&word, b"*C_UNIT") {
        return units(context, tokens, out, Measure::Capacitance);
    }
    if is(&word, b"*R_UNIT") {
        return units(context, tokens, out, Measure::Resistance);
    }
    units(context, tokens, out, Measure::Other)
}

/// Takes a header line, where there is one.
#[tactic(auto, unfolding(crate::specs::Grammar::events, crate::specs::Words::is_header_word))]
fn next_line<'a>(
    context: &mut Context<'a>,
    tokens: &mut Tokens<'a>,
    out: &mut Vec<Event>,
) -> Result<bool, Stop>
    ensures { ReadsRow result context.old header context.new header section tokens.old tokens.new
        out.old.items out.new.items }
{
    let Some(word) = tokens.take_header_word() else {
        return Ok(false);
    };
    header_line(context, tokens, out, word)?;
    Ok(true)
}

/// Takes the header.
pub(crate) fn header_lines<'a>(
    context: &mut Context<'a>,
    tokens: &mut Tokens<'a>,
    out: &mut Vec<Event>,
) -> Result<(), Stop>
    ensures { Reads result context.old header context.new section tokens.old tokens.new
        out.old.items out.new.items }
{
    'each: while next_line(context, tokens, out)? {}
    Ok(())
}
