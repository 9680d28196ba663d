//! The sections of nets: connections, capacitances and resistances.

ghost use Rattle.std.specs.Prelude.{◌≡◌, ◌++◌, ◌∷◌, List, true, false, not, is_some, codes, ◌&&◌, IfOk, MatchOption};
ghost use Rattle.sta_text.specs.Tokens.{tok_of};
ghost use Rattle.spef_reader.specs.declared.events.Event.{Event};
ghost use Rattle.spef_reader.specs.declared.events.Event.TheVariants as event;
ghost use Rattle.spef_reader.specs.Ahead.{first_fits};
ghost use Rattle.spef_reader.specs.Words.{is_pin_row, is_no_value, value_of, written};
ghost use Rattle.spef_reader.specs.Nodes.{name_of};
ghost use Rattle.spef_reader.specs.Grammar.{is_text, is_word, noted, unknown_name, bad_number, events, net_name, total, behind_total, width, parts, conn_row, conn_node, direction, cap_row, cap_node, cap_next, cap_value, res_row, res_first, res_second, res_value, section};
ghost use Rattle.spef_reader.specs.Reads.{Reads, ReadsValue, ReadsRow, conn_place};

use crate::context::Context;
use crate::events::Event;
use crate::nodes::{name_of, node};
use crate::sizes::Size;
use crate::tokens::{Stop, Tokens, any, is, is_bad, is_word, leave_out, note, push, unexpected};
use crate::values::{formed_value, note_value, value};
use crate::words::{is_direction, is_net_word, is_pin_row, is_reference, is_section, is_whole};
use sta_text::Token;
use sta_units::{Memory, Unit};
use std::alloc::Global;
use timing_defs::{Code, Name, RcNode};

/// A copy of a name, where there is one.
fn copied(alloc: Global, name: &Option<Name>) -> Result<Option<Name>, Memory>
    ensures { IfOk result (λ copy. copy ≡ name.now) }
{
    match name {
        None => Ok(None),
        Some(name) => Ok(Some(name.copied(alloc)?)),
    }
}

/// Writes that a net begins, of which the name was read.
fn begin_net<'a>(
    alloc: Global,
    context: &Context<'a>,
    out: &mut Vec<Event>,
    at: usize,
    word: Token<'a>,
) -> Result<Option<Name>, Memory>
    ensures { IfOk result
        (λ name. (name ≡ name_of context.now word.entry.text.now)
        ×
        ((rest : List Event) → out.new.items ++ rest
        ≡ out.old.items ++ noted (not (is_some (name_of context.now word.entry.text.now)))
        (unknown_name word.entry.start)
        (event.Net at (name_of context.now word.entry.text.now) word.entry.start ∷ rest))) }
{
    let name = name_of(alloc, context, word.text)?;
    note(out, name.is_none(), Code::SpefUnknownName, word.start)?;
    let net = copied(alloc, &name)?;
    push(out, Event::Net(at, net, word.start))?;
    Ok(name)
}

/// Takes the name of a net.
#[tactic(auto, unfolding(crate::specs::Grammar::events))]
fn net_name<'a>(
    alloc: Global,
    context: &Context<'a>,
    tokens: &mut Tokens<'a>,
    out: &mut Vec<Event>,
    at: usize,
) -> Result<Option<Name>, Stop>
    ensures { ReadsValue result context.now (net_name at) (λ name. total name) tokens.old tokens.new
        out.old.items out.new.items }
{
    let word = any(context, tokens, out)?;
    if !(is_word(&word) && is_reference(word.text)) {
        return Err(unexpected(context, out, false, &word));
    }
    Ok(begin_net(alloc, context, out, at, word)?)
}

/// Takes the total capacitance of a net.
#[tactic(auto, unfolding(crate::specs::Grammar::events))]
fn total<'a>(
    context: &Context<'a>,
    tokens: &mut Tokens<'a>,
    out: &mut Vec<Event>,
    net: &Option<Name>,
) -> Result<(), Stop>
    ensures { Reads result context.now (total net.now) context.now (behind_total net.now) tokens.old
        tokens.new out.old.items out.new.items }
{
    let word = any(context, tokens, out)?;
    if !is_word(&word) {
        return Err(unexpected(context, out, false, &word));
    }
    let size = value(out, context.header.farad, &word)?;
    out.push(Event::Total(size))?;
    Ok(())
}

/// Takes the number of a routing confidence.
#[tactic(auto, unfolding(crate::specs::Grammar::events))]
fn width<'a>(
    context: &Context<'a>,
    tokens: &mut Tokens<'a>,
    out: &mut Vec<Event>,
    net: &Option<Name>,
) -> Result<(), Stop>
    ensures { Reads result context.now (width net.now) context.now (parts net.now 0) tokens.old
        tokens.new out.old.items out.new.items }
{
    let word = any(context, tokens, out)?;
    if !is_whole(word.text) {
        return Err(unexpected(context, out, false, &word));
    }
    Ok(())
}

/// Takes a routing confidence, where there is one.
#[tactic(auto, unfolding(crate::specs::Grammar::events))]
fn behind_total<'a>(
    context: &Context<'a>,
    tokens: &mut Tokens<'a>,
    out: &mut Vec<Event>,
    net: &Option<Name>,
) -> Result<(), Stop>
    ensures { Reads result context.now (behind_total net.now) context.now (parts net.now 0)
        tokens.old tokens.new out.old.items out.new.items }
{
    if tokens.take_text(b"*V").is_some() {
        return width(context, tokens, out, net);
    }
    if let Some(word) = tokens.take_text(b"*SC") {
        return Err(leave_out(out, word.start));
    }
    Ok(())
}

/// Takes the node of a connection.
#[tactic(auto, unfolding(crate::specs::Grammar::events))]
fn conn_node<'a>(
    alloc: Global,
    context: &Context<'a>,
    tokens: &mut Tokens<'a>,
    out: &mut Vec<Event>,
    net: &Option<Name>,
    directed: bool,
) -> Result<(), Stop>
    ensures { Reads result context.now (conn_node net.now directed) context.now
        (conn_place net.now directed) tokens.old tokens.new out.old.items out.new.items }
{
    let word = any(context, tokens, out)?;
    let node = node(alloc, context, out, net, word)?;
    out.push(Event::Connection(node))?;
    Ok(())
}

/// Takes the direction of a connection.
#[tactic(auto, unfolding(crate::specs::Grammar::events))]
fn direction<'a>(
    context: &Context<'a>,
    tokens: &mut Tokens<'a>,
    out: &mut Vec<Event>,
    net: &Option<Name>,
) -> Result<(), Stop>
    ensures { Reads result context.now (direction net.now) context.now (conn_row net.now true)
        tokens.old tokens.new out.old.items out.new.items }
{
    let word = any(context, tokens, out)?;
    if !is_direction(word.text) {
        return Err(unexpected(context, out, false, &word));
    }
    Ok(())
}

/// Takes a connection, of which the first word was taken.
fn connection<'a>(
    alloc: Global,
    context: &Context<'a>,
    tokens: &mut Tokens<'a>,
    out: &mut Vec<Event>,
    net: &Option<Name>,
    directed: bool,
) -> Result<(), Stop>
    ensures { Reads result context.now (conn_node net.now directed) context.now
        (conn_row net.now true) tokens.old tokens.new out.old.items out.new.items }
{
    conn_node(alloc, context, tokens, out, net, directed)?;
    if directed {
        return direction(context, tokens, out, net);
    }
    Ok(())
}

/// Passes over a token behind a connection, where it is not the begin of something else.
#[tactic(auto, unfolding(crate::specs::Grammar::events))]
fn pass_over<'a>(
    context: &Context<'a>,
    tokens: &mut Tokens<'a>,
    out: &mut Vec<Event>,
    net: &Option<Name>,
    passes: bool,
) -> Result<bool, Stop>
    requires pin { first_fits (λ t. is_pin_row t.text) tokens.now ≡ false }
    requires inner { first_fits (λ t. is_text t (codes "*N")) tokens.now ≡ false }
    ensures { ReadsRow result context.now (conn_row net.now passes) context.now
        (conn_row net.now true) (parts net.now 1) tokens.old tokens.new out.old.items
        out.new.items }
{
    let Some(token) = tokens.peek() else {
        return Ok(false);
    };
    if !passes || is_net_word(token.text) || is_section(token.text) {
        return Ok(false);
    }
    if is_bad(&token) {
        return Err(unexpected(context, out, true, &token));
    }
    let _ = tokens.next();
    Ok(true)
}

/// Takes a connection, or a token behind one; whether there was one.
#[tactic(auto, unfolding(crate::specs::Grammar::events))]
fn conn_step<'a>(
    alloc: Global,
    context: &Context<'a>,
    tokens: &mut Tokens<'a>,
    out: &mut Vec<Event>,
    net: &Option<Name>,
    passes: bool,
) -> Result<bool, Stop>
    ensures { ReadsRow result context.now (conn_row net.now passes) context.now
        (conn_row net.now true) (parts net.now 1) tokens.old tokens.new out.old.items
        out.new.items }
{
    if tokens.take_pin_row().is_some() {
        connection(alloc, context, tokens, out, net, true)?;
        return Ok(true);
    }
    if tokens.take_text(b"*N").is_some() {
        connection(alloc, context, tokens, out, net, false)?;
        return Ok(true);
    }
    pass_over(context, tokens, out, net, passes)
}

/// Takes the connections of a net, of which the first word was taken.
fn conn_rows<'a>(
    alloc: Global,
    context: &Context<'a>,
    tokens: &mut Tokens<'a>,
    out: &mut Vec<Event>,
    net: &Option<Name>,
) -> Result<(), Stop>
    ensures { Reads result context.now (conn_row net.now false) context.now (parts net.now 1)
        tokens.old tokens.new out.old.items out.new.items }
{
    let mut passes = false;
    'each: while conn_step(alloc, context, tokens, out, net, passes)? {
        passes = true;
    }
    Ok(())
}

/// Takes the connections of a net, where they stand next.
#[tactic(auto, unfolding(crate::specs::Grammar::events))]
fn connections<'a>(
    alloc: Global,
    context: &Context<'a>,
    tokens: &mut Tokens<'a>,
    out: &mut Vec<Event>,
    net: &Option<Name>,
) -> Result<(), Stop>
    ensures { Reads result context.now (parts net.now 0) context.now (parts net.now 1) tokens.old
        tokens.new out.old.items out.new.items }
{
    if tokens.take_text(b"*CONN").is_none() {
        return Ok(());
    }
    conn_rows(alloc, context, tokens, out, net)
}

/// Takes the first node of a capacitance.
#[tactic(auto, unfolding(crate::specs::Grammar::events))]
fn cap_node<'a>(
    alloc: Global,
    context: &Context<'a>,
    tokens: &mut Tokens<'a>,
    out: &mut Vec<Event>,
    net: &Option<Name>,
    at: usize,
) -> Result<Option<RcNode>, Stop>
    ensures { ReadsValue result context.now (cap_node net.now at) (λ a. cap_next net.now at a)
        tokens.old tokens.new out.old.items out.new.items }
{
    let word = any(context, tokens, out)?;
    node(alloc, context, out, net, word)
}

/// Takes the value of a capacitance between two nodes.
#[tactic(auto, unfolding(crate::specs::Grammar::events))]
fn cap_value<'a>(
    context: &Context<'a>,
    tokens: &mut Tokens<'a>,
    out: &mut Vec<Event>,
    net: &Option<Name>,
    at: usize,
    a: Option<RcNode>,
    b: Option<RcNode>,
) -> Result<(), Stop>
    ensures { Reads result context.now (cap_value net.now at a b) context.now (cap_row net.now true)
        tokens.old tokens.new out.old.items out.new.items }
{
    let word = any(context, tokens, out)?;
    if !is_word(&word) {
        return Err(unexpected(context, out, false, &word));
    }
    let size = value(out, context.header.farad, &word)?;
    out.push(Event::Coupling(at, a, b, size))?;
    Ok(())
}

/// The size of a token that is a value; none where it is none.
fn value_in(unit: Option<Unit>, token: &Token<'_>) -> Option<Option<Size>>
    ensures { MatchOption result
        ((is_word (tok_of token.now) && is_some (written (tok_of token.now).text)) ≡ false)
        (λ size. ((is_word (tok_of token.now) && is_some (written (tok_of token.now).text)) ≡ true)
        × (size ≡ value_of unit (tok_of token.now).text)) }
{
    if is_word(token) {
        formed_value(unit, token.text)
    } else {
        None
    }
}

/// Writes a capacitance to ground, of which the value was taken and has this size.
fn ground(
    context: &Context<'_>,
    out: &mut Vec<Event>,
    a: Option<RcNode>,
    word: &Token<'_>,
    size: Option<Size>,
) -> Result<(), Memory>
    requires { size ≡ value_of context.now.header.farad (tok_of word.now).text }
    ensures { IfOk result
        (λ _. (rest : List Event) → out.new.items ++ rest
        ≡ out.old.items ++ noted (is_no_value context.now.header.farad (tok_of word.now).text)
        (bad_number word.now.start)
        (event.Ground a (value_of context.now.header.farad (tok_of word.now).text) ∷ rest)) }
{
    note_value(out, context.header.farad, word, &size)?;
    push(out, Event::Ground(a, size))
}

/// Takes the value of a capacitance, or its second node and then its value.
#[tactic(auto, unfolding(crate::specs::Grammar::events))]
fn cap_next<'a>(
    alloc: Global,
    context: &Context<'a>,
    tokens: &mut Tokens<'a>,
    out: &mut Vec<Event>,
    net: &Option<Name>,
    at: usize,
    a: Option<RcNode>,
) -> Result<(), Stop>
    ensures { Reads result context.now (cap_next net.now at a) context.now (cap_row net.now true)
        tokens.old tokens.new out.old.items out.new.items }
{
    let word = any(context, tokens, out)?;
    if let Some(size) = value_in(context.header.farad, &word) {
        ground(context, out, a, &word, size)?;
        return Ok(());
    }
    let b = node(alloc, context, out, net, word)?;
    cap_value(context, tokens, out, net, at, a, b)
}

/// Takes a capacitance, of which the number was taken.
fn capacitance<'a>(
    alloc: Global,
    context: &Context<'a>,
    tokens: &mut Tokens<'a>,
    out: &mut Vec<Event>,
    net: &Option<Name>,
    at: usize,
) -> Result<(), Stop>
    ensures { Reads result context.now (cap_node net.now at) context.now (cap_row net.now true)
        tokens.old tokens.new out.old.items out.new.items }
{
    let a = cap_node(alloc, context, tokens, out, net, at)?;
    cap_next(alloc, context, tokens, out, net, at, a)
}

/// Takes a capacitance; whether there was one.
#[tactic(auto, unfolding(crate::specs::Grammar::events))]
fn cap_step<'a>(
    alloc: Global,
    context: &Context<'a>,
    tokens: &mut Tokens<'a>,
    out: &mut Vec<Event>,
    net: &Option<Name>,
    valued: bool,
) -> Result<bool, Stop>
    ensures { ReadsRow result context.now (cap_row net.now valued) context.now
        (cap_row net.now true) (parts net.now 2) tokens.old tokens.new out.old.items out.new.items }
{
    if let Some(number) = tokens.take_digits() {
        capacitance(alloc, context, tokens, out, net, number.start)?;
        return Ok(true);
    }
    if valued {
        if let Some(word) = tokens.take_text(b"*SC") {
            return Err(leave_out(out, word.start));
        }
    }
    Ok(false)
}

/// Takes the capacitances of a net, of which the first word was taken.
fn cap_rows<'a>(
    alloc: Global,
    context: &Context<'a>,
    tokens: &mut Tokens<'a>,
    out: &mut Vec<Event>,
    net: &Option<Name>,
) -> Result<(), Stop>
    ensures { Reads result context.now (cap_row net.now false) context.now (parts net.now 2)
        tokens.old tokens.new out.old.items out.new.items }
{
    let mut valued = false;
    'each: while cap_step(alloc, context, tokens, out, net, valued)? {
        valued = true;
    }
    Ok(())
}

/// Takes the capacitances of a net, where they stand next.
#[tactic(auto, unfolding(crate::specs::Grammar::events))]
fn capacitances<'a>(
    alloc: Global,
    context: &Context<'a>,
    tokens: &mut Tokens<'a>,
    out: &mut Vec<Event>,
    net: &Option<Name>,
) -> Result<(), Stop>
    ensures { Reads result context.now (parts net.now 1) context.now (parts net.now 2) tokens.old
        tokens.new out.old.items out.new.items }
{
    if tokens.take_text(b"*CAP").is_none() {
        return Ok(());
    }
    cap_rows(alloc, context, tokens, out, net)
}

/// Takes the first node of a resistance.
#[tactic(auto, unfolding(crate::specs::Grammar::events))]
fn res_first<'a>(
    alloc: Global,
    context: &Context<'a>,
    tokens: &mut Tokens<'a>,
    out: &mut Vec<Event>,
    net: &Option<Name>,
) -> Result<Option<RcNode>, Stop>
    ensures { ReadsValue result context.now (res_first net.now) (λ a. res_second net.now a)
        tokens.old tokens.new out.old.items out.new.items }
{
    let word = any(context, tokens, out)?;
    node(alloc, context, out, net, word)
}

/// Takes the second node of a resistance.
#[tactic(auto, unfolding(crate::specs::Grammar::events))]
fn res_second<'a>(
    alloc: Global,
    context: &Context<'a>,
    tokens: &mut Tokens<'a>,
    out: &mut Vec<Event>,
    net: &Option<Name>,
    a: &Option<RcNode>,
) -> Result<Option<RcNode>, Stop>
    ensures { ReadsValue result context.now (res_second net.now a.now)
        (λ b. res_value net.now a.now b) tokens.old tokens.new out.old.items out.new.items }
{
    let word = any(context, tokens, out)?;
    node(alloc, context, out, net, word)
}

/// Takes the value of a resistance.
#[tactic(auto, unfolding(crate::specs::Grammar::events))]
fn res_value<'a>(
    context: &Context<'a>,
    tokens: &mut Tokens<'a>,
    out: &mut Vec<Event>,
    net: &Option<Name>,
    a: Option<RcNode>,
    b: Option<RcNode>,
) -> Result<(), Stop>
    ensures { Reads result context.now (res_value net.now a b) context.now (res_row net.now true)
        tokens.old tokens.new out.old.items out.new.items }
{
    let word = any(context, tokens, out)?;
    if !is_word(&word) {
        return Err(unexpected(context, out, false, &word));
    }
    let size = value(out, context.header.ohm, &word)?;
    out.push(Event::Resistor(a, b, size))?;
    Ok(())
}

/// Takes a resistance, of which the number was taken.
fn resistance<'a>(
    alloc: Global,
    context: &Context<'a>,
    tokens: &mut Tokens<'a>,
    out: &mut Vec<Event>,
    net: &Option<Name>,
) -> Result<(), Stop>
    ensures { Reads result context.now (res_first net.now) context.now (res_row net.now true)
        tokens.old tokens.new out.old.items out.new.items }
{
    let a = res_first(alloc, context, tokens, out, net)?;
    let b = res_second(alloc, context, tokens, out, net, &a)?;
    res_value(context, tokens, out, net, a, b)
}

/// Takes a resistance; whether there was one.
#[tactic(auto, unfolding(crate::specs::Grammar::events))]
fn res_step<'a>(
    alloc: Global,
    context: &Context<'a>,
    tokens: &mut Tokens<'a>,
    out: &mut Vec<Event>,
    net: &Option<Name>,
    valued: bool,
) -> Result<bool, Stop>
    ensures { ReadsRow result context.now (res_row net.now valued) context.now
        (res_row net.now true) (parts net.now 3) tokens.old tokens.new out.old.items out.new.items }
{
    if tokens.take_digits().is_some() {
        resistance(alloc, context, tokens, out, net)?;
        return Ok(true);
    }
    if valued {
        if let Some(word) = tokens.take_text(b"*SC") {
            return Err(leave_out(out, word.start));
        }
    }
    Ok(false)
}

/// Takes the resistances of a net, of which the first word was taken.
fn res_rows<'a>(
    alloc: Global,
    context: &Context<'a>,
    tokens: &mut Tokens<'a>,
    out: &mut Vec<Event>,
    net: &Option<Name>,
) -> Result<(), Stop>
    ensures { Reads result context.now (res_row net.now false) context.now (parts net.now 3)
        tokens.old tokens.new out.old.items out.new.items }
{
    let mut valued = false;
    'each: while res_step(alloc, context, tokens, out, net, valued)? {
        valued = true;
    }
    Ok(())
}

/// Takes the resistances of a net, where they stand next.
#[tactic(auto, unfolding(crate::specs::Grammar::events))]
fn resistances<'a>(
    alloc: Global,
    context: &Context<'a>,
    tokens: &mut Tokens<'a>,
    out: &mut Vec<Event>,
    net: &Option<Name>,
) -> Result<(), Stop>
    ensures { Reads result context.now (parts net.now 2) context.now (parts net.now 3) tokens.old
        tokens.new out.old.items out.new.items }
{
    if tokens.take_text(b"*RES").is_none() {
        return Ok(());
    }
    res_rows(alloc, context, tokens, out, net)
}

/// Takes the end of a net.
#[tactic(auto, unfolding(crate::specs::Grammar::events))]
fn net_end<'a>(
    context: &Context<'a>,
    tokens: &mut Tokens<'a>,
    out: &mut Vec<Event>,
    net: &Option<Name>,
) -> Result<(), Stop>
    ensures { Reads result context.now (parts net.now 3) context.now section tokens.old tokens.new
        out.old.items out.new.items }
{
    let word = any(context, tokens, out)?;
    if is(&word, b"*END") {
        out.push(Event::End)?;
        return Ok(());
    }
    if is(&word, b"*INDUC") {
        return Err(leave_out(out, word.start));
    }
    Err(unexpected(context, out, false, &word))
}

/// Takes the parts of a net, and its end.
fn parts<'a>(
    alloc: Global,
    context: &Context<'a>,
    tokens: &mut Tokens<'a>,
    out: &mut Vec<Event>,
    net: &Option<Name>,
) -> Result<(), Stop>
    ensures { Reads result context.now (parts net.now 0) context.now section tokens.old tokens.new
        out.old.items out.new.items }
{
    connections(alloc, context, tokens, out, net)?;
    capacitances(alloc, context, tokens, out, net)?;
    resistances(alloc, context, tokens, out, net)?;
    net_end(context, tokens, out, net)
}

/// Takes a net, of which the first word was taken.
pub(crate) fn net<'a>(
    alloc: Global,
    context: &Context<'a>,
    tokens: &mut Tokens<'a>,
    out: &mut Vec<Event>,
    at: usize,
) -> Result<(), Stop>
    ensures { Reads result context.now (net_name at) context.now section tokens.old tokens.new
        out.old.items out.new.items }
{
    let net = net_name(alloc, context, tokens, out, at)?;
    total(context, tokens, out, &net)?;
    behind_total(context, tokens, out, &net)?;
    parts(alloc, context, tokens, out, &net)
}
