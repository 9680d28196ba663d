//! The items of a module: declarations and instances.

ghost use Rattle.std.specs.Prelude.{◌≡◌, ◌<◌, ◌++◌, ◌∷◌, [], ℕ, List, true, false, length, codes, IfOk, MatchResult, if◌then◌else◌};
ghost use Rattle.std.specs.Str.{bytes_eq};
ghost use Rattle.sta_text.specs.Tokens.{tok_of};
ghost use Rattle.verilog_netlist.specs.Lexicon.{spelled, is_identifier};
ghost use Rattle.verilog_netlist.specs.Grammar.{events, start, item, inst_name, inst_open, first_conn, conn, pin_name, net_open, net, net_next, bit_number, net_close, conn_next, inst_end, behind, events_of};
ghost use Rattle.verilog_netlist.specs.Reads.{Reads, ReadsValue, Ends, whole, conn_place, first_place, item_place};
ghost use Rattle.verilog_netlist.specs.declared.events.Event.TheVariants as event;
ghost use Rattle.verilog_netlist.specs.declared.events.Net.TheVariants as net_is;

use crate::cursor::{Stop, any, identifier, is, leave_out, number, text, unexpected, write};
use crate::events::{Event, Net, Role};
use crate::header::{declaration, header};
use crate::lexicon::{
    begins_expression, is_constant, is_identifier, is_left_out_item, name_of, number_of,
};
use crate::names::bit_of;
use sta_text::{Cursor, Token};
use sta_units::Memory;
use std::alloc::Global;
use timing_defs::{Name, Style};

/// Takes the number of a bit of a net and what closes it, of which the name and the opening bracket
/// were taken; the bit's name.
#[tactic(auto, unfolding(crate::specs::Grammar::events))]
fn bit_taken(
    alloc: Global,
    cursor: &mut Cursor<'_>,
    size: usize,
    out: &mut Vec<Event>,
    pin: &Name,
    token: Token<'_>,
) -> Result<Name, Stop>
    requires { is_identifier token.text.now ≡ true }
    ensures { MatchResult result
        (λ name. (out.new.items
        ++ event.Connection pin.now (net_is.Bit name token.entry.start)
        ∷ events size net_close cursor.new
        ≡ whole size (bit_number pin.now (spelled token.entry.text.now) token.entry.start)
        cursor.old out.old.items)
        × (length cursor.new < length cursor.old))
        (λ stop. stop ≡ Stop.Refused → out.new.items
        ≡ whole size (bit_number pin.now (spelled token.entry.text.now) token.entry.start)
        cursor.old out.old.items) }
{
    let place = number(cursor, size, out)?;
    let close = any(cursor, size, out)?;
    if is(&close, b"]") {
        return match bit_of(alloc, token.text, number_of(place.text)) {
            Ok(name) => Ok(name),
            Err(Memory) => Err(Stop::Memory),
        };
    }
    if is(&close, b":") {
        return Err(leave_out(out, token.start));
    }
    Err(unexpected(out, size, &close))
}

/// Takes the number of a bit of a net, of which the name and the opening bracket were taken.
fn bit(
    alloc: Global,
    cursor: &mut Cursor<'_>,
    size: usize,
    out: &mut Vec<Event>,
    pin: Name,
    token: Token<'_>,
) -> Result<(), Stop>
    requires { is_identifier token.text.now ≡ true }
    ensures { Reads result size (bit_number pin (spelled token.entry.text.now) token.entry.start)
        net_close cursor.old cursor.new out.old.items out.new.items }
{
    match bit_taken(alloc, cursor, size, out, &pin, token) {
        Ok(name) => write(out, Event::Connection(pin, Net::Bit(name, token.start))),
        Err(stop) => {
            drop(pin);
            Err(stop)
        }
    }
}

/// Takes the end of a connection behind a bit or a constant.
#[tactic(auto, unfolding(crate::specs::Grammar::events))]
fn net_close(cursor: &mut Cursor<'_>, size: usize, out: &mut Vec<Event>) -> Result<(), Stop>
    ensures { Reads result size net_close conn_next cursor.old cursor.new out.old.items
        out.new.items }
{
    let _ = text(cursor, size, out, b")")?;
    Ok(())
}

/// Writes the connection of a pin to a net that is a name alone.
fn whole_net(alloc: Global, out: &mut Vec<Event>, pin: Name, token: Token<'_>) -> Result<(), Stop>
    requires { is_identifier token.text.now ≡ true }
    ensures { MatchResult result
        (λ _. out.new.items
        ≡ out.old.items
        ++ event.Connection pin (net_is.Alone (spelled token.entry.text.now) token.entry.start) ∷ [])
        (λ stop. stop ≡ Stop.Memory) }
{
    match name_of(alloc, token.text) {
        Ok(name) => write(out, Event::Connection(pin, Net::Alone(name, token.start))),
        Err(Memory) => {
            drop(pin);
            Err(Stop::Memory)
        }
    }
}

/// Takes the net of a pin, of which the name was taken.
#[tactic(auto, unfolding(crate::specs::Grammar::events))]
fn named_net(
    alloc: Global,
    cursor: &mut Cursor<'_>,
    size: usize,
    out: &mut Vec<Event>,
    pin: Name,
    token: Token<'_>,
) -> Result<(), Stop>
    requires { is_identifier token.text.now ≡ true }
    ensures { Reads result size (net_next pin (spelled token.entry.text.now) token.entry.start)
        conn_next cursor.old cursor.new out.old.items out.new.items }
{
    let next = match any(cursor, size, out) {
        Ok(next) => next,
        Err(stop) => {
            drop(pin);
            return Err(stop);
        }
    };
    if is(&next, b")") {
        return whole_net(alloc, out, pin, token);
    }
    if is(&next, b"[") {
        bit(alloc, cursor, size, out, pin, token)?;
        return net_close(cursor, size, out);
    }
    drop(pin);
    Err(unexpected(out, size, &next))
}

/// Takes the net of a pin, of which the opening bracket was taken.
#[tactic(auto, unfolding(crate::specs::Grammar::events))]
fn net(
    alloc: Global,
    cursor: &mut Cursor<'_>,
    size: usize,
    out: &mut Vec<Event>,
    pin: Name,
) -> Result<(), Stop>
    ensures { Reads result size (net pin) conn_next cursor.old cursor.new out.old.items
        out.new.items }
{
    let token = match any(cursor, size, out) {
        Ok(token) => token,
        Err(stop) => {
            drop(pin);
            return Err(stop);
        }
    };
    if is(&token, b")") {
        return write(out, Event::Connection(pin, Net::Tied));
    }
    if is_constant(token.text) {
        write(out, Event::Connection(pin, Net::Tied))?;
        return net_close(cursor, size, out);
    }
    if is(&token, b"{") {
        drop(pin);
        return Err(leave_out(out, token.start));
    }
    if is_identifier(token.text) {
        return named_net(alloc, cursor, size, out, pin, token);
    }
    drop(pin);
    Err(unexpected(out, size, &token))
}

/// Takes the pin of a connection and the bracket before its net.
#[tactic(auto, unfolding(crate::specs::Grammar::events))]
fn pin(
    alloc: Global,
    cursor: &mut Cursor<'_>,
    size: usize,
    out: &mut Vec<Event>,
) -> Result<Name, Stop>
    ensures { ReadsValue result size pin_name (λ pin. net pin) cursor.old cursor.new out.old.items
        out.new.items }
{
    let token = identifier(cursor, size, out)?;
    let name = name_of(alloc, token.text)?;
    write(out, Event::Pin(name, token.start))?;
    let _ = text(cursor, size, out, b"(")?;
    match name_of(alloc, token.text) {
        Ok(pin) => Ok(pin),
        Err(Memory) => Err(Stop::Memory),
    }
}

/// Takes a connection, of which the first token was taken.
#[tactic(auto, unfolding(crate::specs::Grammar::events))]
fn connection(
    alloc: Global,
    cursor: &mut Cursor<'_>,
    size: usize,
    out: &mut Vec<Event>,
    token: Token<'_>,
) -> Result<(), Stop>
    ensures { Reads result size conn conn_next (tok_of token.entry ∷ cursor.old) cursor.new
        out.old.items out.new.items }
{
    if is(&token, b".") {
        let pin = pin(alloc, cursor, size, out)?;
        return net(alloc, cursor, size, out, pin);
    }
    if begins_expression(token.text) {
        return Err(leave_out(out, token.start));
    }
    Err(unexpected(out, size, &token))
}

/// Takes the first connection of an instance, or the end of an empty list.
#[tactic(auto, unfolding(crate::specs::Grammar::events))]
fn first_connection(
    alloc: Global,
    cursor: &mut Cursor<'_>,
    size: usize,
    out: &mut Vec<Event>,
) -> Result<bool, Stop>
    ensures { ReadsValue result size first_conn first_place cursor.old cursor.new out.old.items
        out.new.items }
{
    let token = any(cursor, size, out)?;
    if is(&token, b")") {
        return Ok(false);
    }
    connection(alloc, cursor, size, out, token)?;
    Ok(true)
}

/// Takes what stands behind a connection; whether another one comes.
#[tactic(auto, unfolding(crate::specs::Grammar::events))]
fn more_connections(
    cursor: &mut Cursor<'_>,
    size: usize,
    out: &mut Vec<Event>,
) -> Result<bool, Stop>
    ensures { ReadsValue result size conn_next conn_place cursor.old cursor.new out.old.items
        out.new.items }
{
    let token = any(cursor, size, out)?;
    if is(&token, b",") {
        return Ok(true);
    }
    if is(&token, b")") {
        return Ok(false);
    }
    Err(unexpected(out, size, &token))
}

/// Takes the next connection of an instance, behind a comma.
#[tactic(auto, unfolding(crate::specs::Grammar::events))]
fn next_connection(
    alloc: Global,
    cursor: &mut Cursor<'_>,
    size: usize,
    out: &mut Vec<Event>,
) -> Result<(), Stop>
    ensures { Reads result size conn conn_next cursor.old cursor.new out.old.items out.new.items }
{
    let token = any(cursor, size, out)?;
    connection(alloc, cursor, size, out, token)
}

/// Takes the connections of an instance.
fn connections(
    alloc: Global,
    cursor: &mut Cursor<'_>,
    size: usize,
    out: &mut Vec<Event>,
) -> Result<(), Stop>
    ensures { Reads result size first_conn inst_end cursor.old cursor.new out.old.items
        out.new.items }
{
    if !first_connection(alloc, cursor, size, out)? {
        return Ok(());
    }
    'each: while more_connections(cursor, size, out)? {
        next_connection(alloc, cursor, size, out)?;
    }
    Ok(())
}

/// Writes the instance of a cell, of which the name was taken.
fn instance_named(
    alloc: Global,
    out: &mut Vec<Event>,
    cell: Name,
    token: Token<'_>,
) -> Result<(), Stop>
    requires { is_identifier token.text.now ≡ true }
    ensures { MatchResult result
        (λ _. out.new.items
        ≡ out.old.items
        ++ event.Instance cell (spelled token.entry.text.now) token.entry.start ∷ [])
        (λ stop. stop ≡ Stop.Memory) }
{
    match name_of(alloc, token.text) {
        Ok(name) => write(out, Event::Instance(cell, name, token.start)),
        Err(Memory) => {
            drop(cell);
            Err(Stop::Memory)
        }
    }
}

/// Takes the name of an instance.
#[tactic(auto, unfolding(crate::specs::Grammar::events))]
fn inst_name(
    alloc: Global,
    cursor: &mut Cursor<'_>,
    size: usize,
    out: &mut Vec<Event>,
    cell: Name,
) -> Result<(), Stop>
    ensures { Reads result size (inst_name cell) inst_open cursor.old cursor.new out.old.items
        out.new.items }
{
    let token = match any(cursor, size, out) {
        Ok(token) => token,
        Err(stop) => {
            drop(cell);
            return Err(stop);
        }
    };
    if is_identifier(token.text) {
        return instance_named(alloc, out, cell, token);
    }
    drop(cell);
    if is(&token, b"#") {
        return Err(leave_out(out, token.start));
    }
    Err(unexpected(out, size, &token))
}

/// Takes the bracket before the connections.
#[tactic(auto, unfolding(crate::specs::Grammar::events))]
fn inst_open(cursor: &mut Cursor<'_>, size: usize, out: &mut Vec<Event>) -> Result<(), Stop>
    ensures { Reads result size inst_open first_conn cursor.old cursor.new out.old.items
        out.new.items }
{
    let _ = text(cursor, size, out, b"(")?;
    Ok(())
}

/// Takes the end of an instance.
#[tactic(auto, unfolding(crate::specs::Grammar::events))]
fn inst_end(cursor: &mut Cursor<'_>, size: usize, out: &mut Vec<Event>) -> Result<(), Stop>
    ensures { Reads result size inst_end item cursor.old cursor.new out.old.items out.new.items }
{
    let _ = text(cursor, size, out, b";")?;
    Ok(())
}

/// Takes an instance, of which the cell was taken.
fn instance(
    alloc: Global,
    cursor: &mut Cursor<'_>,
    size: usize,
    out: &mut Vec<Event>,
    token: Token<'_>,
) -> Result<(), Stop>
    requires { is_identifier token.text.now ≡ true }
    ensures { Reads result size (inst_name (spelled token.entry.text.now)) item cursor.old
        cursor.new (out.old.items ++ Event.CellWord token.entry.start ∷ []) out.new.items }
{
    write(out, Event::CellWord(token.start))?;
    let cell = name_of(alloc, token.text)?;
    inst_name(alloc, cursor, size, out, cell)?;
    inst_open(cursor, size, out)?;
    connections(alloc, cursor, size, out)?;
    inst_end(cursor, size, out)
}

/// Takes an item other than a declaration, of which the first token was taken; whether the module
/// goes on.
#[tactic(auto, unfolding(crate::specs::Grammar::events))]
fn other_item(
    alloc: Global,
    cursor: &mut Cursor<'_>,
    size: usize,
    out: &mut Vec<Event>,
    token: Token<'_>,
) -> Result<bool, Stop>
    requires input { bytes_eq token.text.now (codes "input") ≡ false }
    requires output { bytes_eq token.text.now (codes "output") ≡ false }
    requires wire { bytes_eq token.text.now (codes "wire") ≡ false }
    ensures { ReadsValue result size item item_place (tok_of token.entry ∷ cursor.old) cursor.new
        out.old.items out.new.items }
{
    if is(&token, b"endmodule") {
        return Ok(false);
    }
    if is_left_out_item(token.text) {
        return Err(leave_out(out, token.start));
    }
    if !is_identifier(token.text) {
        return Err(unexpected(out, size, &token));
    }
    instance(alloc, cursor, size, out, token)?;
    Ok(true)
}

/// Takes an item; whether the module goes on.
#[tactic(auto, unfolding(crate::specs::Grammar::events))]
fn item(
    alloc: Global,
    cursor: &mut Cursor<'_>,
    size: usize,
    out: &mut Vec<Event>,
) -> Result<bool, Stop>
    ensures { ReadsValue result size item item_place cursor.old cursor.new out.old.items
        out.new.items }
{
    let token = any(cursor, size, out)?;
    if is(&token, b"input") {
        declaration(alloc, cursor, size, out, Role::Input)?;
        return Ok(true);
    }
    if is(&token, b"output") {
        declaration(alloc, cursor, size, out, Role::Output)?;
        return Ok(true);
    }
    if is(&token, b"wire") {
        declaration(alloc, cursor, size, out, Role::Wire)?;
        return Ok(true);
    }
    other_item(alloc, cursor, size, out, token)
}

/// Takes the items of the module and its end.
fn items(
    alloc: Global,
    cursor: &mut Cursor<'_>,
    size: usize,
    out: &mut Vec<Event>,
) -> Result<(), Stop>
    ensures { Reads result size item behind cursor.old cursor.new out.old.items out.new.items }
{
    'each: while item(alloc, cursor, size, out)? {}
    Ok(())
}

/// Takes the end of the text.
#[tactic(auto, unfolding(crate::specs::Grammar::events))]
fn text_end(cursor: &mut Cursor<'_>, size: usize, out: &mut Vec<Event>) -> Result<(), Stop>
    ensures { Ends result size behind cursor.old out.old.items out.new.items }
{
    match cursor.next() {
        None => Ok(()),
        Some(token) => {
            if is(&token, b"module") {
                return Err(leave_out(out, token.start));
            }
            Err(unexpected(out, size, &token))
        }
    }
}

fn whole_text(
    alloc: Global,
    cursor: &mut Cursor<'_>,
    size: usize,
    out: &mut Vec<Event>,
) -> Result<(), Stop>
    ensures { Ends result size start cursor.old out.old.items out.new.items }
{
    header(alloc, cursor, size, out)?;
    items(alloc, cursor, size, out)?;
    text_end(cursor, size, out)
}

/// What the text writes, up to its end or to its first token that does not fit.
pub(crate) fn events_of(alloc: Global, bytes: &[u8]) -> Result<Vec<Event>, Memory>
    ensures { IfOk result (λ found. found.items ≡ events_of bytes.now) }
{
    let mut cursor = Cursor::new(bytes, Style::Verilog);
    let mut out = Vec::new(alloc);
    match whole_text(alloc, &mut cursor, bytes.len(), &mut out) {
        Ok(()) | Err(Stop::Refused) => Ok(out),
        Err(Stop::Memory) => {
            drop(out);
            Err(Memory)
        }
    }
}
