//! The header of a module, and its declarations.

ghost use Rattle.std.specs.Prelude.{◌≡◌, ◌<◌, ◌++◌, ◌∷◌, [], ℕ, List, true, false, length, IfOk, MatchResult, None, Some, if◌then◌else◌, Option};
ghost use Rattle.sta_units.specs.Decimal.{number_on};
ghost use Rattle.sta_text.specs.Tokens.{Tok, tok_of};
ghost use Rattle.verilog_netlist.specs.Lexicon.{spelled, is_identifier, has_colon};
ghost use Rattle.verilog_netlist.specs.Grammar.{State, events, at_name, at_port, is_header, is_port, is_output, next_of, scalar, vector, declared, port_event, start, module_name, ports_open, first_port, port, port_next, head_end, type_of, range_of, range_first, range_colon, range_last, range_close, declared_name, declared_next, item};
ghost use Rattle.verilog_netlist.specs.Reads.{Names, Reads, ReadsValue, ports_place, declared_place, header_place};

use crate::cursor::{
    Stop, any, identifier, is, leave_out, no_module, number, text, unexpected, write,
};
use crate::events::{Event, Kind, Role, Span};
use crate::lexicon::{has_colon, is_identifier, is_variable_type, name_of, number_of, spelled};
use sta_text::{Cursor, Token};
use std::alloc::Global;
use timing_defs::Name;

impl Role {
    /// Whether it is of a declaration in the header.
    pub(crate) fn is_header(self) -> bool
        ensures { result ≡ is_header self }
    {
        match self {
            Role::HeaderInput | Role::HeaderOutput => true,
            Role::Input | Role::Output | Role::Wire => false,
        }
    }

    /// Whether it is of a port.
    pub(crate) fn is_port(self) -> bool
        ensures { result ≡ is_port self }
    {
        match self {
            Role::Wire => false,
            Role::HeaderInput | Role::HeaderOutput | Role::Input | Role::Output => true,
        }
    }

    /// Whether it is of an output.
    pub(crate) fn is_output(self) -> bool
        ensures { result ≡ is_output self }
    {
        match self {
            Role::HeaderOutput | Role::Output => true,
            Role::HeaderInput | Role::Input | Role::Wire => false,
        }
    }
}

/// Takes `module`.
#[tactic(auto, unfolding(crate::specs::Grammar::events))]
fn module_word(cursor: &mut Cursor<'_>, size: usize, out: &mut Vec<Event>) -> Result<(), Stop>
    ensures { Reads result size start module_name cursor.old cursor.new out.old.items
        out.new.items }
{
    match cursor.next() {
        None => Err(no_module(out, size)),
        Some(token) => {
            if is(&token, b"module") {
                return Ok(());
            }
            Err(unexpected(out, size, &token))
        }
    }
}

/// Takes the module's name.
#[tactic(auto, unfolding(crate::specs::Grammar::events))]
fn module_name(
    alloc: Global,
    cursor: &mut Cursor<'_>,
    size: usize,
    out: &mut Vec<Event>,
) -> Result<(), Stop>
    ensures { Reads result size module_name ports_open cursor.old cursor.new out.old.items
        out.new.items }
{
    let token = identifier(cursor, size, out)?;
    let name = name_of(alloc, token.text)?;
    write(out, Event::Module(name))
}

/// Takes the bracket before the ports.
#[tactic(auto, unfolding(crate::specs::Grammar::events))]
fn ports_open(cursor: &mut Cursor<'_>, size: usize, out: &mut Vec<Event>) -> Result<(), Stop>
    ensures { Reads result size ports_open first_port cursor.old cursor.new out.old.items
        out.new.items }
{
    let token = any(cursor, size, out)?;
    if is(&token, b"(") {
        return Ok(());
    }
    if is(&token, b"#") {
        return Err(leave_out(out, token.start));
    }
    Err(unexpected(out, size, &token))
}

/// Writes the event of a declared name, of which the token was taken.
fn declare(
    alloc: Global,
    size: usize,
    out: &mut Vec<Event>,
    kind: Kind,
    token: Token<'_>,
) -> Result<(), Stop>
    ensures { Names result size (is_port kind.role) (tok_of token.entry)
        (declared kind (spelled (tok_of token.entry).text) token.entry.start) out.old.items
        out.new.items }
{
    if !is_identifier(token.text) {
        return Err(unexpected(out, size, &token));
    }
    if kind.role.is_port() && has_colon(spelled(token.text)) {
        return Err(leave_out(out, token.start));
    }
    let name = name_of(alloc, token.text)?;
    write(out, Event::Declared(kind, name, token.start))
}

/// The event of a port of the header: a name alone, or one of the kind that was declared before it.
fn port_event(kind: Option<Kind>, name: Name, at: usize) -> Event
    ensures { result ≡ port_event kind name at }
{
    match kind {
        None => Event::Header(name, at),
        Some(kind) => Event::Declared(kind, name, at),
    }
}

/// Writes the event of a port of the header, of which the token was taken.
fn list_port(
    alloc: Global,
    size: usize,
    out: &mut Vec<Event>,
    kind: Option<Kind>,
    token: Token<'_>,
) -> Result<(), Stop>
    ensures { Names result size true (tok_of token.entry)
        (port_event kind (spelled (tok_of token.entry).text) token.entry.start) out.old.items
        out.new.items }
{
    if !is_identifier(token.text) {
        return Err(unexpected(out, size, &token));
    }
    if has_colon(spelled(token.text)) {
        return Err(leave_out(out, token.start));
    }
    let name = name_of(alloc, token.text)?;
    write(out, port_event(kind, name, token.start))
}

/// Takes a range, of which the opening bracket was taken.
#[tactic(auto, unfolding(crate::specs::Grammar::events))]
fn range(
    cursor: &mut Cursor<'_>,
    size: usize,
    out: &mut Vec<Event>,
    role: Role,
) -> Result<Kind, Stop>
    ensures reads { ReadsValue result size (range_first role) (λ kind. declared_name kind)
        cursor.old cursor.new out.old.items out.new.items }
    ensures role { IfOk result (λ kind. kind.role ≡ role) }
{
    let first = number(cursor, size, out)?;
    let _ = text(cursor, size, out, b":")?;
    let last = number(cursor, size, out)?;
    let _ = text(cursor, size, out, b"]")?;
    let span = Span {
        first: number_of(first.text),
        last: number_of(last.text),
    };
    Ok(Kind {
        role,
        span: Some(span),
    })
}

/// Takes the name of a vector behind its range.
#[tactic(auto, unfolding(crate::specs::Grammar::events))]
fn declared_name(
    alloc: Global,
    cursor: &mut Cursor<'_>,
    size: usize,
    out: &mut Vec<Event>,
    kind: Kind,
) -> Result<(), Stop>
    ensures { Reads result size (declared_name kind) (next_of kind) cursor.old cursor.new
        out.old.items out.new.items }
{
    let token = any(cursor, size, out)?;
    declare(alloc, size, out, kind, token)
}

/// Takes the first name of a declaration, perhaps behind a range, of which a token was taken.
#[tactic(auto, unfolding(crate::specs::Grammar::events))]
fn range_or_name(
    alloc: Global,
    cursor: &mut Cursor<'_>,
    size: usize,
    out: &mut Vec<Event>,
    role: Role,
    token: Token<'_>,
) -> Result<Kind, Stop>
    ensures reads { ReadsValue result size (range_of role) (λ kind. next_of kind)
        (tok_of token.entry ∷ cursor.old) cursor.new out.old.items out.new.items }
    ensures role { IfOk result (λ kind. kind.role ≡ role) }
{
    if is(&token, b"[") {
        let kind = range(cursor, size, out, role)?;
        declared_name(alloc, cursor, size, out, kind)?;
        return Ok(kind);
    }
    let kind = Kind { role, span: None };
    declare(alloc, size, out, kind, token)?;
    Ok(kind)
}

/// Takes the type and the first name of a declaration, of which the keyword was taken.
#[tactic(auto, unfolding(crate::specs::Grammar::events))]
pub(crate) fn first_declared(
    alloc: Global,
    cursor: &mut Cursor<'_>,
    size: usize,
    out: &mut Vec<Event>,
    role: Role,
) -> Result<Kind, Stop>
    ensures reads { ReadsValue result size (type_of role) (λ kind. next_of kind) cursor.old
        cursor.new out.old.items out.new.items }
    ensures role { IfOk result (λ kind. kind.role ≡ role) }
{
    let token = any(cursor, size, out)?;
    if role.is_header() && is(&token, b"wire") {
        let first = any(cursor, size, out)?;
        return range_or_name(alloc, cursor, size, out, role, first);
    }
    if role.is_output() && is_variable_type(token.text) {
        return Err(leave_out(out, token.start));
    }
    range_or_name(alloc, cursor, size, out, role, token)
}

/// Takes what stands behind a name that a declaration in the body declares; whether another name
/// comes.
#[tactic(auto, unfolding(crate::specs::Grammar::events))]
fn more_declared(
    cursor: &mut Cursor<'_>,
    size: usize,
    out: &mut Vec<Event>,
    kind: Kind,
) -> Result<bool, Stop>
    ensures { ReadsValue result size (declared_next kind) (λ more. declared_place more kind)
        cursor.old cursor.new out.old.items out.new.items }
{
    let token = any(cursor, size, out)?;
    if is(&token, b",") {
        return Ok(true);
    }
    if is(&token, b";") {
        return Ok(false);
    }
    Err(unexpected(out, size, &token))
}

/// Takes a declaration in the body, of which the keyword was taken.
pub(crate) fn declaration(
    alloc: Global,
    cursor: &mut Cursor<'_>,
    size: usize,
    out: &mut Vec<Event>,
    role: Role,
) -> Result<(), Stop>
    requires { is_header role ≡ false }
    ensures { Reads result size (type_of role) item cursor.old cursor.new out.old.items
        out.new.items }
{
    let kind = first_declared(alloc, cursor, size, out, role)?;
    'each: while more_declared(cursor, size, out, kind)? {
        declared_name(alloc, cursor, size, out, kind)?;
    }
    Ok(())
}

/// Takes a port of the header, of which the first token was taken.
#[tactic(auto, unfolding(crate::specs::Grammar::events))]
fn port(
    alloc: Global,
    cursor: &mut Cursor<'_>,
    size: usize,
    out: &mut Vec<Event>,
    kind: Option<Kind>,
    token: Token<'_>,
) -> Result<Option<Kind>, Stop>
    ensures { ReadsValue result size (port kind) (λ next. port_next next)
        (tok_of token.entry ∷ cursor.old) cursor.new out.old.items out.new.items }
{
    if is(&token, b"input") {
        let first = first_declared(alloc, cursor, size, out, Role::HeaderInput)?;
        return Ok(Some(first));
    }
    if is(&token, b"output") {
        let first = first_declared(alloc, cursor, size, out, Role::HeaderOutput)?;
        return Ok(Some(first));
    }
    if is(&token, b"inout") || is(&token, b"{") {
        return Err(leave_out(out, token.start));
    }
    list_port(alloc, size, out, kind, token)?;
    Ok(kind)
}

/// Takes what stands behind a port of the header; whether another port comes.
#[tactic(auto, unfolding(crate::specs::Grammar::events))]
fn more_ports(
    cursor: &mut Cursor<'_>,
    size: usize,
    out: &mut Vec<Event>,
    kind: Option<Kind>,
) -> Result<bool, Stop>
    ensures { ReadsValue result size (port_next kind) (λ more. header_place more kind) cursor.old
        cursor.new out.old.items out.new.items }
{
    let token = any(cursor, size, out)?;
    if is(&token, b",") {
        return Ok(true);
    }
    if is(&token, b")") {
        return Ok(false);
    }
    Err(unexpected(out, size, &token))
}

/// Takes the first port of the header, or the end of an empty list.
#[tactic(auto, unfolding(crate::specs::Grammar::events))]
fn first_port(
    alloc: Global,
    cursor: &mut Cursor<'_>,
    size: usize,
    out: &mut Vec<Event>,
) -> Result<Option<Option<Kind>>, Stop>
    ensures { ReadsValue result size first_port ports_place cursor.old cursor.new out.old.items
        out.new.items }
{
    let token = any(cursor, size, out)?;
    if is(&token, b")") {
        return Ok(None);
    }
    let kind = port(alloc, cursor, size, out, None, token)?;
    Ok(Some(kind))
}

/// Takes the next port of the header, behind a comma.
#[tactic(auto, unfolding(crate::specs::Grammar::events))]
fn next_port(
    alloc: Global,
    cursor: &mut Cursor<'_>,
    size: usize,
    out: &mut Vec<Event>,
    kind: Option<Kind>,
) -> Result<Option<Kind>, Stop>
    ensures { ReadsValue result size (port kind) (λ next. port_next next) cursor.old cursor.new
        out.old.items out.new.items }
{
    let token = any(cursor, size, out)?;
    port(alloc, cursor, size, out, kind, token)
}

/// Takes the ports of the header.
fn ports(
    alloc: Global,
    cursor: &mut Cursor<'_>,
    size: usize,
    out: &mut Vec<Event>,
) -> Result<(), Stop>
    ensures { Reads result size first_port head_end cursor.old cursor.new out.old.items
        out.new.items }
{
    let Some(mut kind) = first_port(alloc, cursor, size, out)? else {
        return Ok(());
    };
    'each: while more_ports(cursor, size, out, kind)? {
        kind = next_port(alloc, cursor, size, out, kind)?;
    }
    Ok(())
}

/// Takes the end of the header.
#[tactic(auto, unfolding(crate::specs::Grammar::events))]
fn head_end(cursor: &mut Cursor<'_>, size: usize, out: &mut Vec<Event>) -> Result<(), Stop>
    ensures { Reads result size head_end item cursor.old cursor.new out.old.items out.new.items }
{
    let _ = text(cursor, size, out, b";")?;
    Ok(())
}

/// Takes the header of the module.
pub(crate) fn header(
    alloc: Global,
    cursor: &mut Cursor<'_>,
    size: usize,
    out: &mut Vec<Event>,
) -> Result<(), Stop>
    ensures { Reads result size start item cursor.old cursor.new out.old.items out.new.items }
{
    module_word(cursor, size, out)?;
    module_name(alloc, cursor, size, out)?;
    ports_open(cursor, size, out)?;
    ports(alloc, cursor, size, out)?;
    head_end(cursor, size, out)
}
