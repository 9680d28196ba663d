//! The names and nodes of a text of parasitics.

ghost use Rattle.std.specs.Prelude.{◌≡◌, ◌<◌, ◌≤◌, ◌+◌, ◌^◌, ◌++◌, ◌∷◌, ◌&&◌, List, true, false, not, is_some, length, take, drop, slice_get, Some, None, IfOk, IfSome, MatchOption, MatchResult, option_map};
ghost use Rattle.sta_units.specs.Decimal.{number_on};
ghost use Rattle.sta_text.specs.Tokens.{tok_of};
ghost use Rattle.timing_defs.specs.Names.{is_name};
ghost use Rattle.spef_reader.specs.declared.events.Event.{Event};
ghost use Rattle.spef_reader.specs.Words.{sides_of, parts_of, are_references, spelled, read_as, is_inner, is_node};
ghost use Rattle.spef_reader.specs.Nodes.{name_word, name_of, named, is_net, joined_node, node_from, node_of, is_unknown};
ghost use Rattle.spef_reader.specs.Grammar.{is_word, unexpected, unknown_name, noted};

use crate::context::{Bus, Context};
use crate::events::Event;
use crate::tokens::{Stop, is_word, note, unexpected};
use crate::words::{
    Reading, Sides, add_name, are_references, cut, index_of, is_node, is_plain_word, is_text,
    is_whole,
};
use sta_text::{Token, begins};
use sta_units::Memory;
use std::alloc::Global;
use timing_defs::{Code, Name, RcNode};

/// What a name is read from, by way of the name map where its word is an index; none where the index is not in the name map.
fn reading_of<'b>(context: &'b Context<'_>, word: &'b [u8]) -> Option<Reading<'b>>
    ensures { option_map (read_as context.now.header.bus) result
        ≡ option_map (spelled context.now.header.bus false) (name_word context.now word.entry.now) }
{
    if begins(b'*', word) {
        context.names.find(context.header.bus, index_of(word))
    } else {
        Some(Reading::Word(word))
    }
}

/// The name that a word gives; none where its index is not in the name map.
#[tactic(auto, using(crate::proofs::NodeLemmas::unread, crate::proofs::NodeLemmas::read))]
pub(crate) fn name_of(
    alloc: Global,
    context: &Context<'_>,
    word: &[u8],
) -> Result<Option<Name>, Memory>
    ensures { IfOk result (λ name. name ≡ name_of context.now word.now) }
{
    match reading_of(context, word) {
        None => Ok(None),
        Some(reading) => {
            let mut bytes = Vec::with_capacity(alloc, reading.room())?;
            add_name(&mut bytes, context.header.bus, reading)?;
            Ok(Name::from_vec(bytes))
        }
    }
}

/// Whether the net has this name.
#[tactic(auto, using(crate::proofs::InnerLemmas::same_name))]
fn is_net(net: &Option<Name>, name: &[u8]) -> bool
    ensures value { result ≡ is_net net.now name.now }
    ensures name { result ≡ true → is_name name.now ≡ true }
{
    match net {
        None => false,
        Some(net) => is_text(net.as_bytes(), name),
    }
}

/// The number that digits write, where it lies below 2^32.
#[tactic(auto, using(std::proofs::lemmas::List::drop_more, crate::proofs::NodeLemmas::number_grows))]
fn small_number(digits: &[u8]) -> Option<u32>
    ensures { MatchOption result (2 ^ 32 ≤ number_on 0 digits.now)
        (λ number. number ≡ number_on 0 digits.now) }
{
    let mut number: u64 = 0;
    for digit in digits {
        number = 10 * number + u64::from(digit.saturating_sub(b'0'));
        if 1 << 32 <= number {
            return None;
        }
    }
    Some(number as u32)
}

/// The number of an inner node; none where the word is no such number.
fn inner_number(word: &[u8]) -> Option<u32>
    ensures { MatchOption result (is_inner word.now ≡ false)
        (λ number. (is_inner word.now ≡ true) × (number ≡ number_on 0 word.now)) }
{
    if is_whole(word) {
        small_number(word)
    } else {
        None
    }
}

/// The bytes of two names with a colon between, and how many stand before it.
fn joined_bytes(
    alloc: Global,
    bus: Bus,
    left: Reading<'_>,
    right: Reading<'_>,
) -> Result<(Vec<u8>, usize), Memory>
    ensures bytes { IfOk result
        (λ made. made.0.items ≡ read_as bus left.entry ++ 58 ∷ read_as bus right.entry) }
    ensures place { IfOk result (λ made. made.1 ≡ length (read_as bus left.entry)) }
{
    let room = left.room().saturating_add(right.room()).saturating_add(1);
    let mut bytes = Vec::with_capacity(alloc, room)?;
    add_name(&mut bytes, bus, left)?;
    let place = bytes.len();
    bytes.extend_from_slice(b":")?;
    add_name(&mut bytes, bus, right)?;
    Ok((bytes, place))
}

/// The number of an inner node of the net; none where the name is not the net's or the word is no such number.
#[tactic(auto, using(crate::proofs::InnerLemmas::no_inner))]
fn own_number(net: &Option<Name>, name: &[u8], word: &[u8]) -> Option<u32>
    ensures value { MatchOption result ((is_net net.now name.now && is_inner word.now) ≡ false)
        (λ number. ((is_net net.now name.now && is_inner word.now) ≡ true)
        × (number ≡ number_on 0 word.now)) }
    ensures name { IfSome result (λ _. is_name name.now ≡ true) }
{
    match inner_number(word) {
        Some(number) if is_net(net, name) => Some(number),
        _ => None,
    }
}

/// The number of an inner node of the net where the digits of its word stand for themselves.
#[tactic(auto, using(crate::proofs::InnerLemmas::inner_there))]
fn plain_number(context: &Context<'_>, net: &Option<Name>, name: &[u8], right: &[u8]) -> Option<u32>
    ensures { IfSome result
        (λ number. joined_node net.now right.now (named name.now) (name_of context.now right.now)
        ≡ Some (RcNode.Inner number)) }
{
    match own_number(net, name, right) {
        Some(number) if is_plain_word(context.header.bus, right) => Some(number),
        _ => None,
    }
}

/// The number of an inner node, where the net's name is spelled already; none tells nothing.
fn inner_of(
    context: &Context<'_>,
    net: &Option<Name>,
    left: Reading<'_>,
    right: &[u8],
) -> Option<u32>
    ensures { IfSome result
        (λ number. joined_node net.now right.now (named (read_as context.now.header.bus left.entry))
        (name_of context.now right.now) ≡ Some (RcNode.Inner number)) }
{
    match left {
        Reading::Word(_) => None,
        Reading::Name(name) => plain_number(context, net, name, right),
    }
}

/// The node of a joined name, of which so many bytes stand before the colon.
#[tactic(auto, using(crate::proofs::JoinLemmas::no_left, crate::proofs::JoinLemmas::no_right, crate::proofs::JoinLemmas::no_name, crate::proofs::JoinLemmas::joined_inner, crate::proofs::JoinLemmas::joined_pin))]
fn node_at(net: &Option<Name>, word: &[u8], bytes: Vec<u8>, place: usize) -> Option<RcNode>
    requires { slice_get bytes.items place ≡ Some 58 }
    ensures { result
        ≡ joined_node net.now word.now (named (take place bytes.items))
        (named (drop (place + 1) bytes.items)) }
{
    if place == 0 || place + 1 == bytes.len() {
        return None;
    }
    let number = own_number(net, bytes.as_slice().split_at(place).0, word);
    let name = Name::from_vec(bytes)?;
    match number {
        Some(number) => Some(RcNode::Inner(number)),
        None => Some(RcNode::Pin(name)),
    }
}

/// The node of an instance or a net and what stands behind it; none where an index is not in the name map.
#[tactic(auto, using(crate::proofs::NodeLemmas::unread, crate::proofs::NodeLemmas::read, crate::proofs::JoinLemmas::colon_here, crate::proofs::JoinLemmas::left_here, crate::proofs::JoinLemmas::right_here))]
fn joined_node(
    alloc: Global,
    context: &Context<'_>,
    net: &Option<Name>,
    left: &[u8],
    right: &[u8],
) -> Result<Option<RcNode>, Memory>
    ensures { IfOk result
        (λ node. node
        ≡ joined_node net.now right.now (name_of context.now left.now)
        (name_of context.now right.now)) }
{
    let Some(first) = reading_of(context, left) else {
        return Ok(None);
    };
    if let Some(number) = inner_of(context, net, first, right) {
        return Ok(Some(RcNode::Inner(number)));
    }
    match reading_of(context, right) {
        None => Ok(None),
        Some(second) => {
            let (bytes, place) = joined_bytes(alloc, context.header.bus, first, second)?;
            Ok(node_at(net, right, bytes, place))
        }
    }
}

fn node_from<'a>(
    alloc: Global,
    context: &Context<'a>,
    net: &Option<Name>,
    sides: Sides<'a>,
) -> Result<Option<RcNode>, Memory>
    ensures { IfOk result (λ node. node ≡ node_from context.now net.now (sides_of sides.entry)) }
{
    match sides {
        Sides::Alone(word) => match name_of(alloc, context, word)? {
            None => Ok(None),
            Some(name) => Ok(Some(RcNode::Pin(name))),
        },
        Sides::Joined(left, right) => joined_node(alloc, context, net, left, right),
    }
}

/// Whether the node was not found for want of an index.
fn is_unknown(context: &Context<'_>, node: &Option<RcNode>) -> bool
    ensures { result ≡ is_unknown context.now node.now }
{
    node.is_none() && context.header.delimiter.is_some()
}

/// Reads a node of a word that this delimiter cuts, and notes its fault.
fn parted_node<'a>(
    alloc: Global,
    context: &Context<'a>,
    out: &mut Vec<Event>,
    net: &Option<Name>,
    token: Token<'a>,
    delimiter: u8,
) -> Result<Option<RcNode>, Stop>
    ensures { MatchResult result
        (λ node. (are_references (parts_of delimiter token.entry.text.now) ≡ true)
        × (node ≡ node_from context.now net.now (parts_of delimiter token.entry.text.now))
        ×
        ((rest : List Event) → out.new.items ++ rest
        ≡ out.old.items ++ noted
        (is_unknown context.now
        (node_from context.now net.now (parts_of delimiter token.entry.text.now)))
        (unknown_name token.entry.start) rest))
        (λ stop. stop ≡ Stop.Refused
        → (are_references (parts_of delimiter token.entry.text.now) ≡ false)
        × (out.new.items ≡ out.old.items ++ unexpected context.now false (tok_of token.entry))) }
{
    let sides = cut(delimiter, token.text);
    if !are_references(&sides) {
        return Err(unexpected(context, out, false, &token));
    }
    let node = node_from(alloc, context, net, sides)?;
    let unknown = is_unknown(context, &node);
    note(out, unknown, Code::SpefUnknownName, token.start)?;
    Ok(node)
}

/// Looks at a word where the header has no delimiter. It gives no node.
fn uncut_node(
    context: &Context<'_>,
    out: &mut Vec<Event>,
    token: Token<'_>,
) -> Result<Option<RcNode>, Stop>
    ensures { MatchResult result
        (λ node. (is_node None token.entry.text.now ≡ true) × (node ≡ None)
        × (out.new.items ≡ out.old.items))
        (λ stop. stop ≡ Stop.Refused → (is_node None token.entry.text.now ≡ false)
        × (out.new.items ≡ out.old.items ++ unexpected context.now false (tok_of token.entry))) }
{
    if !is_node(None, token.text) {
        return Err(unexpected(context, out, false, &token));
    }
    Ok(None)
}

/// Reads a node of a token that was taken, where it is one.
pub(crate) fn node<'a>(
    alloc: Global,
    context: &Context<'a>,
    out: &mut Vec<Event>,
    net: &Option<Name>,
    token: Token<'a>,
) -> Result<Option<RcNode>, Stop>
    ensures { MatchResult result
        (λ node.
        ((is_word (tok_of token.entry) && is_node context.now.header.delimiter token.entry.text.now)
        ≡ true) × (node ≡ node_of context.now net.now token.entry.text.now)
        ×
        ((rest : List Event) → out.new.items ++ rest
        ≡ out.old.items ++ noted
        (is_unknown context.now (node_of context.now net.now token.entry.text.now))
        (unknown_name token.entry.start) rest))
        (λ stop. stop ≡ Stop.Refused
        →
        ((is_word (tok_of token.entry) && is_node context.now.header.delimiter token.entry.text.now)
        ≡ false)
        × (out.new.items ≡ out.old.items ++ unexpected context.now false (tok_of token.entry))) }
{
    if !is_word(&token) {
        return Err(unexpected(context, out, false, &token));
    }
    match context.header.delimiter {
        None => uncut_node(context, out, token),
        Some(delimiter) => parted_node(alloc, context, out, net, token, delimiter),
    }
}
