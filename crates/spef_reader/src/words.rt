//! The words of a text of parasitics.

ghost use Rattle.std.specs.Prelude.{◌≡◌, ◌<◌, ◌≤◌, ◌++◌, ◌∷◌, [], true, false, length, drop, ◌&&◌, ◌==◌, None, IfOk, IfSome, if◌then◌else◌};
ghost use Rattle.std.specs.Char.{is_ascii_digit};
ghost use Rattle.std.specs.List.{list_all, prefix_len};
ghost use Rattle.std.specs.Str.{bytes_eq};
ghost use Rattle.sta_units.specs.Decimal.{is_whole};
ghost use Rattle.timing_defs.specs.Names.{is_graphic};
ghost use Rattle.spef_reader.specs.Words.{is_mark, begins_mark, escapes, is_this, unescaped, spelled, read_as, is_plain, behind, is_zero, is_index, index_of, is_spelled, is_reference, last_at, parts_of, sides_of, are_references, begins_digit, is_node, mark_of, is_pin_delimiter, delimiter_of, is_text_word, is_header_word, is_other_unit, is_passed, is_attribute, is_port_word, is_left_out, is_section, is_net_word, is_direction, is_pin_row};

use crate::context::Bus;
use sta_text::begins;
use sta_units::Memory;
use std::alloc::Global;

/// What a name is read from: a word that spells it, or the name as it was spelled before.
#[derive(Clone, Copy, Drop)]
pub(crate) enum Reading<'a> {
    Word(&'a [u8]),
    Name(&'a [u8]),
}

impl Reading<'_> {
    /// A number of bytes in which the name has room.
    pub(crate) fn room(&self) -> usize {
        match self {
            Reading::Word(word) => word.len(),
            Reading::Name(name) => name.len(),
        }
    }
}

/// The sides of a node's word: a port alone, or an instance and its pin, or a net and a number.
#[derive(Clone, Copy, Drop)]
pub(crate) enum Sides<'a> {
    Alone(&'a [u8]),
    Joined(&'a [u8], &'a [u8]),
}

fn is_graphic(byte: u8) -> bool
    ensures { result ≡ is_graphic byte }
{
    33 <= byte && byte <= 126
}

/// Whether the byte is a mark: graphic, and no letter and no digit.
fn is_mark(byte: u8) -> bool
    ensures { result ≡ is_mark byte }
{
    is_graphic(byte) && !byte.is_ascii_alphanumeric()
}

fn begins_mark(bytes: &[u8]) -> bool
    ensures { result ≡ begins_mark bytes.now }
{
    match bytes.split_first() {
        None => false,
        Some((first, _)) => is_mark(*first),
    }
}

/// Whether the byte is a backslash that escapes the first of the bytes behind it.
fn escapes(escaped: bool, byte: u8, rest: &[u8]) -> bool
    ensures { result ≡ escapes escaped byte rest.now }
{
    !escaped && byte == b'\\' && begins_mark(rest)
}

fn is_this(mark: Option<u8>, byte: u8) -> bool
    ensures { result ≡ is_this mark byte }
{
    match mark {
        None => false,
        Some(mark) => byte == mark,
    }
}

impl Bus {
    /// The byte of a name that an unescaped byte reads as.
    fn unescaped(self, byte: u8) -> u8
        ensures { result ≡ unescaped self byte }
    {
        if is_this(self.opening, byte) {
            b'['
        } else if is_this(self.closing, byte) {
            b']'
        } else {
            byte
        }
    }
}

fn push_spelled(
    name: &mut Vec<u8>,
    bus: Bus,
    escaped: bool,
    byte: u8,
    rest: &[u8],
) -> Result<(), Memory>
    ensures { IfOk result
        (λ _. name.new.items
        ≡ name.old.items ++
        (if escapes escaped byte rest.now then [] else
        (if escaped then byte else unescaped bus byte) ∷ [])) }
{
    if escapes(escaped, byte, rest) {
        return Ok(());
    }
    let read = if escaped { byte } else { bus.unescaped(byte) };
    match name.push(read) {
        Ok(()) => Ok(()),
        Err(_) => Err(Memory),
    }
}

/// Whether the byte stands for itself wherever it stands.
fn is_plain(bus: Bus, byte: u8) -> bool
    ensures { result ≡ is_plain bus byte }
{
    byte != b'\\' && bus.unescaped(byte) == byte
}

/// How many bytes that stand for themselves the word begins with.
fn plain_len(bus: Bus, word: &[u8]) -> usize
    ensures value { result ≡ prefix_len (is_plain bus) word.now }
    ensures within { result ≤ length word.now }
{
    word.iter().take_while(|byte| is_plain(bus, **byte)).count()
}

/// Whether each byte of the word stands for itself.
pub(crate) fn is_plain_word(bus: Bus, word: &[u8]) -> bool
    ensures { result ≡ true → prefix_len (is_plain bus) word.now ≡ length word.now }
{
    plain_len(bus, word) == word.len()
}

fn is_at_once(escaped: bool, run: usize) -> bool
    ensures { result ≡ (escaped && run == 0) }
{
    escaped && run == 0
}

/// Adds what the first byte of a word and the plain bytes behind it spell: how many these are, and
/// whether the next byte is escaped.
#[tactic(auto, using(crate::proofs::WordLemmas::spelled_piece))]
fn add_piece(
    name: &mut Vec<u8>,
    bus: Bus,
    escaped: bool,
    byte: u8,
    rest: &[u8],
) -> Result<(usize, bool), Memory>
    ensures value { IfOk result
        (λ piece. name.new.items ++ spelled bus piece.1 (drop piece.0 rest.now)
        ≡ name.old.items ++ spelled bus escaped (byte ∷ rest.now)) }
    ensures within { IfOk result (λ piece. piece.0 ≤ length rest.now) }
{
    push_spelled(name, bus, escaped, byte, rest)?;
    let run = plain_len(bus, rest);
    name.extend_from_slice(rest.split_at(run).0)?;
    Ok((run, is_at_once(escapes(escaped, byte, rest), run)))
}

/// Adds the bytes of the name that a word spells, piece by piece.
fn add_pieces(name: &mut Vec<u8>, bus: Bus, word: &[u8]) -> Result<(), Memory>
    ensures { IfOk result (λ _. name.new.items ≡ name.old.items ++ spelled bus false word.now) }
{
    let mut escaped = false;
    let mut rest = word;
    'pieces: while let Some((byte, behind)) = rest.split_first() {
        let (run, next) = add_piece(name, bus, escaped, *byte, behind)?;
        escaped = next;
        rest = behind.split_at(run).1;
    }
    Ok(())
}

/// Adds the bytes of the name that a word spells. Plain bytes are added at once.
#[tactic(auto, using(crate::proofs::WordLemmas::spelled_plain))]
fn add_spelled(name: &mut Vec<u8>, bus: Bus, word: &[u8]) -> Result<(), Memory>
    ensures { IfOk result (λ _. name.new.items ≡ name.old.items ++ spelled bus false word.now) }
{
    if is_plain_word(bus, word) {
        return Ok(name.extend_from_slice(word)?);
    }
    add_pieces(name, bus, word)
}

/// Adds the bytes of a name.
pub(crate) fn add_name(name: &mut Vec<u8>, bus: Bus, reading: Reading<'_>) -> Result<(), Memory>
    ensures { IfOk result (λ _. name.new.items ≡ name.old.items ++ read_as bus reading.entry) }
{
    match reading {
        Reading::Word(word) => add_spelled(name, bus, word),
        Reading::Name(read) => Ok(name.extend_from_slice(read)?),
    }
}

/// The bytes of the name that a word spells.
pub(crate) fn spelled(alloc: Global, bus: Bus, word: &[u8]) -> Result<Vec<u8>, Memory>
    ensures { IfOk result (λ name. name.items ≡ spelled bus false word.now) }
{
    let mut name = Vec::with_capacity(alloc, word.len())?;
    add_spelled(&mut name, bus, word)?;
    Ok(name)
}

fn behind(word: &[u8]) -> &[u8]
    ensures { result.now ≡ behind word.now }
{
    match word.split_first() {
        None => word,
        Some((_, rest)) => rest,
    }
}

/// Whether the word is these bytes. Words mostly differ in their length, or at their end.
#[tactic(auto, using(timing_defs::proofs::SameBytes::unlike_size, timing_defs::proofs::SameBytes::unlike_at, timing_defs::proofs::SameBytes::same_next))]
pub(crate) fn is_text(word: &[u8], text: &[u8]) -> bool
    ensures { result ≡ bytes_eq word.now text.now }
{
    if word.len() != text.len() {
        return false;
    }
    let mut left = word.len();
    while 0 < left {
        left -= 1;
        if word[left] != text[left] {
            return false;
        }
    }
    true
}

fn all_digits(word: &[u8]) -> bool
    ensures { result ≡ list_all is_ascii_digit word.now }
{
    word.iter().all(|byte| byte.is_ascii_digit())
}

/// Whether the word is one decimal digit or more.
pub(crate) fn is_whole(word: &[u8]) -> bool
    ensures { result ≡ is_whole word.now }
{
    !word.is_empty() && all_digits(word)
}

fn zeros_len(digits: &[u8]) -> usize
    ensures value { result ≡ prefix_len is_zero digits.now }
    ensures within { result ≤ length digits.now }
{
    digits.iter().take_while(|digit| **digit == b'0').count()
}

/// Whether the word is an index into the name map.
pub(crate) fn is_index(word: &[u8]) -> bool
    ensures { result ≡ is_index word.now }
{
    begins(b'*', word) && is_whole(behind(word))
}

/// The digits of an index, without leading zeros.
pub(crate) fn index_of(word: &[u8]) -> &[u8]
    ensures { result.now ≡ index_of word.now }
{
    let digits = behind(word);
    digits.split_at(zeros_len(digits)).1
}

/// Whether the word spells a name.
pub(crate) fn is_spelled(word: &[u8]) -> bool
    ensures { result ≡ is_spelled word.now }
{
    !word.is_empty() && !begins(b'*', word)
}

/// Whether the word is a name, which is spelled or given by its index.
pub(crate) fn is_reference(word: &[u8]) -> bool
    ensures { result ≡ is_reference word.now }
{
    is_index(word) || is_spelled(word)
}

/// The place of the last delimiter that is not escaped.
#[tactic(auto, unfolding(crate::specs::Words::last_at), using(std::proofs::lemmas::List::drop_more))]
fn last_at(delimiter: u8, word: &[u8]) -> Option<usize>
    ensures value { result ≡ last_at delimiter 0 None false word.now }
    ensures within { IfSome result (λ n. n < length word.now) }
{
    let mut found = None;
    let mut escaped = false;
    for (i, byte) in word.iter().enumerate() {
        if *byte == delimiter && !escaped {
            found = Some(i);
        }
        escaped = escapes(escaped, *byte, word.split_at(i + 1).1);
    }
    found
}

/// The sides of a node's word.
pub(crate) fn cut(delimiter: u8, word: &[u8]) -> Sides<'_>
    ensures { sides_of result ≡ parts_of delimiter word.now }
{
    match last_at(delimiter, word) {
        None => Sides::Alone(word),
        Some(place) => Sides::Joined(word.split_at(place).0, word.split_at(place + 1).1),
    }
}

/// Whether each side is a name, which is spelled or given by its index.
pub(crate) fn are_references(sides: &Sides<'_>) -> bool
    ensures { result ≡ are_references (sides_of sides.now) }
{
    match sides {
        Sides::Alone(word) => is_reference(word),
        Sides::Joined(left, right) => is_reference(left) && is_reference(right),
    }
}

fn begins_digit(word: &[u8]) -> bool
    ensures { result ≡ begins_digit word.now }
{
    match word.split_first() {
        None => false,
        Some((first, _)) => first.is_ascii_digit(),
    }
}

/// Whether the word is a node.
pub(crate) fn is_node(delimiter: Option<u8>, word: &[u8]) -> bool
    ensures { result ≡ is_node delimiter word.now }
{
    match delimiter {
        None => is_spelled(word) || (begins(b'*', word) && begins_digit(behind(word))),
        Some(delimiter) => are_references(&cut(delimiter, word)),
    }
}

/// The mark that a word of one byte is.
pub(crate) fn mark_of(word: &[u8]) -> Option<u8>
    ensures { result ≡ mark_of word.now }
{
    match word.split_first() {
        Some((first, rest)) if rest.is_empty() && is_mark(*first) => Some(*first),
        _ => None,
    }
}

fn is_pin_delimiter(byte: u8) -> bool
    ensures { result ≡ is_pin_delimiter byte }
{
    byte == b'.' || byte == b'/' || byte == b':' || byte == b'|'
}

/// The delimiter of pins that a word of one byte is.
pub(crate) fn delimiter_of(word: &[u8]) -> Option<u8>
    ensures { result ≡ delimiter_of word.now }
{
    match word.split_first() {
        Some((first, rest)) if rest.is_empty() && is_pin_delimiter(*first) => Some(*first),
        _ => None,
    }
}

/// Whether the word is a header word with texts, which are passed over.
pub(crate) fn is_text_word(word: &[u8]) -> bool
    ensures { result ≡ is_text_word word.now }
{
    word == b"*DESIGN".as_slice()
        || word == b"*DATE".as_slice()
        || word == b"*VENDOR".as_slice()
        || word == b"*PROGRAM".as_slice()
        || word == b"*VERSION".as_slice()
        || word == b"*DESIGN_FLOW".as_slice()
}

fn is_other_unit(word: &[u8]) -> bool
    ensures { result ≡ is_other_unit word.now }
{
    word == b"*T_UNIT".as_slice() || word == b"*L_UNIT".as_slice()
}

/// Whether the word begins a line of the header.
#[tactic(auto, unfolding(crate::specs::Words::is_header_word))]
pub(crate) fn is_header_word(word: &[u8]) -> bool
    ensures { result ≡ is_header_word word.now }
{
    is_text_word(word)
        || word == b"*DIVIDER".as_slice()
        || word == b"*DELIMITER".as_slice()
        || word == b"*BUS_DELIMITER".as_slice()
        || word == b"*C_UNIT".as_slice()
        || word == b"*R_UNIT".as_slice()
        || is_other_unit(word)
}

/// Whether the word begins a section that is passed over.
pub(crate) fn is_passed(word: &[u8]) -> bool
    ensures { result ≡ is_passed word.now }
{
    is_text(word, b"*PORTS")
        || is_text(word, b"*PHYSICAL_PORTS")
        || is_text(word, b"*POWER_NETS")
        || is_text(word, b"*GROUND_NETS")
}

/// Whether the word begins an attribute of a port.
fn is_attribute(word: &[u8]) -> bool
    ensures { result ≡ is_attribute word.now }
{
    word == b"*C".as_slice()
        || word == b"*L".as_slice()
        || word == b"*S".as_slice()
        || word == b"*D".as_slice()
}

/// Whether the word may stand in a section that is passed over.
#[tactic(auto, unfolding(crate::specs::Words::is_port_word))]
pub(crate) fn is_port_word(delimiter: Option<u8>, word: &[u8]) -> bool
    ensures { result ≡ is_port_word delimiter word.now }
{
    !begins(b'*', word) || is_attribute(word) || is_node(delimiter, word)
}

/// Whether the word begins a section that is left out.
pub(crate) fn is_left_out(word: &[u8]) -> bool
    ensures { result ≡ is_left_out word.now }
{
    is_text(word, b"*R_NET")
        || is_text(word, b"*D_PNET")
        || is_text(word, b"*R_PNET")
        || is_text(word, b"*DEFINE")
        || is_text(word, b"*PDEFINE")
        || is_text(word, b"*VARIATION_PARAMETERS")
}

/// Whether the word begins a section.
#[tactic(auto, unfolding(crate::specs::Words::is_section))]
pub(crate) fn is_section(word: &[u8]) -> bool
    ensures { result ≡ is_section word.now }
{
    is_text(word, b"*NAME_MAP") || is_text(word, b"*D_NET") || is_passed(word) || is_left_out(word)
}

/// Whether the word begins a part of a net, or ends the net.
#[tactic(auto, unfolding(crate::specs::Words::is_net_word))]
pub(crate) fn is_net_word(word: &[u8]) -> bool
    ensures { result ≡ is_net_word word.now }
{
    is_text(word, b"*CONN")
        || is_text(word, b"*CAP")
        || is_text(word, b"*RES")
        || is_text(word, b"*INDUC")
        || is_text(word, b"*END")
}

/// Whether the word is the direction of a connection.
pub(crate) fn is_direction(word: &[u8]) -> bool
    ensures { result ≡ is_direction word.now }
{
    is_text(word, b"I") || is_text(word, b"O") || is_text(word, b"B")
}

/// Whether the word begins a connection of a port or of an instance's pin.
pub(crate) fn is_pin_row(word: &[u8]) -> bool
    ensures { result ≡ is_pin_row word.now }
{
    is_text(word, b"*P") || is_text(word, b"*I")
}
