//! Tests of bytes, and lengths of the parts of a text.

ghost use Rattle.std.specs.Prelude.{◌≡◌, ◌≤◌, ◌<◌, ◌+◌, ◌^◌, length, IfSome};
ghost use Rattle.std.specs.List.{prefix_len};
ghost use Rattle.timing_defs.specs.Names.{is_graphic};
ghost use Rattle.sta_text.specs.Bytes.{begins, is_blank, is_white, line_end_len, continues, is_liberty_mark, is_identifier_byte, is_number_byte, is_identifier_start, is_inside, is_of_line, opens_comment, deeper, stops, ends_word, word_end, closing, comment_end};

/// A kind of word: one of Liberty, a hierarchical name of SPEF, and in Tcl a word of a command, of
/// a list in braces, or inside brackets.
#[derive(Clone, Copy, Drop)]
pub(crate) enum WordSort {
    Attribute,
    Hierarchical,
    Command,
    Listed,
    Bracketed,
}

/// Whether the text's first byte is this one.
pub fn begins(byte: u8, bytes: &[u8]) -> bool
    ensures { result ≡ begins byte bytes.now }
{
    match bytes.split_first() {
        None => false,
        Some((first, _)) => *first == byte,
    }
}

pub(crate) fn is_graphic(byte: u8) -> bool
    ensures { result ≡ is_graphic byte }
{
    33 <= byte && byte <= 126
}

pub(crate) fn is_blank(byte: u8) -> bool
    ensures { result ≡ is_blank byte }
{
    byte == b' ' || byte == b'\t'
}

pub(crate) fn is_white(byte: u8) -> bool
    ensures { result ≡ is_white byte }
{
    byte == b' ' || byte == b'\t' || byte == b'\n' || byte == b'\r'
}

/// How many bytes of a line's end the text begins with.
pub fn line_end_len(bytes: &[u8]) -> usize
    ensures value { result ≡ line_end_len bytes.now }
    ensures within { result ≤ length bytes.now }
{
    match bytes.split_first() {
        None => 0,
        Some((first, rest)) => {
            if *first == b'\n' {
                1
            } else if *first == b'\r' && begins(b'\n', rest) {
                2
            } else {
                0
            }
        }
    }
}

/// Whether the byte is a backslash that continues the line.
pub fn continues(byte: u8, rest: &[u8]) -> bool
    ensures { result ≡ continues byte rest.now }
{
    byte == b'\\' && 0 < line_end_len(rest)
}

pub(crate) fn is_liberty_mark(byte: u8) -> bool
    ensures { result ≡ is_liberty_mark byte }
{
    byte == b'('
        || byte == b')'
        || byte == b'{'
        || byte == b'}'
        || byte == b':'
        || byte == b';'
        || byte == b','
}

pub(crate) fn is_identifier_byte(byte: u8) -> bool
    ensures { result ≡ is_identifier_byte byte }
{
    byte.is_ascii_alphanumeric() || byte == b'_' || byte == b'$'
}

pub(crate) fn is_number_byte(byte: u8) -> bool
    ensures { result ≡ is_number_byte byte }
{
    is_identifier_byte(byte) || byte == b'\''
}

pub(crate) fn is_identifier_start(byte: u8) -> bool
    ensures { result ≡ is_identifier_start byte }
{
    byte.is_ascii_alphabetic() || byte == b'_'
}

/// How many graphic bytes the text begins with.
pub(crate) fn graphic_len(bytes: &[u8]) -> usize
    ensures value { result ≡ prefix_len is_graphic bytes.now }
    ensures within { result ≤ length bytes.now }
{
    bytes.iter().take_while(|byte| is_graphic(**byte)).count()
}

pub(crate) fn identifier_len(bytes: &[u8]) -> usize
    ensures value { result ≡ prefix_len is_identifier_byte bytes.now }
    ensures within { result ≤ length bytes.now }
{
    bytes
        .iter()
        .take_while(|byte| is_identifier_byte(**byte))
        .count()
}

pub(crate) fn number_len(bytes: &[u8]) -> usize
    ensures value { result ≡ prefix_len is_number_byte bytes.now }
    ensures within { result ≤ length bytes.now }
{
    bytes
        .iter()
        .take_while(|byte| is_number_byte(**byte))
        .count()
}

/// How many bytes stand before the next quote.
pub(crate) fn inside_len(bytes: &[u8]) -> usize
    ensures value { result ≡ prefix_len is_inside bytes.now }
    ensures within { result ≤ length bytes.now }
{
    bytes.iter().take_while(|byte| **byte != b'"').count()
}

/// How many bytes stand before the next line feed.
pub(crate) fn line_len(bytes: &[u8]) -> usize
    ensures value { result ≡ prefix_len is_of_line bytes.now }
    ensures within { result ≤ length bytes.now }
{
    bytes.iter().take_while(|byte| **byte != b'\n').count()
}

/// The brackets that a word has depth behind this byte.
fn deeper(depth: usize, byte: u8) -> usize
    requires { depth + 1 < 2 ^ 64 }
    ensures { result ≡ deeper depth byte }
{
    if byte == b'[' {
        depth + 1
    } else if byte == b']' {
        depth.saturating_sub(1)
    } else {
        depth
    }
}

/// Whether a comment of two slashes, or of a slash and a star, begins at this byte.
fn opens_comment(kind: WordSort, byte: u8, rest: &[u8]) -> bool
    ensures { result ≡ opens_comment kind byte rest.now }
{
    match kind {
        WordSort::Attribute => byte == b'/' && begins(b'*', rest),
        WordSort::Hierarchical => byte == b'/' && (begins(b'/', rest) || begins(b'*', rest)),
        _ => false,
    }
}

/// Whether a graphic byte ends a word.
fn stops(kind: WordSort, depth: usize, before: u8, byte: u8, rest: &[u8]) -> bool
    ensures { result ≡ stops kind depth before byte rest.now }
{
    match kind {
        WordSort::Attribute => {
            is_liberty_mark(byte)
                || byte == b'"'
                || (opens_comment(kind, byte, rest) && before != b'\\')
                || continues(byte, rest)
        }
        WordSort::Hierarchical => opens_comment(kind, byte, rest) && before != b'\\',
        WordSort::Command => byte == b';' || continues(byte, rest),
        WordSort::Listed => byte == b';' || byte == b'{' || byte == b'}' || continues(byte, rest),
        WordSort::Bracketed => byte == b';'
            || (byte == b']' && depth == 0)
            || continues(byte, rest),
    }
}

/// Whether a word ends before this byte.
fn ends_word(kind: WordSort, depth: usize, before: u8, byte: u8, rest: &[u8]) -> bool
    ensures { result ≡ ends_word kind depth before byte rest.now }
{
    !is_graphic(byte) || stops(kind, depth, before, byte, rest)
}

/// How many bytes of a word stand behind its first one.
#[tactic(auto, unfolding(crate::specs::Bytes::word_end), using(std::proofs::lemmas::List::drop_more))]
pub(crate) fn word_len(kind: WordSort, first: u8, bytes: &[u8]) -> usize
    ensures value { result ≡ word_end kind 0 0 first bytes.now }
    ensures within { result ≤ length bytes.now }
{
    let mut depth = 0;
    let mut before = first;
    for (i, byte) in bytes.iter().enumerate() {
        let rest = bytes.split_at(i + 1).1;
        if ends_word(kind, depth, before, *byte, rest) {
            return i;
        }
        depth = deeper(depth, *byte);
        before = *byte;
    }
    bytes.len()
}

/// How many bytes a comment has behind its opening ones, up to a star and this byte.
#[tactic(auto, unfolding(crate::specs::Bytes::closing), using(std::proofs::lemmas::List::drop_more))]
pub(crate) fn closing(last: u8, bytes: &[u8]) -> Option<usize>
    ensures value { result ≡ closing last 0 bytes.now }
    ensures within { IfSome result (λ n. n ≤ length bytes.now) }
{
    for (i, byte) in bytes.iter().enumerate() {
        if *byte == b'*' && begins(last, bytes.split_at(i + 1).1) {
            return Some(i + 2);
        }
    }
    None
}

/// How many bytes of a Tcl comment stand behind its mark.
#[tactic(auto, unfolding(crate::specs::Bytes::comment_end), using(std::proofs::lemmas::List::drop_more))]
pub(crate) fn comment_len(first: u8, bytes: &[u8]) -> usize
    ensures value { result ≡ comment_end 0 0 first bytes.now }
    ensures within { result ≤ length bytes.now }
{
    let mut second = 0;
    let mut last = first;
    for (i, byte) in bytes.iter().enumerate() {
        if *byte == b'\n' && !(last == b'\\' || (last == b'\r' && second == b'\\')) {
            return i;
        }
        second = last;
        last = *byte;
    }
    bytes.len()
}
