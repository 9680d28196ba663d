//! The names of nets.

ghost use Rattle.std.specs.Prelude.{◌≡◌, ◌<◌, ◌^◌, ◌++◌, ◌∷◌, [], true, string_bytes, ℕ, Some, IfOk, OnOk};
ghost use Rattle.std.specs.Fmt.{decimal};
ghost use Rattle.std.specs.Str.{bytes_eq};
ghost use Rattle.timing_defs.specs.Names.{is_name};
ghost use Rattle.verilog_netlist.specs.Lexicon.{spelled, is_identifier};
ghost use Rattle.verilog_netlist.specs.Nets.{bit_name, width, number_at, has_number, bits, nets_of};
ghost use Rattle.verilog_netlist.specs.Bits.{picked};
ghost use Rattle.sta_text.specs.Names.{stands};

use crate::events::Span;
use crate::lexicon::{all_digits, digits_value, spelled};
use sta_units::{Memory, Pair, append, both};
use std::alloc::{AllocError, Global};
use timing_defs::{Items, Name};

/// The brackets of a bit's name, with its number.
fn place_text(alloc: Global, k: u32) -> Result<String, AllocError>
    ensures { IfOk result (λ text. string_bytes text ≡ 91 ∷ (decimal k ++ (93 ∷ []))) }
{
    format!(in alloc; "[{k}]")
}

/// Two texts behind each other.
fn joined(alloc: Global, one: &[u8], other: &[u8]) -> Result<Vec<u8>, Memory>
    ensures { IfOk result (λ bytes. bytes.items ≡ one.now ++ other.now) }
{
    let mut bytes = Vec::from_slice(alloc, one)?;
    match append(&mut bytes, other) {
        Ok(()) => Ok(bytes),
        Err(wanting) => {
            drop(bytes);
            Err(wanting)
        }
    }
}

/// The name of a bit of a vector, as `a[3]`.
#[tactic(auto, using(crate::proofs::NamesLemmas::bit_is_name))]
pub(crate) fn bit_name(alloc: Global, name: &[u8], k: u32) -> Result<Name, Memory>
    requires { is_name name.now ≡ true }
    ensures { IfOk result (λ bit. bit ≡ bit_name name.now k) }
{
    let text = place_text(alloc, k)?;
    let bytes = joined(alloc, name, text.as_bytes());
    drop(text);
    match Name::from_vec(bytes?) {
        Some(bit) => Ok(bit),
        None => unreachable!(),
    }
}

/// The name of a bit of the vector that a word spells.
#[tactic(auto, unfolding(crate::specs::Lexicon::is_identifier))]
pub(crate) fn bit_of(alloc: Global, word: &[u8], k: u32) -> Result<Name, Memory>
    requires { is_identifier word.now ≡ true }
    ensures { IfOk result (λ bit. bit ≡ bit_name (spelled word.now) k) }
{
    bit_name(alloc, spelled(word), k)
}

impl Span {
    /// How many bits the vector has.
    pub(crate) fn width(self) -> u64
        ensures { result ≡ width self }
    {
        let first = u64::from(self.first);
        let last = u64::from(self.last);
        if last < first {
            first - last + 1
        } else {
            last - first + 1
        }
    }

    /// The number of a bit, counted from the vector's first.
    fn number_at(self, i: u64) -> u32
        requires { i < width self }
        ensures { result ≡ number_at self i }
    {
        let first = u64::from(self.first);
        if self.last < self.first {
            (first - i) as u32
        } else {
            (first + i) as u32
        }
    }

    /// Whether the vector has a bit of this number.
    fn has_number(self, k: u64) -> bool
        ensures { result ≡ has_number self k }
    {
        let first = u64::from(self.first);
        let last = u64::from(self.last);
        if last < first {
            last <= k && k <= first
        } else {
            first <= k && k <= last
        }
    }
}

/// The number that a bit's name gives; any or none for another name.
#[tactic(auto, using(sta_units::proofs::Digits::number_short, crate::proofs::BitLemmas::inside_bit, crate::proofs::BitLemmas::bit_name_long, crate::proofs::BitLemmas::decimal_digits, crate::proofs::BitLemmas::decimal_short, crate::proofs::BitLemmas::decimal_number))]
pub(crate) fn bit_number(name: &[u8], net: &[u8]) -> Option<u64>
    ensures { (k : ℕ) → k < 2 ^ 32 → net.now ≡ bit_name name.now k → result ≡ Some k }
{
    if net.len() < name.len() + 2 {
        return None;
    }
    let behind = net.split_at(name.len() + 1).1;
    let digits = behind.split_at(behind.len() - 1).0;
    if 10 < digits.len() || !all_digits(digits) {
        return None;
    }
    Some(digits_value(digits))
}

/// Whether the text is that of a bit's brackets with this number.
pub(crate) fn is_place_text(alloc: Global, text: &[u8], k: u32) -> Result<bool, Memory>
    ensures { IfOk result (λ is. is ≡ bytes_eq text.now (91 ∷ (decimal k ++ (93 ∷ [])))) }
{
    let place = place_text(alloc, k)?;
    let is = text == place.as_bytes();
    drop(place);
    Ok(is)
}

/// The number that a net's name gives where it is that of a bit; any or none for another name.
fn number_in(name: &Name, net: &Name) -> Option<u64>
    ensures { (k : ℕ) → k < 2 ^ 32 → net.now ≡ bit_name name.now k → result ≡ Some k }
{
    bit_number(name.as_bytes(), net.as_bytes())
}

/// Whether the vector has the number that was found, and the net is that bit.
fn is_picked(
    alloc: Global,
    span: Span,
    name: &Name,
    net: &Name,
    found: Option<u64>,
) -> Result<bool, Memory>
    ensures { IfOk result (λ is. is ≡ picked span name.now net.now found) }
{
    let Some(k) = found else {
        return Ok(false);
    };
    if !span.has_number(k) {
        return Ok(false);
    }
    let bit = bit_name(alloc, name.as_bytes(), k as u32)?;
    let is = net.as_bytes() == bit.as_bytes();
    drop(bit);
    Ok(is)
}

/// Whether the net is a bit of the vector.
pub(crate) fn is_bit(alloc: Global, span: Span, name: &Name, net: &Name) -> Result<bool, Memory>
    ensures { IfOk result (λ found. found ≡ stands (nets_of (Some span) name.now) net.now) }
{
    is_picked(alloc, span, name, net, number_in(name, net))
}

/// Adds the name of a bit of a vector.
fn add_bit(alloc: Global, names: &mut Items<Name>, name: &Name, k: u32) -> Result<(), Memory>
    ensures { OnOk result (names.new ≡ names.old ++ bit_name name.now k ∷ []) }
{
    names.push(bit_name(alloc, name.as_bytes(), k)?)
}

/// The names of the bits of a vector.
#[tactic(auto, unfolding(crate::specs::Nets::bits), using(crate::proofs::BitLemmas::bits_next))]
fn bits(alloc: Global, span: Span, name: &Name) -> Result<Items<Name>, Memory>
    ensures { IfOk result (λ names. names ≡ bits span name.now 0 (width span)) }
{
    let mut names = Items::new(alloc);
    for i in 0..span.width() {
        match add_bit(alloc, &mut names, name, span.number_at(i)) {
            Ok(()) => {}
            Err(wanting) => {
                drop(names);
                return Err(wanting);
            }
        }
    }
    Ok(names)
}

/// The nets that a declared name stands for.
#[tactic(auto, unfolding(crate::specs::Nets::nets_of))]
pub(crate) fn nets_of(alloc: Global, span: Option<Span>, name: &Name) -> Result<Items<Name>, Memory>
    ensures { IfOk result (λ names. names ≡ nets_of span name.now) }
{
    match span {
        None => {
            let Pair {
                one: mut names,
                other: copy,
            } = both(Items::with_room(alloc, 1), name.copied(alloc))?;
            match names.push(copy) {
                Ok(()) => Ok(names),
                Err(wanting) => {
                    drop(names);
                    Err(wanting)
                }
            }
        }
        Some(span) => bits(alloc, span, name),
    }
}
