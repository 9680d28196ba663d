//! The names of pins.

ghost use Rattle.std.specs.Prelude.{◌≡◌, ◌≤◌, ◌<◌, length, slice_set, IfOk};
ghost use Rattle.timing_defs.specs.Names.{is_split, as_pin};
ghost use Rattle.sdc_reader.specs.Words.{IsLastSplit};

use crate::words::is_split;
use sta_units::Memory;
use std::alloc::Global;
use timing_defs::Name;

/// The place of the last mark that splits a pin's word, or the length where there is none.
fn last_split(word: &[u8]) -> usize
    ensures { IsLastSplit word.now result }
{
    let mut end = word.len();
    while end > 0 {
        if is_split(word[end - 1]) {
            return end - 1;
        }
        end -= 1;
    }
    word.len()
}

/// The bytes of a word with a colon at a place.
fn with_colon(alloc: Global, word: &[u8], place: usize) -> Result<Vec<u8>, Memory>
    requires { place < length word.now }
    ensures { IfOk result (λ bytes. bytes.items ≡ slice_set word.now place 58) }
{
    let mut bytes = Vec::from_slice(alloc, word)?;
    bytes[place] = b':';
    Ok(bytes)
}

/// The bytes of a pin's name: a colon in the place of the last mark.
fn pin_bytes(alloc: Global, word: &[u8]) -> Result<Vec<u8>, Memory>
    ensures { IfOk result (λ bytes. bytes.items ≡ as_pin word.now) }
{
    let place = last_split(word);
    if place == word.len() {
        return Ok(Vec::from_slice(alloc, word)?);
    }
    with_colon(alloc, word, place)
}

/// The name of a pin, of which this is the word.
#[tactic(auto, using(crate::proofs::PinLemmas::name_pin))]
pub(crate) fn pin_name(alloc: Global, word: &Name) -> Result<Name, Memory>
    ensures { IfOk result (λ name. name ≡ as_pin word.now) }
{
    match Name::from_vec(pin_bytes(alloc, word.as_bytes())?) {
        Some(name) => Ok(name),
        None => unreachable!(),
    }
}
