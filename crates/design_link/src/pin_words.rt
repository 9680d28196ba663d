//! Words as the names of pins.

ghost use Rattle.std.specs.Prelude.{◌≡◌, set, IsTrue, IfOk};
ghost use Rattle.timing_defs.specs.Names.{is_name};
ghost use Rattle.timing_defs.specs.Names.{is_split, as_pin};
ghost use Rattle.design_link.specs.Words.{IsLastSplit};

use sta_units::Memory;
use std::alloc::Global;
use timing_defs::Name;

/// Whether a byte parts an instance from its pin.
fn is_split(byte: u8) -> bool
    ensures { result ≡ is_split byte }
{
    byte == b'/' || byte == b':'
}

/// The place of the last byte that parts an instance from its pin, or the length where there is none.
fn last_split(word: &[u8]) -> usize
    ensures { IsLastSplit word.now result }
{
    let mut end = word.len();
    while end > 0 {
        if is_split(word[end - 1]) {
            return end - 1;
        }
        end -= 1;
    }
    word.len()
}

/// The bytes of a word with a colon at a place, where it is within the word.
fn with_colon(alloc: Global, word: &[u8], place: usize) -> Result<Vec<u8>, Memory>
    ensures { IfOk result (λ bytes. bytes.items ≡ set word.now place 58) }
{
    let mut bytes = Vec::from_slice(alloc, word)?;
    if place < bytes.len() {
        bytes[place] = b':';
    }
    Ok(bytes)
}

/// The bytes of the pin that a word stands for.
fn pin_bytes(alloc: Global, word: &Name) -> Result<Vec<u8>, Memory>
    ensures bytes { IfOk result (λ bytes. bytes.items ≡ as_pin word.now) }
    ensures name { IfOk result (λ bytes. IsTrue (is_name bytes.items)) }
{
    let bytes = word.as_bytes();
    let pin = with_colon(alloc, bytes, last_split(bytes))?;
    Ok(pin)
}

/// The name of the pin that a word stands for: `instance:pin`, split at its last slash or colon.
pub(crate) fn pin_word(alloc: Global, word: &Name) -> Result<Name, Memory>
    ensures { IfOk result (λ name. name ≡ as_pin word.now) }
{
    let bytes = pin_bytes(alloc, word)?;
    Ok(Name::from_vec(bytes).unwrap())
}
