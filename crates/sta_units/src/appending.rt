//! Bytes at the end of a text, each behind one clause.

ghost use Rattle.std.specs.Prelude.{◌≡◌, ◌++◌, OnOk, decimal};

use crate::units::Memory;
use std::alloc::Global;

/// Adds bytes at the end.
///
/// # Errors
///
/// Want of memory alone.
pub fn append(bytes: &mut Vec<u8>, more: &[u8]) -> Result<(), Memory>
    ensures { OnOk result (bytes.new.items ≡ bytes.old.items ++ more.now) }
{
    match bytes.extend_from_slice(more) {
        Ok(()) => Ok(()),
        Err(_) => Err(Memory),
    }
}

/// Adds a number in decimal digits, without leading zeros.
///
/// # Errors
///
/// Want of memory alone.
pub fn append_number(alloc: Global, bytes: &mut Vec<u8>, number: u64) -> Result<(), Memory>
    ensures { OnOk result (bytes.new.items ≡ bytes.old.items ++ decimal number) }
{
    let digits = number.to_string(alloc)?;
    append(bytes, digits.as_bytes())
}
