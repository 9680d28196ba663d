//! The lines that a run writes where it is refused, put behind the bytes that are there.

ghost use Rattle.std.specs.Prelude.{◌≡◌, ◌++◌, ◌∷◌, [], OnOk, IfOk};
ghost use Rattle.timing_defs.specs.Output.{word, number};
ghost use Rattle.shell_core.specs.Documents.{words_line, design_line, entry_line, refusal_line, shelf_line, role_text};

use crate::discards::discard_text;
use crate::documents::{How, Role};
use report_text::fault_bytes;
use sta_units::Memory;
use std::alloc::Global;
use timing_defs::{Code, Fault};

fn push(out: &mut Vec<u8>, text: &[u8]) -> Result<(), Memory>
    ensures { OnOk result (out.new.items ≡ out.old.items ++ text.now) }
{
    out.extend_from_slice(text)?;
    Ok(())
}

fn push_word(out: &mut Vec<u8>, text: &[u8]) -> Result<(), Memory>
    ensures { OnOk result (out.new.items ≡ out.old.items ++ word text.now) }
{
    push(out, b" ")?;
    push(out, text)
}

fn push_end(out: &mut Vec<u8>) -> Result<(), Memory>
    ensures { OnOk result (out.new.items ≡ out.old.items ++ 10 ∷ []) }
{
    push(out, b"\n")
}

fn push_number(alloc: Global, out: &mut Vec<u8>, n: u64) -> Result<(), Memory>
    ensures { OnOk result (out.new.items ≡ out.old.items ++ number n) }
{
    let digits = n.to_string(alloc)?;
    push_word(out, digits.as_bytes())
}

/// The line of words that ask for no run.
///
/// # Errors
///
/// Want of memory.
pub fn words_line(alloc: Global) -> Result<Vec<u8>, Memory>
    ensures { IfOk result (λ text. text.items ≡ words_line) }
{
    let mut text = Vec::new(alloc);
    push(&mut text, b"fault words\n")?;
    Ok(text)
}

/// The line of documents that have a fault when they are linked, or of a design that has one.
///
/// # Errors
///
/// Want of memory.
pub fn design_line(alloc: Global, fault: &Fault) -> Result<Vec<u8>, Memory>
    ensures { IfOk result (λ text. text.items ≡ design_line fault.now) }
{
    let words = fault_bytes(alloc, fault)?;
    let mut text = Vec::new(alloc);
    push(&mut text, b"fault design")?;
    push_word(&mut text, words.as_slice())?;
    push_end(&mut text)?;
    Ok(text)
}

/// The line of a saved entry, counted from 1, that is refused.
///
/// # Errors
///
/// Want of memory.
pub fn entry_line(alloc: Global, entry: u64, fault: &Fault) -> Result<Vec<u8>, Memory>
    ensures { IfOk result (λ text. text.items ≡ entry_line entry fault.now) }
{
    let words = fault_bytes(alloc, fault)?;
    let mut text = Vec::new(alloc);
    push(&mut text, b"fault journal J4")?;
    push_number(alloc, &mut text, entry)?;
    push_word(&mut text, words.as_slice())?;
    push_end(&mut text)?;
    Ok(text)
}

fn push_role(alloc: Global, out: &mut Vec<u8>, role: Role) -> Result<(), Memory>
    ensures { OnOk result (out.new.items ≡ out.old.items ++ word (role_text role)) }
{
    let label = role.label(alloc)?;
    push_word(out, label.as_slice())
}

fn push_refusal(
    alloc: Global,
    out: &mut Vec<u8>,
    role: Role,
    code: Code,
    place: u64,
) -> Result<(), Memory>
    ensures { OnOk result
        (out.new.items ≡ out.old.items ++ refusal_line role (record { code = code; at = place })) }
{
    push(out, b"fault")?;
    push_role(alloc, out, role)?;
    push_word(out, code.label().as_bytes())?;
    push_number(alloc, out, place)?;
    push_end(out)
}

/// The line of a document that has a fault at a place.
///
/// # Errors
///
/// Want of memory.
pub fn refusal_line(alloc: Global, role: Role, code: Code, place: u64) -> Result<Vec<u8>, Memory>
    ensures { IfOk result
        (λ text. text.items ≡ refusal_line role (record { code = code; at = place })) }
{
    let mut text = Vec::new(alloc);
    match push_refusal(alloc, &mut text, role, code, place) {
        Ok(()) => Ok(text),
        Err(Memory) => {
            discard_text(text);
            Err(Memory)
        }
    }
}

/// The line of a document that the shelf did not give.
///
/// # Errors
///
/// Want of memory.
pub fn shelf_line(alloc: Global, name: &str, how: How) -> Result<Vec<u8>, Memory>
    ensures { IfOk result (λ text. text.items ≡ shelf_line name.now how) }
{
    let mut text = Vec::new(alloc);
    push(&mut text, b"fault shelf")?;
    push_word(&mut text, name.as_bytes())?;
    push_word(&mut text, how.label().as_bytes())?;
    push_end(&mut text)?;
    Ok(text)
}
