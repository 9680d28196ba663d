//! The lines of wrong input.

ghost use Rattle.std.specs.Prelude.{◌≡◌, ◌++◌, OnOk, IfOk};
ghost use Rattle.report_text.specs.Errors.{error_text};

use crate::pieces::{push, push_end, push_number, push_word};
use sta_units::Memory;
use std::alloc::Global;
use timing_defs::Code;

fn push_error(out: &mut Vec<u8>, code: Code, line: u64) -> Result<(), Memory>
    ensures { OnOk result (out.new.items ≡ out.old.items ++ error_text code line) }
{
    push(out, b"error")?;
    push_word(out, code.label().as_bytes())?;
    push_number(out, line)?;
    push_end(out)
}

/// The bytes of the line that a session is told in place of a row where a line of its input is wrong:
/// `error CODE LINE`. `line` counts the lines of the input, from 1.
///
/// # Errors
///
/// Want of memory alone.
pub fn error_bytes(alloc: Global, code: Code, line: u64) -> Result<Vec<u8>, Memory>
    ensures { IfOk result (λ bytes. bytes.items ≡ error_text code line) }
{
    let mut out = Vec::new(alloc);
    push_error(&mut out, code, line)?;
    Ok(out)
}
