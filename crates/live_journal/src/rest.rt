//! What a file lacks once its board was closed.

ghost use Rattle.std.specs.Prelude.{◌+◌, ◌-◌, ◌≤◌, length};
ghost use Rattle.live_journal.specs.Desk.{PutsRest, RestBlamed};

use crate::desks::Unkept;
use crate::saving::Saves;
use sta_outside::{PutFault, Sink};
use sta_units::Memory;
use std::alloc::Global;
use timing_defs::Derates;

/// Puts what a file lacks of a list: it has the first entries, up to the number `kept`, and each put went well where `sound`.
///
/// # Errors
///
/// `Failed` where a put failed, now or before: before, the file stays as it was. `Memory` leaves the file as it was.
pub fn put_rest<T: Saves, F: Sink>(
    alloc: Global,
    last: &T,
    derates: &Derates,
    file: &mut F,
    kept: u64,
    sound: bool,
) -> Result<(), Unkept>
    requires low { T.from last.now ≤ kept }
    requires high { kept ≤ T.from last.now + length (T.entries last.now) }
    ensures rest { PutsRest (T.text derates.now) (T.from last.now) (T.entries last.now)
        (kept - T.from last.now) sound (F.written file.old) (F.written file.new) result }
    ensures blamed { RestBlamed sound (F.faults file.old) (F.faults file.new) result }
{
    if !sound {
        return Err(Unkept::Failed);
    }
    if last.count() == kept {
        return Ok(());
    }
    match last.text_from(alloc, derates, kept) {
        Ok(text) => match file.put(&text) {
            Ok(()) => Ok(()),
            Err(PutFault::Failed) => Err(Unkept::Failed),
        },
        Err(Memory) => Err(Unkept::Memory),
    }
}
