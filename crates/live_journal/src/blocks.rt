//! The text of blocks of one entry each.

ghost use Rattle.std.specs.Prelude.{◌≡◌, ◌^◌, ◌≤◌, [], ◌∷◌, IfOk, OnOk};
ghost use Rattle.live_journal.specs.Desk.{entry_blocks, AddsBlock};

use eco_journal::block_text;
use sta_units::{Again, Memory, append};
use std::alloc::Global;
use timing_defs::{Derates, Entry, Items};

/// The greatest number that entries may stand behind.
const MOST: u64 = 1 << 62;

/// The entry alone, copied.
fn alone(alloc: Global, entry: &Entry) -> Result<Items<Entry>, Memory>
    ensures { IfOk result (λ one. one ≡ entry.now ∷ []) }
{
    let mut one = Items::with_room(alloc, 1)?;
    match entry.again(alloc) {
        Ok(entry) => {
            one.push(entry)?;
            Ok(one)
        }
        Err(Memory) => Err(Memory),
    }
}

/// A block of one entry, behind `first` others.
fn push_block(
    alloc: Global,
    out: &mut Vec<u8>,
    first: u64,
    derates: &Derates,
    entry: &Entry,
) -> Result<(), Memory>
    ensures text { OnOk result (AddsBlock first derates.now entry.now out.old.items out.new.items) }
    ensures low { OnOk result (first ≤ 2 ^ 62) }
{
    if first > MOST {
        return Err(Memory);
    }
    match alone(alloc, entry) {
        Ok(one) => {
            let text = block_text(alloc, first, derates, &one);
            drop(one);
            append(out, text?.as_slice())
        }
        Err(Memory) => Err(Memory),
    }
}

/// The text of blocks of one entry each, numbered behind `first` others, under factors in millionths.
///
/// # Errors
///
/// Want of memory alone.
#[tactic(auto, using(std::proofs::lemmas::List::drop_more))]
pub fn single_blocks(
    alloc: Global,
    derates: &Derates,
    first: u64,
    entries: &[Entry],
) -> Result<Vec<u8>, Memory>
    ensures { IfOk result (λ bytes. bytes.items ≡ entry_blocks derates.now first entries.now) }
{
    let mut bytes = Vec::new(alloc);
    let mut number = first;
    for entry in entries {
        push_block(alloc, &mut bytes, number, derates, entry)?;
        number += 1;
    }
    Ok(bytes)
}
