//! The lines of edits.

ghost use Rattle.std.specs.Prelude.{◌≡◌, true, false, drop, map, MatchResult};
ghost use Rattle.std.specs.List.{list_all};
ghost use Rattle.eco_journal.specs.Lines.{part_of};
ghost use Rattle.eco_journal.specs.Words.{is_word};
ghost use Rattle.eco_journal.specs.Stops.{Gives, Unfits};
ghost use Rattle.eco_journal.specs.EditLines.{one_name, two_names, texts_of, buffer, is_dropped, parasitics, edit_of};

use crate::items::rc_of;
use crate::lines::Span;
use crate::numbers::{name_at, name_of, says};
use crate::stops::Stop;
use std::alloc::Global;
use timing_defs::{Edit, Items, Name};

fn one_name(alloc: Global, words: &[Span<'_>]) -> Result<Name, Stop>
    ensures { Gives result (one_name (map part_of words.now)) }
{
    if words.len() != 2 {
        return Err(Stop::Unfit);
    }
    name_at(alloc, words, 1)
}

fn two_names(alloc: Global, words: &[Span<'_>]) -> Result<(Name, Name), Stop>
    ensures { Gives result (two_names (map part_of words.now)) }
{
    if words.len() != 3 {
        return Err(Stop::Unfit);
    }
    let first = name_at(alloc, words, 1)?;
    let second = name_at(alloc, words, 2)?;
    Ok((first, second))
}

/// The words as names.
#[tactic(auto, using(std::proofs::lemmas::List::drop_more))]
fn names_of(alloc: Global, words: &[Span<'_>]) -> Result<Items<Name>, Stop>
    ensures { MatchResult result
        (λ names. (list_all is_word (map part_of words.now) ≡ true)
        × (names ≡ texts_of (map part_of words.now)))
        (λ stop. Unfits stop (list_all is_word (map part_of words.now) ≡ false)) }
{
    let mut names = Items::new(alloc);
    for word in words {
        names.push(name_of(alloc, word.text)?)?;
    }
    Ok(names)
}

/// A buffer: its net, instance, new net and cell, and its sinks.
#[tactic(auto, using(crate::proofs::EditLemmas::map_drop))]
fn buffer(alloc: Global, words: &[Span<'_>]) -> Result<Edit, Stop>
    ensures { Gives result (buffer (map part_of words.now)) }
{
    if words.len() < 6 {
        return Err(Stop::Unfit);
    }
    let net = name_at(alloc, words, 1)?;
    let inst = name_at(alloc, words, 2)?;
    let fresh = name_at(alloc, words, 3)?;
    let cell = name_at(alloc, words, 4)?;
    let sinks = names_of(alloc, words.split_at(5).1)?;
    Ok(Edit::InsertBuffer {
        net,
        inst,
        fresh,
        cell,
        sinks,
    })
}

fn is_dropped(words: &[Span<'_>]) -> bool
    ensures { result ≡ is_dropped (map part_of words.now) }
{
    words.len() == 3 && says(words, 2, b"none")
}

/// New parasitics of a net, or none.
#[tactic(auto, using(crate::proofs::EditLemmas::map_drop))]
fn parasitics(alloc: Global, words: &[Span<'_>], mixed: bool) -> Result<Edit, Stop>
    ensures { Gives result (parasitics mixed (map part_of words.now)) }
{
    if words.len() < 3 {
        return Err(Stop::Unfit);
    }
    let net = name_at(alloc, words, 1)?;
    if is_dropped(words) {
        return Ok(Edit::SetParasitics { net, rc: None });
    }
    let of = net.copied(alloc)?;
    let rc = rc_of(alloc, of, words.split_at(2).1, mixed)?;
    Ok(Edit::SetParasitics { net, rc: Some(rc) })
}

/// The edit that the words of a line write, as `repower_gate I C`. In the items of parasitics the
/// capacitances come first, or where they are `mixed` in any order.
///
/// # Errors
///
/// Words of another form, and otherwise the first number word that is none or out of its range.
#[tactic(auto, unfolding(crate::specs::EditLines::edit_of))]
pub fn read_edit(alloc: Global, words: &[Span<'_>], mixed: bool) -> Result<Edit, Stop>
    ensures { Gives result (edit_of mixed (map part_of words.now)) }
{
    if says(words, 0, b"repower_gate") {
        let (inst, cell) = two_names(alloc, words)?;
        Ok(Edit::Repower { inst, cell })
    } else if says(words, 0, b"insert_gate") {
        let (inst, cell) = two_names(alloc, words)?;
        Ok(Edit::InsertGate { inst, cell })
    } else if says(words, 0, b"remove_gate") {
        let inst = one_name(alloc, words)?;
        Ok(Edit::RemoveGate { inst })
    } else if says(words, 0, b"insert_net") {
        let net = one_name(alloc, words)?;
        Ok(Edit::InsertNet { net })
    } else if says(words, 0, b"remove_net") {
        let net = one_name(alloc, words)?;
        Ok(Edit::RemoveNet { net })
    } else if says(words, 0, b"connect_pin") {
        let (pin, net) = two_names(alloc, words)?;
        Ok(Edit::Connect { pin, net })
    } else if says(words, 0, b"disconnect_pin") {
        let pin = one_name(alloc, words)?;
        Ok(Edit::Disconnect { pin })
    } else if says(words, 0, b"insert_buffer") {
        buffer(alloc, words)
    } else if says(words, 0, b"set_parasitics") {
        parasitics(alloc, words, mixed)
    } else {
        Err(Stop::Unfit)
    }
}
