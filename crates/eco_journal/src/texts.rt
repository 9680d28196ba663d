//! The bytes of entries and of blocks.

ghost use Rattle.std.specs.Prelude.{◌≡◌, ◌+◌, ◌^◌, ◌≤◌, ◌++◌, ◌∷◌, [], OnOk, IfOk, codes, decimal, length};
ghost use Rattle.std.specs.List.{flat_map};
ghost use Rattle.std.specs.String.{string_bytes};
ghost use Rattle.timing_defs.specs.Output.{line, word, number, whole_text, rc_node_text, cap_text, res_text, rc_text, edit_text, entry_text, entries_text};
ghost use Rattle.timing_defs.specs.Saved.{derates_text, block_text};

use sta_units::Memory;
use std::alloc::Global;
use timing_defs::{Derates, Edit, Entry, Items, Name, NetRc, RcCap, RcNode, RcRes};

fn push(out: &mut String, text: &str) -> Result<(), Memory>
    ensures { OnOk result (string_bytes out.new ≡ string_bytes out.old ++ text.now) }
{
    out.push_str(text)?;
    Ok(())
}

/// A blank and a name.
#[tactic(auto, using(crate::proofs::TextLemmas::name_is_text))]
fn push_name(out: &mut String, name: &Name) -> Result<(), Memory>
    ensures { OnOk result (string_bytes out.new ≡ string_bytes out.old ++ word name.now) }
{
    let Ok(text) = str::from_utf8(name.as_bytes()) else {
        unreachable!()
    };
    push(out, " ")?;
    push(out, text)
}

/// A blank and two names.
fn push_pair(out: &mut String, first: &Name, second: &Name) -> Result<(), Memory>
    ensures { OnOk result
        (string_bytes out.new ≡ string_bytes out.old ++ word first.now ++ word second.now) }
{
    push_name(out, first)?;
    push_name(out, second)
}

/// Names, each behind a blank.
#[tactic(auto, using(std::proofs::lemmas::List::drop_more))]
fn push_names(out: &mut String, names: &[Name]) -> Result<(), Memory>
    ensures { OnOk result (string_bytes out.new ≡ string_bytes out.old ++ flat_map word names.now) }
{
    for name in names {
        push_name(out, name)?;
    }
    Ok(())
}

/// A blank and a number.
fn push_number(alloc: Global, out: &mut String, n: u64) -> Result<(), Memory>
    ensures { OnOk result (string_bytes out.new ≡ string_bytes out.old ++ number n) }
{
    let digits = n.to_string(alloc)?;
    push(out, " ")?;
    push(out, digits.as_str())
}

/// A blank and a number that is not negative.
fn push_whole(alloc: Global, out: &mut String, n: i64) -> Result<(), Memory>
    ensures { OnOk result (string_bytes out.new ≡ string_bytes out.old ++ word (whole_text n)) }
{
    push_number(alloc, out, n.unsigned_abs())
}

/// A blank and a node.
fn push_node(alloc: Global, out: &mut String, node: &RcNode) -> Result<(), Memory>
    ensures { OnOk result
        (string_bytes out.new ≡ string_bytes out.old ++ word (rc_node_text node.now)) }
{
    match node {
        RcNode::Pin(name) => push_name(out, name),
        RcNode::Inner(k) => {
            let digits = k.to_string(alloc)?;
            push(out, " #")?;
            push(out, digits.as_str())
        }
    }
}

fn push_cap(alloc: Global, out: &mut String, cap: &RcCap) -> Result<(), Memory>
    ensures { OnOk result (string_bytes out.new ≡ string_bytes out.old ++ cap_text cap.now) }
{
    push(out, " c")?;
    push_node(alloc, out, &cap.node)?;
    push_whole(alloc, out, cap.cap.0)
}

fn push_res(alloc: Global, out: &mut String, res: &RcRes) -> Result<(), Memory>
    ensures { OnOk result (string_bytes out.new ≡ string_bytes out.old ++ res_text res.now) }
{
    push(out, " r")?;
    push_node(alloc, out, &res.a)?;
    push_node(alloc, out, &res.b)?;
    push_whole(alloc, out, res.res.0)
}

#[tactic(auto, using(std::proofs::lemmas::List::drop_more))]
fn push_caps(alloc: Global, out: &mut String, caps: &[RcCap]) -> Result<(), Memory>
    ensures { OnOk result
        (string_bytes out.new ≡ string_bytes out.old ++ flat_map cap_text caps.now) }
{
    for cap in caps {
        push_cap(alloc, out, cap)?;
    }
    Ok(())
}

#[tactic(auto, using(std::proofs::lemmas::List::drop_more))]
fn push_ress(alloc: Global, out: &mut String, ress: &[RcRes]) -> Result<(), Memory>
    ensures { OnOk result
        (string_bytes out.new ≡ string_bytes out.old ++ flat_map res_text ress.now) }
{
    for res in ress {
        push_res(alloc, out, res)?;
    }
    Ok(())
}

/// The items of parasitics, the capacitances first, or `none`.
fn push_rc(alloc: Global, out: &mut String, rc: &Option<NetRc>) -> Result<(), Memory>
    ensures { OnOk result (string_bytes out.new ≡ string_bytes out.old ++ rc_text rc.now) }
{
    match rc {
        None => push(out, " none"),
        Some(rc) => {
            push_caps(alloc, out, rc.caps.as_slice())?;
            push_ress(alloc, out, rc.ress.as_slice())
        }
    }
}

/// A verb and the one name behind it.
fn push_one(out: &mut String, verb: &str, name: &Name) -> Result<(), Memory>
    ensures { OnOk result
        (string_bytes out.new ≡ string_bytes out.old ++ (verb.now ++ word name.now)) }
{
    push(out, verb)?;
    push_name(out, name)
}

/// A verb and the two names behind it.
fn push_two(out: &mut String, verb: &str, first: &Name, second: &Name) -> Result<(), Memory>
    ensures { OnOk result
        (string_bytes out.new
        ≡ string_bytes out.old ++ (verb.now ++ word first.now ++ word second.now)) }
{
    push(out, verb)?;
    push_pair(out, first, second)
}

fn push_buffer(
    out: &mut String,
    net: &Name,
    inst: &Name,
    fresh: &Name,
    cell: &Name,
    sinks: &[Name],
) -> Result<(), Memory>
    ensures { OnOk result
        (string_bytes out.new
        ≡ string_bytes out.old ++
        (codes "insert_buffer" ++ word net.now ++ word inst.now ++ word fresh.now ++ word cell.now
        ++ flat_map word sinks.now)) }
{
    push(out, "insert_buffer")?;
    push_pair(out, net, inst)?;
    push_pair(out, fresh, cell)?;
    push_names(out, sinks)
}

/// The words of an edit.
fn push_edit(alloc: Global, out: &mut String, edit: &Edit) -> Result<(), Memory>
    ensures { OnOk result (string_bytes out.new ≡ string_bytes out.old ++ edit_text edit.now) }
{
    match edit {
        Edit::Repower { inst, cell } => push_two(out, "repower_gate", inst, cell),
        Edit::InsertGate { inst, cell } => push_two(out, "insert_gate", inst, cell),
        Edit::RemoveGate { inst } => push_one(out, "remove_gate", inst),
        Edit::InsertNet { net } => push_one(out, "insert_net", net),
        Edit::RemoveNet { net } => push_one(out, "remove_net", net),
        Edit::Connect { pin, net } => push_two(out, "connect_pin", pin, net),
        Edit::Disconnect { pin } => push_one(out, "disconnect_pin", pin),
        Edit::InsertBuffer {
            net,
            inst,
            fresh,
            cell,
            sinks,
        } => push_buffer(out, net, inst, fresh, cell, sinks.as_slice()),
        Edit::SetParasitics { net, rc } => {
            push_one(out, "set_parasitics", net)?;
            push_rc(alloc, out, rc)
        }
    }
}

fn push_edit_line(alloc: Global, out: &mut String, edit: &Edit) -> Result<(), Memory>
    ensures { OnOk result
        (string_bytes out.new ≡ string_bytes out.old ++ line (edit_text edit.now)) }
{
    push_edit(alloc, out, edit)?;
    push(out, "\n")
}

#[tactic(auto, using(std::proofs::lemmas::List::drop_more))]
fn push_edits(alloc: Global, out: &mut String, edits: &[Edit]) -> Result<(), Memory>
    ensures { OnOk result
        (string_bytes out.new
        ≡ string_bytes out.old ++ flat_map (λ edit. line (edit_text edit)) edits.now) }
{
    for edit in edits {
        push_edit_line(alloc, out, edit)?;
    }
    Ok(())
}

fn push_entry_head(
    alloc: Global,
    out: &mut String,
    place: u64,
    session: u32,
    edits: usize,
) -> Result<(), Memory>
    ensures { OnOk result
        (string_bytes out.new
        ≡ string_bytes out.old ++ line
        (codes "entry" ++ number place ++ codes " session" ++ number session ++ codes " edits" ++
        number edits)) }
{
    push(out, "entry")?;
    push_number(alloc, out, place)?;
    push(out, " session")?;
    push_number(alloc, out, session as u64)?;
    push(out, " edits")?;
    push_number(alloc, out, edits as u64)?;
    push(out, "\n")
}

fn push_entry(alloc: Global, out: &mut String, place: u64, entry: &Entry) -> Result<(), Memory>
    ensures { OnOk result
        (string_bytes out.new ≡ string_bytes out.old ++ entry_text place entry.now) }
{
    let edits = entry.eco.edits.as_slice();
    push_entry_head(alloc, out, place, entry.session, edits.len())?;
    push_edits(alloc, out, edits)
}

/// The text of an entry with its number: `entry N session S edits M`, and its edits, a line each.
///
/// # Errors
///
/// Want of memory alone.
pub fn entry_text(alloc: Global, number: u64, entry: &Entry) -> Result<String, Memory>
    ensures { IfOk result (λ text. string_bytes text ≡ entry_text number entry.now) }
{
    let mut out = String::new(alloc);
    push_entry(alloc, &mut out, number, entry)?;
    Ok(out)
}

/// Entries with their numbers, behind so many others.
#[tactic(auto, using(std::proofs::lemmas::List::drop_more))]
fn push_entries(
    alloc: Global,
    out: &mut String,
    first: u64,
    entries: &[Entry],
) -> Result<(), Memory>
    requires { first ≤ 2 ^ 62 }
    ensures { OnOk result
        (string_bytes out.new ≡ string_bytes out.old ++ entries_text (first + 1) entries.now) }
{
    let mut number = first;
    for entry in entries {
        number += 1;
        push_entry(alloc, out, number, entry)?;
    }
    Ok(())
}

fn push_derates(alloc: Global, out: &mut String, derates: &Derates) -> Result<(), Memory>
    ensures { OnOk result
        (string_bytes out.new ≡ string_bytes out.old ++ line (derates_text derates.now)) }
{
    push(out, "derates")?;
    push_number(alloc, out, derates.early_cell as u64)?;
    push_number(alloc, out, derates.late_cell as u64)?;
    push_number(alloc, out, derates.early_net as u64)?;
    push_number(alloc, out, derates.late_net as u64)?;
    push(out, "\n")
}

fn push_block_head(alloc: Global, out: &mut String, first: u64, count: usize) -> Result<(), Memory>
    ensures { OnOk result
        (string_bytes out.new
        ≡ string_bytes out.old ++ line (codes "journal 2" ++ number first ++ number count)) }
{
    push(out, "journal 2")?;
    push_number(alloc, out, first)?;
    push_number(alloc, out, count as u64)?;
    push(out, "\n")
}

/// The text of a block of a saved journal: `journal 2 FIRST COUNT`, the factors in millionths, and
/// the entries, numbered from `first + 1`.
///
/// # Errors
///
/// Want of memory alone.
pub fn block_text(
    alloc: Global,
    first: u64,
    derates: &Derates,
    entries: &Items<Entry>,
) -> Result<Items<u8>, Memory>
    requires { first ≤ 2 ^ 62 }
    ensures { IfOk result (λ bytes. bytes ≡ block_text first derates.now entries.now) }
{
    let mut out = String::new(alloc);
    push_block_head(alloc, &mut out, first, entries.len())?;
    push_derates(alloc, &mut out, derates)?;
    push_entries(alloc, &mut out, first, entries.as_slice())?;
    Ok(Items::from_vec(out.into_bytes()))
}
