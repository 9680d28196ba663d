//! Names that a reader keeps, and the numbers that it keeps by name.

use crate::texts::Text;
use sta_text::{Names, Places};
use std::alloc::Global;

/// The names that are looked for at the end.
const SOUGHT: &[u8] = b"abc";

/// Keeps a name, and its place as its number. Writes whether the name is new.
fn keep<'a>(
    names: &mut Names<'a>,
    places: &mut Places<'a>,
    name: &'a [u8],
    at: usize,
    out: &mut Text,
) {
    out.add(name);
    match names.add(name) {
        Ok(true) => out.add(b" new\n"),
        Ok(false) => out.add(b" known\n"),
        Err(_) => out.want(),
    }
    if places.set(name, at).is_err() {
        out.want();
    }
}

/// Writes whether a name was kept, and its last number.
fn seek(names: &Names<'_>, places: &Places<'_>, name: &[u8], out: &mut Text) {
    out.add(name);
    if names.has(name) {
        out.add(b" kept");
    }
    match places.find(name) {
        Some(number) => out.count(b" at ", number as u64),
        None => out.add(b" nowhere"),
    }
    out.end();
}

/// Keeps each byte as a name, and seeks those that might be kept.
pub(crate) fn answer_names(alloc: Global, document: &[u8], out: &mut Text) {
    let mut names = Names::new(alloc);
    let mut places = Places::new(alloc);
    for (at, name) in document.chunks(1).enumerate() {
        keep(&mut names, &mut places, name, at, out);
    }
    for name in SOUGHT.chunks(1) {
        seek(&names, &places, name, out);
    }
    drop(names);
    drop(places);
}
