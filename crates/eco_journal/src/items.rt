//! The items of an edit of parasitics.

ghost use Rattle.std.specs.Str.{bytes_eq};
ghost use Rattle.std.specs.Prelude.{◌≡◌, ◌&&◌, codes, ◌+◌, ◌<◌, ◌≤◌, ◌∷◌, ◌++◌, [], List, drop, Bool, true, false, map, length, Ok, Err, None, Some, IfOk, MatchOption, MatchResult};
ghost use Rattle.eco_journal.specs.Lines.{part_of};
ghost use Rattle.eco_journal.specs.Words.{is_word};
ghost use Rattle.eco_journal.specs.Stops.{Gives, Unfits};
ghost use Rattle.eco_journal.specs.Items.{ItemWords, first_fits, most, inner, is_node, node_of, size_of, item_of, item, cap_node, res_from, cut_items, cap_of, res_of, with_item, with_items, bare, rc_of};

use crate::lines::Span;
use crate::numbers::{is, name_of, number_of, within};
use crate::stops::Stop;
use sta_units::{Af, Mo};
use std::alloc::Global;
use timing_defs::{Items, Name, NetRc, RcCap, RcNode, RcRes, is_name};

/// The greatest capacitance in aF, and the greatest resistance in mΩ.
const MOST: u64 = 1_000_000_000_000;

/// The greatest number of an inner node.
const LAST_NODE: u64 = 4_294_967_295;

/// An item by its words: a capacitance at a node, or a resistance between two.
#[derive(Drop)]
pub(crate) enum Item<'a> {
    Cap(Span<'a>, Span<'a>),
    Res(Span<'a>, Span<'a>, Span<'a>),
}

/// The digits behind `#`, where the word begins so.
fn inner(text: &[u8]) -> Option<&[u8]>
    ensures { MatchOption result (inner text.now ≡ None)
        (λ digits. inner text.now ≡ Some digits.now) }
{
    match text.split_first() {
        Some((first, digits)) if *first == b'#' => Some(digits),
        _ => None,
    }
}

/// Whether the word is a pin word, or `#` and a number.
pub(crate) fn is_node(word: &Span<'_>) -> bool
    ensures { result ≡ is_node (part_of word.now) }
{
    if !is_name(word.text) {
        return false;
    }
    match inner(word.text) {
        None => true,
        Some(digits) => number_of(digits).is_some(),
    }
}

/// The node that a word names.
fn node_of(alloc: Global, word: &Span<'_>) -> Result<RcNode, Stop>
    ensures { Gives result (node_of (part_of word.now)) }
{
    match inner(word.text) {
        None => Ok(RcNode::Pin(name_of(alloc, word.text)?)),
        Some(digits) => match within(0, LAST_NODE, number_of(digits)) {
            None => Err(Stop::Flawed(word.at)),
            Some(k) => Ok(RcNode::Inner(k as u32)),
        },
    }
}

/// The whole number of aF or mΩ that a word writes.
fn size_of(word: &Span<'_>) -> Result<u64, Stop>
    ensures value { Gives result (size_of (part_of word.now)) }
    ensures within { IfOk result (λ size. size ≤ most) }
{
    match within(0, MOST, number_of(word.text)) {
        None => Err(Stop::Flawed(word.at)),
        Some(size) => Ok(size),
    }
}

/// The word at a place, from 0.
#[tactic(auto, using(crate::proofs::ItemsLemmas::word_and_rest, crate::proofs::ItemsLemmas::no_word))]
fn word_at<'a>(words: &[Span<'a>], k: usize) -> Option<Span<'a>>
    ensures { MatchOption result (drop k (map part_of words.now) ≡ [])
        (λ word.
        (drop k (map part_of words.now) ≡ part_of word ∷ drop (k + 1) (map part_of words.now))
        × (k < length words.now)) }
{
    if k < words.len() {
        Some(words[k])
    } else {
        None
    }
}

/// The word of graphic bytes at a place.
fn graphic_at<'a>(words: &[Span<'a>], k: usize) -> Result<Span<'a>, Stop>
    ensures { MatchResult result
        (λ word.
        (drop k (map part_of words.now) ≡ part_of word ∷ drop (k + 1) (map part_of words.now))
        × (is_word (part_of word) ≡ true) × (k < length words.now))
        (λ stop. Unfits stop (first_fits is_word (drop k (map part_of words.now)) ≡ false)) }
{
    match word_at(words, k) {
        Some(word) if is_name(word.text) => Ok(word),
        _ => Err(Stop::Unfit),
    }
}

/// The word at a place, which names a node.
fn node_at<'a>(words: &[Span<'a>], k: usize) -> Result<Span<'a>, Stop>
    ensures { MatchResult result
        (λ word.
        (drop k (map part_of words.now) ≡ part_of word ∷ drop (k + 1) (map part_of words.now))
        × (is_node (part_of word) ≡ true) × (k < length words.now))
        (λ stop. Unfits stop (first_fits is_node (drop k (map part_of words.now)) ≡ false)) }
{
    match word_at(words, k) {
        Some(word) if is_node(&word) => Ok(word),
        _ => Err(Stop::Unfit),
    }
}

/// A capacitance from a place on, behind its `c`.
#[tactic(auto, unfolding(crate::specs::Items::cut_items))]
fn cap_item<'a>(words: &[Span<'a>], k: usize) -> Result<Item<'a>, Stop>
    ensures { (mixed : Bool) (items : List ItemWords)
        → MatchResult result
        (λ found.
        (cut_items mixed (item true) (items ++ item_of found ∷ [])
        (drop (k + 2) (map part_of words.now))
        ≡ cut_items mixed cap_node items (drop k (map part_of words.now)))
        × (k + 2 ≤ length words.now))
        (λ stop. Unfits stop
        (cut_items mixed cap_node items (drop k (map part_of words.now)) ≡ None)) }
{
    let node = node_at(words, k)?;
    let size = graphic_at(words, k + 1)?;
    Ok(Item::Cap(node, size))
}

/// A resistance from a place on, behind its `r`.
#[tactic(auto, unfolding(crate::specs::Items::cut_items))]
fn res_item<'a>(words: &[Span<'a>], k: usize) -> Result<Item<'a>, Stop>
    ensures { (mixed : Bool) (items : List ItemWords)
        → MatchResult result
        (λ found.
        (cut_items mixed (item mixed) (items ++ item_of found ∷ [])
        (drop (k + 3) (map part_of words.now))
        ≡ cut_items mixed res_from items (drop k (map part_of words.now)))
        × (k + 3 ≤ length words.now))
        (λ stop. Unfits stop
        (cut_items mixed res_from items (drop k (map part_of words.now)) ≡ None)) }
{
    let from = node_at(words, k)?;
    let to = node_at(words, k + 1)?;
    let size = graphic_at(words, k + 2)?;
    Ok(Item::Res(from, to, size))
}

/// An item, the place behind it, and whether a capacitance may stand there.
#[derive(Drop)]
struct Cut<'a> {
    item: Item<'a>,
    next: usize,
    caps: bool,
}

fn is_cap(word: &[u8], caps: bool) -> bool
    ensures { result ≡ (bytes_eq word.now (codes "c") && caps) }
{
    is(word, b"c") && caps
}

/// The item whose first word stands at a place. A capacitance may stand there where `caps` is true.
#[tactic(auto, unfolding(crate::specs::Items::cut_items))]
fn item_at<'a>(
    words: &[Span<'a>],
    k: usize,
    first: &Span<'_>,
    caps: bool,
    mixed: bool,
) -> Result<Cut<'a>, Stop>
    requires { (drop k (map part_of words.now)
        ≡ part_of first.now ∷ drop (k + 1) (map part_of words.now)) × (k < length words.now) }
    ensures { (items : List ItemWords)
        → MatchResult result
        (λ cut.
        (cut_items mixed (item cut.caps) (items ++ item_of cut.item ∷ [])
        (drop cut.next (map part_of words.now))
        ≡ cut_items mixed (item caps) items (drop k (map part_of words.now))) × (k < cut.next)
        × (cut.next ≤ length words.now))
        (λ stop. Unfits stop
        (cut_items mixed (item caps) items (drop k (map part_of words.now)) ≡ None)) }
{
    let behind = k + 1;
    if is_cap(first.text, caps) {
        let item = cap_item(words, behind)?;
        return Ok(Cut {
            item,
            next: behind + 2,
            caps: true,
        });
    }
    if is(first.text, b"r") {
        let item = res_item(words, behind)?;
        return Ok(Cut {
            item,
            next: behind + 3,
            caps: mixed,
        });
    }
    Err(Stop::Unfit)
}

/// The items that words write. Where they are not `mixed`, the capacitances come first.
#[tactic(auto, unfolding(crate::specs::Items::cut_items))]
fn cut_items<'a>(alloc: Global, words: &[Span<'a>], mixed: bool) -> Result<Items<Item<'a>>, Stop>
    ensures { MatchResult result
        (λ items. cut_items mixed (item true) [] (map part_of words.now) ≡ Some (map item_of items))
        (λ stop. Unfits stop (cut_items mixed (item true) [] (map part_of words.now) ≡ None)) }
{
    let mut items = Items::new(alloc);
    let mut caps = true;
    let mut k = 0;
    'each: while let Some(word) = word_at(words, k) {
        let cut = item_at(words, k, &word, caps, mixed)?;
        items.push(cut.item)?;
        caps = cut.caps;
        k = cut.next;
    }
    Ok(items)
}

fn cap_of(alloc: Global, node: &Span<'_>, size: &Span<'_>) -> Result<RcCap, Stop>
    ensures { Gives result (cap_of (part_of node.now) (part_of size.now)) }
{
    let node = node_of(alloc, node)?;
    let cap = size_of(size)?;
    Ok(RcCap {
        node,
        cap: Af(cap as i64),
    })
}

fn res_of(alloc: Global, from: &Span<'_>, to: &Span<'_>, size: &Span<'_>) -> Result<RcRes, Stop>
    ensures { Gives result (res_of (part_of from.now) (part_of to.now) (part_of size.now)) }
{
    let a = node_of(alloc, from)?;
    let b = node_of(alloc, to)?;
    let res = size_of(size)?;
    Ok(RcRes {
        a,
        b,
        res: Mo(res as i64),
    })
}

/// The parasitics with one item more.
fn with_item(alloc: Global, mut rc: NetRc, item: &Item<'_>) -> Result<NetRc, Stop>
    ensures { Gives result (with_item rc (item_of item.now)) }
{
    match item {
        Item::Cap(node, size) => rc.caps.push(cap_of(alloc, node, size)?)?,
        Item::Res(from, to, size) => rc.ress.push(res_of(alloc, from, to, size)?)?,
    }
    Ok(rc)
}

fn bare(alloc: Global, net: Name) -> NetRc
    ensures { result ≡ bare net }
{
    NetRc {
        net,
        caps: Items::new(alloc),
        ress: Items::new(alloc),
        lump: Af(0),
    }
}

/// The parasitics with the items, each kind in order.
#[tactic(auto, using(std::proofs::lemmas::List::drop_more, crate::proofs::ItemsLemmas::stopped), unfolding(crate::specs::Items::with_items))]
fn with_items(alloc: Global, net: Name, items: &[Item<'_>]) -> Result<NetRc, Stop>
    ensures { Gives result (with_items (Ok (bare net)) (map item_of items.now)) }
{
    let mut rc = bare(alloc, net);
    for item in items {
        rc = with_item(alloc, rc, item)?;
    }
    Ok(rc)
}

/// The parasitics of a net that the words behind its name write.
///
/// # Errors
///
/// Words of another form, and otherwise the first node or number word that is out of its range.
pub(crate) fn rc_of(
    alloc: Global,
    net: Name,
    words: &[Span<'_>],
    mixed: bool,
) -> Result<NetRc, Stop>
    ensures { Gives result (rc_of mixed net (map part_of words.now)) }
{
    let items = cut_items(alloc, words, mixed)?;
    with_items(alloc, net, items.as_slice())
}
