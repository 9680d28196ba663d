//! The segments at each node.

ghost use Rattle.std.specs.Prelude.{◌≡◌, ◌<◌, ◌≤◌, [], length, get_or, IfOk, IfErr, OnOk};
ghost use Rattle.std.specs.List.{AllByRecursion};
ghost use Rattle.rc_tree.specs.declared.faults.RcFault.TheVariants.{Memory as memory};
ghost use Rattle.rc_tree.specs.Growth.{segment_at};
ghost use Rattle.rc_tree.specs.Loops.{IsReady, AreIndexed};
ghost use Rattle.rc_tree.specs.Listing.{listed, listed_at_both, AreAllBelow};

use crate::faults::RcFault;
use crate::forests::segment_at;
use crate::segments::Segment;
use std::alloc::Global;
use std::marker::Model;
use timing_defs::Items;

/// The most segments that are all looked at from each node.
const FEW: usize = 8;

/// The segments to look at from each of `count` nodes: all where they are few, or else a list for each
/// node. Contracts see a list for each node.
#[derive(Drop)]
pub(crate) struct LinkLists {
    count: usize,
    all: Option<Items<usize>>,
    own: Vec<Items<usize>>,
}

impl Model for LinkLists {
    ghost use Rattle.std.specs.Prelude.{List, ℕ};
    ghost use Rattle.std.specs.Coded.{coded_list, coded_ℕ};
    ghost use Rattle.rc_tree.specs.Listing.{links_of};

    ghost Value = { List (List ℕ) };

    ghost coded = { coded_list (coded_list coded_ℕ) };

    ghost view = { λ l. links_of l.all l.count l.own.items };
}

impl LinkLists {
    /// How many nodes there are.
    pub(crate) fn len(&self) -> usize
        ensures { result ≡ length self.now }
    {
        match &self.all {
            Some(_) => self.count,
            None => self.own.len(),
        }
    }

    /// The segments to look at from a node.
    pub(crate) fn at(&self, node: usize) -> &[usize]
        requires { node < length self.now }
        ensures { result.now ≡ get_or self.now node [] }
    {
        match &self.all {
            Some(all) => all.as_slice(),
            None => self.own[node].as_slice(),
        }
    }
}

/// Adds a segment to the list of a node.
fn add_link(links: &mut Vec<Items<usize>>, node: usize, index: usize) -> Result<(), RcFault>
    requires { node < length links.old.items }
    ensures added { OnOk result (links.new.items ≡ listed links.old.items node index) }
    ensures err { IfErr result (λ fault. fault ≡ memory) }
{
    links[node].push(index)?;
    Ok(())
}

/// Adds a segment to the lists of its two ends.
fn add_segment(
    links: Vec<Items<usize>>,
    segment: Segment,
    index: usize,
) -> Result<Vec<Items<usize>>, RcFault>
    requires a { segment.a < length links.items }
    requires b { segment.b < length links.items }
    ensures added { IfOk result (λ more. more.items ≡ listed_at_both links.items segment index) }
    ensures err { IfErr result (λ fault. fault ≡ memory) }
{
    let mut more = links;
    add_link(&mut more, segment.a, index)?;
    add_link(&mut more, segment.b, index)?;
    Ok(more)
}

/// An empty list for each node.
#[tactic(auto, using(crate::proofs::Linking::none_more))]
fn no_links(alloc: Global, count: usize) -> Result<Vec<Items<usize>>, RcFault>
    ensures len { IfOk result (λ links. length links.items ≡ count) }
    ensures none { IfOk result (λ links. AllByRecursion (λ list. list ≡ []) links.items) }
    ensures err { IfErr result (λ fault. fault ≡ memory) }
{
    let mut links = Vec::with_capacity(alloc, count)?;
    for _ in 0..count {
        match links.push(Items::new(alloc)) {
            Ok(()) => (),
            Err(_) => return Err(RcFault::Memory),
        }
    }
    Ok(links)
}

/// The lists of the segments at each of `count` nodes.
#[tactic(auto, using(crate::proofs::Linking::linking))]
fn own_links(
    alloc: Global,
    count: usize,
    segments: &[Segment],
) -> Result<Vec<Items<usize>>, RcFault>
    requires { IsReady segments.now count }
    ensures len { IfOk result (λ links. length links.items ≡ count) }
    ensures indexed { IfOk result (λ links. AreIndexed segments.now links.items) }
    ensures err { IfErr result (λ fault. fault ≡ memory) }
{
    let mut links = no_links(alloc, count)?;
    for index in 0..segments.len() {
        links = add_segment(links, segment_at(segments, index), index)?;
    }
    Ok(links)
}

/// The numbers below `count`.
fn all_below(alloc: Global, count: usize) -> Result<Items<usize>, RcFault>
    ensures all { IfOk result (AreAllBelow count) }
    ensures err { IfErr result (λ fault. fault ≡ memory) }
{
    let mut all = Items::with_room(alloc, count)?;
    for index in 0..count {
        all.push(index)?;
    }
    Ok(all)
}

/// The segments to look at from each of `count` nodes.
#[tactic(auto, using(crate::proofs::Linking::indexed_all))]
pub(crate) fn node_links(
    alloc: Global,
    count: usize,
    segments: &[Segment],
) -> Result<LinkLists, RcFault>
    requires { IsReady segments.now count }
    ensures len { IfOk result (λ links. length links ≡ count) }
    ensures indexed { IfOk result (λ links. AreIndexed segments.now links) }
    ensures err { IfErr result (λ fault. fault ≡ memory) }
{
    if segments.len() <= FEW {
        let all = all_below(alloc, segments.len())?;
        return Ok(LinkLists {
            count,
            all: Some(all),
            own: Vec::new(alloc),
        });
    }
    let own = own_links(alloc, count, segments)?;
    Ok(LinkLists {
        count,
        all: None,
        own,
    })
}
