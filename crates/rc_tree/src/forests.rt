//! Forests of resistors, found breadth first from each node that none before it reached.

ghost use Rattle.std.specs.Prelude.{◌≡◌, ◌<◌, ◌≤◌, ◌++◌, ◌∷◌, [], ◌||◌, true, ℕ, length, set, get_or, replicate, is_some, Some, None, IfOk, IfErr, MatchOption, IsTrue};
ghost use Rattle.std.specs.List.{AllByRecursion, All};
ghost use Rattle.rc_tree.specs.declared.faults.RcFault.TheVariants.{Memory as memory};
ghost use Rattle.rc_tree.specs.Growth.{segment_at, row_at, place_of, Links, Touches, IsUsed, IsSpread, IsGrown, IsDone, IsLonger, is_used_at};
ghost use Rattle.rc_tree.specs.Loops.{IsLoopOf, IsPart, IsReady, IsGrownBy, IsVisited, AreVisited, IsFurther, IsFound, AreIndexes, AreIndexed};

use crate::faults::RcFault;
use crate::links::LinkLists;
use crate::segments::Segment;
use std::alloc::Global;

/// A place of a forest: its node, the place of its parent (none at the first place of a part), the
/// segment to the parent with its resistance in mΩ, and the first place of its part.
#[derive(Clone, Copy, Drop)]
pub(crate) struct Row {
    pub(crate) node: usize,
    pub(crate) parent: Option<usize>,
    pub(crate) segment: usize,
    pub(crate) res: u64,
    pub(crate) home: usize,
}

/// A forest: rows in the order in which they were found, parents before their children, and the place
/// of each node that was found.
#[derive(Drop)]
pub(crate) struct Forest {
    pub(crate) rows: Vec<Row>,
    pub(crate) places: Vec<Option<usize>>,
}

/// A step from a place of the part `home`, over a segment to a node.
#[derive(Clone, Copy, Drop)]
struct Step {
    place: usize,
    home: usize,
    index: usize,
    far: usize,
}

/// Adds a row for a node.
fn push(forest: Forest, row: Row) -> Result<Forest, RcFault>
    requires { row.node < length forest.places.items }
    ensures rows { IfOk result (λ more. more.rows.items ≡ forest.rows.items ++ row ∷ []) }
    ensures places { IfOk result
        (λ more. more.places.items
        ≡ set forest.places.items row.node (Some (length forest.rows.items))) }
    ensures err { IfErr result (λ fault. fault ≡ memory) }
{
    let Forest {
        mut rows,
        mut places,
    } = forest;
    let place = rows.len();
    match rows.push(row) {
        Ok(()) => {
            places[row.node] = Some(place);
            Ok(Forest { rows, places })
        }
        Err(_) => Err(RcFault::Memory),
    }
}

/// The row at a place.
fn row_at(forest: &Forest, place: usize) -> Row
    requires { place < length forest.now.rows.items }
    ensures { result ≡ row_at forest.now.rows.items place }
{
    forest.rows[place]
}

/// The place of a node, if it has one.
pub(crate) fn place_of(forest: &Forest, node: usize) -> Option<usize>
    requires { node < length forest.now.places.items }
    ensures { result ≡ place_of forest.now node }
{
    forest.places[node]
}

/// The segment of a number.
pub(crate) fn segment_at(segments: &[Segment], index: usize) -> Segment
    requires { index < length segments.now }
    ensures { result ≡ segment_at segments.now index }
{
    segments[index]
}

/// Whether a segment leads from a place to its parent.
fn is_used_at(forest: &Forest, index: usize, place: usize) -> bool
    requires { place < length forest.now.rows.items }
    ensures { result ≡ is_used_at forest.now.rows.items index place }
{
    let row = row_at(forest, place);
    row.parent.is_some() && row.segment == index
}

/// Whether a segment leads from one of two places to its parent.
fn is_used(forest: &Forest, index: usize, one: usize, other: usize) -> bool
    requires one { one < length forest.now.rows.items }
    requires other { other < length forest.now.rows.items }
    ensures { result
        ≡
        (is_used_at forest.now.rows.items index one || is_used_at forest.now.rows.items index
        other) }
{
    is_used_at(forest, index, one) || is_used_at(forest, index, other)
}

/// The other end of a segment at a node; none where the segment is not at the node.
fn far_end(segment: Segment, node: usize) -> Option<usize>
    ensures { MatchOption result (Touches segment node → ⊥) (λ far. Links segment far node) }
{
    if segment.a == node {
        return Some(segment.b);
    }
    if segment.b == node {
        return Some(segment.a);
    }
    None
}

/// Goes to a node that has no place, which gets one.
fn extend(forest: Forest, segments: &[Segment], step: Step) -> Result<Forest, RcFault>
    requires part { IsPart segments.now (length forest.places.items) step.place step.home forest }
    requires place { step.place < length forest.rows.items }
    requires index { step.index < length segments.now }
    requires ends { Links (segment_at segments.now step.index) step.far
        (row_at forest.rows.items step.place).node }
    requires far { step.far < length forest.places.items }
    requires free { place_of forest step.far ≡ None }
    ensures grown { IfOk result
        (λ more. IsGrownBy segments.now (length forest.places.items) step.place step.home forest
        more × IsUsed more.rows.items step.index) }
    ensures err { IfErr result (λ fault. fault ≡ memory) }
{
    let row = Row {
        node: step.far,
        parent: Some(step.place),
        segment: step.index,
        res: segment_at(segments, step.index).res,
        home: step.home,
    };
    let more = push(forest, row)?;
    Ok(more)
}

/// Comes back to a node that has a place: by the segment that led from there, or by one that closes
/// a loop.
fn come_back(
    forest: Forest,
    segments: &[Segment],
    step: Step,
    there: usize,
) -> Result<Forest, RcFault>
    requires part { IsPart segments.now (length forest.places.items) step.place step.home forest }
    requires place { step.place < length forest.rows.items }
    requires index { step.index < length segments.now }
    requires ends { Links (segment_at segments.now step.index) step.far
        (row_at forest.rows.items step.place).node }
    requires there { place_of forest step.far ≡ Some there }
    ensures grown { IfOk result
        (λ more. IsGrownBy segments.now (length forest.places.items) step.place step.home forest
        more × IsUsed more.rows.items step.index) }
    ensures looped { IfErr result (IsLoopOf segments.now (length forest.places.items)) }
{
    if is_used(&forest, step.index, step.place, there) {
        return Ok(forest);
    }
    Err(RcFault::Loop)
}

/// Takes a step.
fn reach(forest: Forest, segments: &[Segment], step: Step) -> Result<Forest, RcFault>
    requires part { IsPart segments.now (length forest.places.items) step.place step.home forest }
    requires place { step.place < length forest.rows.items }
    requires index { step.index < length segments.now }
    requires ends { Links (segment_at segments.now step.index) step.far
        (row_at forest.rows.items step.place).node }
    requires far { step.far < length forest.places.items }
    ensures grown { IfOk result
        (λ more. IsGrownBy segments.now (length forest.places.items) step.place step.home forest
        more × IsUsed more.rows.items step.index) }
    ensures looped { IfErr result (IsLoopOf segments.now (length forest.places.items)) }
{
    match place_of(&forest, step.far) {
        None => extend(forest, segments, step),
        Some(there) => come_back(forest, segments, step, there),
    }
}

/// Looks at a segment from a place.
fn visit(
    forest: Forest,
    segments: &[Segment],
    place: usize,
    home: usize,
    index: usize,
) -> Result<Forest, RcFault>
    requires part { IsPart segments.now (length forest.places.items) place home forest }
    requires place { place < length forest.rows.items }
    requires index { index < length segments.now }
    requires ready { IsReady segments.now (length forest.places.items) }
    ensures visited { IfOk result
        (λ more. IsVisited segments.now (length forest.places.items) place home index forest more) }
    ensures looped { IfErr result (IsLoopOf segments.now (length forest.places.items)) }
{
    let node = row_at(&forest, place).node;
    match far_end(segment_at(segments, index), node) {
        None => Ok(forest),
        Some(far) => {
            let step = Step {
                place,
                home,
                index,
                far,
            };
            let more = reach(forest, segments, step)?;
            Ok(more)
        }
    }
}

/// Looks at all segments of a list from a place.
fn visit_all(
    forest: Forest,
    segments: &[Segment],
    place: usize,
    home: usize,
    indexes: &[usize],
) -> Result<Forest, RcFault>
    requires part { IsPart segments.now (length forest.places.items) place home forest }
    requires place { place < length forest.rows.items }
    requires indexes { AreIndexes segments.now indexes.now }
    requires ready { IsReady segments.now (length forest.places.items) }
    ensures visited { IfOk result
        (λ more. AreVisited segments.now (length forest.places.items) place home indexes.now forest
        more) }
    ensures looped { IfErr result (IsLoopOf segments.now (length forest.places.items)) }
{
    let mut all = forest;
    for index in indexes {
        all = visit(all, segments, place, home, *index)?;
    }
    Ok(all)
}

/// The list of the segments at a node.
fn links_at(links: &LinkLists, node: usize) -> &[usize]
    requires { node < length links.now }
    ensures { result.now ≡ get_or links.now node [] }
{
    links.at(node)
}

/// Looks at all segments at the places of a part, which begins at `first`.
fn spread(
    forest: Forest,
    segments: &[Segment],
    links: &LinkLists,
    first: usize,
) -> Result<Forest, RcFault>
    requires part { IsPart segments.now (length forest.places.items) first first forest }
    requires links { AreIndexed segments.now links.now }
    requires count { length links.now ≡ length forest.places.items }
    requires ready { IsReady segments.now (length forest.places.items) }
    ensures done { IfOk result
        (λ more. IsDone segments.now (length forest.places.items) more × IsLonger forest more) }
    ensures looped { IfErr result (IsLoopOf segments.now (length forest.places.items)) }
{
    let mut all = forest;
    let mut place = first;
    while place < all.rows.len() {
        let node = row_at(&all, place).node;
        all = visit_all(all, segments, place, first, links_at(links, node))?;
        place += 1;
    }
    Ok(all)
}

/// Begins a part at a node that has no place, and finds all of it.
fn begin(
    forest: Forest,
    segments: &[Segment],
    links: &LinkLists,
    node: usize,
) -> Result<Forest, RcFault>
    requires done { IsDone segments.now (length forest.places.items) forest }
    requires free { place_of forest node ≡ None }
    requires node { node < length forest.places.items }
    requires links { AreIndexed segments.now links.now }
    requires count { length links.now ≡ length forest.places.items }
    requires ready { IsReady segments.now (length forest.places.items) }
    ensures done { IfOk result
        (λ more. IsFurther segments.now (length forest.places.items) node forest more) }
    ensures looped { IfErr result (IsLoopOf segments.now (length forest.places.items)) }
{
    let first = forest.rows.len();
    let row = Row {
        node,
        parent: None,
        segment: 0,
        res: 0,
        home: first,
    };
    let begun = push(forest, row)?;
    let more = spread(begun, segments, links, first)?;
    Ok(more)
}

/// Gives a node a place, if it has none, and finds all of its part.
fn find_part(
    forest: Forest,
    segments: &[Segment],
    links: &LinkLists,
    node: usize,
) -> Result<Forest, RcFault>
    requires done { IsDone segments.now (length forest.places.items) forest }
    requires node { node < length forest.places.items }
    requires links { AreIndexed segments.now links.now }
    requires count { length links.now ≡ length forest.places.items }
    requires ready { IsReady segments.now (length forest.places.items) }
    ensures done { IfOk result
        (λ more. IsFurther segments.now (length forest.places.items) node forest more) }
    ensures looped { IfErr result (IsLoopOf segments.now (length forest.places.items)) }
{
    match place_of(&forest, node) {
        Some(_) => Ok(forest),
        None => begin(forest, segments, links, node),
    }
}

/// A forest of no place.
fn no_forest(alloc: Global, count: usize) -> Result<Forest, RcFault>
    ensures rows { IfOk result (λ forest. forest.rows.items ≡ []) }
    ensures places { IfOk result (λ forest. forest.places.items ≡ replicate count None) }
    ensures err { IfErr result (λ fault. fault ≡ memory) }
{
    Ok(Forest {
        rows: Vec::with_capacity(alloc, count)?,
        places: vec![in alloc; None; count]?,
    })
}

/// The forest of segments between `count` nodes; the first part begins at the node 0.
#[tactic(auto, using(crate::proofs::Growing::finding))]
pub(crate) fn found_forest(
    alloc: Global,
    segments: &[Segment],
    links: &LinkLists,
) -> Result<Forest, RcFault>
    requires links { AreIndexed segments.now links.now }
    requires ready { IsReady segments.now (length links.now) }
    ensures found { IfOk result (λ forest. IsFound segments.now (length links.now) forest) }
    ensures looped { IfErr result (IsLoopOf segments.now (length links.now)) }
{
    let count = links.len();
    let mut all = no_forest(alloc, count)?;
    for node in 0..count {
        all = find_part(all, segments, links, node)?;
    }
    Ok(all)
}
