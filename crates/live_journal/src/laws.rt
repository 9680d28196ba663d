//! Laws of journal files.

ghost use Rattle.live_journal.specs.Laws.{GoesOn, Begins, Closes, Completes, Tears, ReadsBlocks, ReadsSingle, ReadsTorn};

/// A file that has the first entries of what was seen has the first entries of each list that goes on behind that, and what was
/// put is in any case a beginning of that list's blocks. So once the board was closed the file of its desk has the first entries of
/// the closed list, up to the number that the desk kept; a put of the others gives it all of them, or a beginning of them.
#[tactic(auto, using(crate::proofs::Texts::file_longer, crate::proofs::Texts::file_prefix, crate::proofs::Kept::file_closed, crate::proofs::Texts::file_rest, crate::proofs::Texts::file_torn))]
pub fn file_goes_on()
    ensures longer { GoesOn }
    ensures prefix { Begins }
    ensures closed { Closes }
    ensures rest { Completes }
    ensures torn { Tears }
{}

/// Behind a saved journal that is empty or ends in a line feed, blocks that number their entries behind the saved ones are read as
/// all of their entries; so are blocks of one entry each.
#[tactic(auto, using(crate::proofs::SavedBack::saved_behind, crate::proofs::SavedBack::single_behind))]
pub fn saved_goes_on()
    ensures blocks { ReadsBlocks }
    ensures single { ReadsSingle }
{}

/// Where a put was torn, and what stands behind the saved journal ends in a line feed, whole blocks are read or none: a beginning of
/// blocks of one entry each is read as the entries of whole blocks, where it consists of these, and is refused else, at its end.
#[tactic(auto, using(crate::proofs::Torn::torn_behind))]
pub fn torn_is_refused()
    ensures { ReadsTorn }
{}
