//! How a saved journal ends.

ghost use Rattle.std.specs.Prelude.{◌≡◌};
ghost use Rattle.live_journal.specs.Ends.{ends_whole, end_of};

use timing_defs::{Code, ReadFault};

#[tactic(auto, using(crate::proofs::LastByte::last_whole, crate::proofs::LastByte::none_whole))]
fn ends_whole(journal: &[u8]) -> bool
    ensures { result ≡ ends_whole journal.now }
{
    match journal.last() {
        Some(last) => *last == 10,
        None => true,
    }
}

/// Passes a saved journal that is empty or ends in a line feed, so that blocks can stand behind it.
///
/// # Errors
///
/// `J1` at the journal's length, exactly where its last line lacks its line feed: that line may be torn.
pub fn check_end(journal: &[u8]) -> Result<(), ReadFault>
    ensures { result ≡ end_of journal.now }
{
    if ends_whole(journal) {
        return Ok(());
    }
    Err(ReadFault::At {
        code: Code::JournalBadLine,
        offset: journal.len() as u64,
    })
}
