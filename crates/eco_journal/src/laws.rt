//! Laws of journals: what is written is read back.

ghost use Rattle.std.specs.Prelude.{◌≡◌, ◌<◌, ◌^◌, ◌+◌, ◌++◌, ℕ, Bool, List, length, Ok, Some};
ghost use Rattle.timing_defs.specs.declared.constraints.Derates.{Derates};
ghost use Rattle.timing_defs.specs.declared.edits.Edit.{Edit};
ghost use Rattle.timing_defs.specs.declared.edits.Eco.{Eco};
ghost use Rattle.timing_defs.specs.declared.edits.Entry.{Entry};
ghost use Rattle.timing_defs.specs.Output.{journal_text};
ghost use Rattle.eco_journal.specs.Written.{IsEdit, IsEco, AreEntries, edits_text};
ghost use Rattle.eco_journal.specs.Lines.{Part};
ghost use Rattle.eco_journal.specs.EditLines.{edit_of};
ghost use Rattle.eco_journal.specs.Journal.{eco_of, entries_of, unscaled, saved_of};
ghost use Rattle.timing_defs.specs.Saved.{block_text};
ghost use Rattle.eco_journal.specs.Blocks.{block_of, blocks_text, all_entries, AreFactors, AreLawful};

/// The bytes of a journal are read back as its entries, if these can be written: sessions from 1 to
/// 16, and 1 to 1,000 edits each, of words and of numbers in their ranges.
#[tactic(auto, using(crate::proofs::JournalBack::journal_back))]
pub fn journal_read_back()
    ensures { (entries : List Entry) → AreEntries entries → length entries < 2 ^ 64
        → entries_of (journal_text entries) ≡ Ok entries }
{}

/// The bytes of a block of a saved journal are read back as its three parts.
#[tactic(auto, using(crate::proofs::BlockBack::block_back))]
pub fn block_read_back()
    ensures { (first : ℕ) (derates : Derates) (entries : List Entry)
        → first + length entries < 2 ^ 64 → AreFactors derates → AreEntries entries
        → block_of (block_text first derates entries)
        ≡ Some (record { first = first; derates = derates; entries = entries }) }
{}

/// Blocks of one saved journal, each of which numbers its entries behind those before it, are read as
/// all of their entries, also behind a journal under which no delay was scaled.
#[tactic(auto, using(crate::proofs::BlockBack::saved_back, crate::proofs::BlockBack::continued_back))]
pub fn saved_read_back()
    ensures blocks { (derates : Derates) (blocks : List (List Entry))
        → length (all_entries blocks) < 2 ^ 64 → AreFactors derates → AreLawful blocks
        → saved_of (blocks_text derates 0 blocks) derates ≡ Ok (all_entries blocks) }
    ensures continued { (entries : List Entry) (blocks : List (List Entry))
        → length entries + length (all_entries blocks) < 2 ^ 64 → AreEntries entries
        → AreLawful blocks
        → saved_of (journal_text entries ++ blocks_text unscaled (length entries) blocks) unscaled
        ≡ Ok (entries ++ all_entries blocks) }
{}

/// The lines of 1 to 1,000 edits that can be written are read back as these edits.
#[tactic(auto, using(crate::proofs::JournalBack::eco_back))]
pub fn eco_read_back()
    ensures { (eco : Eco) → IsEco eco → eco_of (edits_text eco.edits) ≡ Ok eco }
{}

/// What is read from a text of edits, or from the words of one edit as a script may mix them, can be
/// written.
pub fn eco_can_be_written()
    ensures text { (bytes : List ℕ) (eco : Eco) → eco_of bytes ≡ Ok eco → IsEco eco }
    ensures line { (mixed : Bool) (words : List Part) (e : Edit) → edit_of mixed words ≡ Ok e
        → IsEdit e }
{}
