//! Pin words: `instance:pin`, split at the last colon.

ghost use Rattle.std.specs.Prelude.{◌≡◌, ◌<◌, ◌+◌, true, false, None, take, drop, length, MatchOption};
ghost use Rattle.timing_defs.specs.Edits.{has_colon, before_last, after_last};
ghost use Rattle.netlist_store.specs.Words.{IsLastColon};

/// The place of a word's last colon.
pub(crate) fn last_colon(word: &[u8]) -> Option<usize>
    ensures { MatchOption result (has_colon word.now ≡ false)
        (λ colon. IsLastColon word.now colon) }
{
    let mut last = None;
    for (place, byte) in word.iter().enumerate() {
        if *byte == b':' {
            last = Some(place);
        }
    }
    last
}
