//! Words that name pins.

ghost use Rattle.std.specs.Prelude.{◌≡◌, ◌+◌, ◌<◌, ◌==◌, ◌&&◌, length, slice_index, take, drop};
ghost use Rattle.std.specs.Str.{bytes_eq};
ghost use Rattle.timing_defs.specs.Names.{is_split, as_pin};
ghost use Rattle.path_rules.specs.Words.{IsLastSplit};

/// Whether a byte parts an instance from its pin.
fn is_split(byte: u8) -> bool
    ensures { result ≡ is_split byte }
{
    byte == b'/' || byte == b':'
}

/// The place of the last byte that parts an instance from its pin, or the length where there is none.
fn last_split(word: &[u8]) -> usize
    ensures { IsLastSplit word.now result }
{
    let mut end = word.len();
    while end > 0 {
        if is_split(word[end - 1]) {
            return end - 1;
        }
        end -= 1;
    }
    word.len()
}

/// Whether two words of one length are the same but for a place, where the first has a colon.
fn is_same_around(pin: &[u8], word: &[u8], place: usize) -> bool
    requires len { length pin.now ≡ length word.now }
    requires place { place < length word.now }
    ensures { result
        ≡
        (((slice_index pin.now place == 58) && bytes_eq (take place pin.now) (take place word.now))
        && bytes_eq (drop (place + 1) pin.now) (drop (place + 1) word.now)) }
{
    pin[place] == b':' && pin[..place] == word[..place] && pin[place + 1..] == word[place + 1..]
}

/// Whether a word, split at its last slash or colon, is the name of a pin.
pub(crate) fn is_pin_word(pin: &[u8], word: &[u8]) -> bool
    ensures { result ≡ bytes_eq pin.now (as_pin word.now) }
{
    if pin.len() != word.len() {
        return false;
    }
    let place = last_split(word);
    if place == word.len() {
        return pin == word;
    }
    is_same_around(pin, word, place)
}
