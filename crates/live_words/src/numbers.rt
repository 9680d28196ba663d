//! Numbers of words.

ghost use Rattle.std.specs.Prelude.{◌≡◌, ◌≤◌, ◌<◌, length, IfSome, MatchOption};
ghost use Rattle.std.specs.Char.{is_ascii_digit};
ghost use Rattle.std.specs.List.{list_all};
ghost use Rattle.command_words.specs.Numbers.{number_behind, is_number, within};

fn all_digits(text: &[u8]) -> bool
    ensures { result ≡ list_all is_ascii_digit text.now }
{
    text.iter().all(|byte| byte.is_ascii_digit())
}

/// The word is 1 to 20 decimal digits.
fn is_numeral(text: &[u8]) -> bool
    ensures { result ≡ is_number text.now }
{
    1 <= text.len() && text.len() <= 20 && all_digits(text)
}

/// The number that digits write, where it is below 2^64.
#[tactic(auto, using(crate::proofs::NumberLemmas::number_grows, std::proofs::lemmas::List::drop_more))]
fn value_of(digits: &[u8]) -> Option<u64>
    ensures { MatchOption result (18446744073709551615 < number_behind 0 digits.now)
        (λ n. n ≡ number_behind 0 digits.now) }
{
    let mut number = 0u64;
    for digit in digits {
        let next = 10 * number as u128 + digit.saturating_sub(b'0') as u128;
        if next > u64::MAX as u128 {
            return None;
        }
        number = next as u64;
    }
    Some(number)
}

/// The number of a word, from `low` to `high`.
pub(crate) fn number_within(text: &[u8], low: u64, high: u64) -> Option<u64>
    ensures value { result ≡ within low high text.now }
    ensures bounds { IfSome result (λ n. (low ≤ n) × (n ≤ high)) }
{
    if !is_numeral(text) {
        return None;
    }
    match value_of(text) {
        Some(value) if low <= value && value <= high => Some(value),
        _ => None,
    }
}
