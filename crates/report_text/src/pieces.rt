//! Words, numbers and times, put behind the bytes that are there.

ghost use Rattle.std.specs.Prelude.{◌≡◌, ◌+◌, ◌^◌, ◌<◌, ◌≤◌, ◌++◌, ◌∷◌, [], OnOk};
ghost use Rattle.std.specs.Fmt.{decimal};
ghost use Rattle.std.specs.List.{flat_map};
ghost use Rattle.sta_units.specs.Picoseconds.{thousandths_text, ps_text};
ghost use Rattle.timing_defs.specs.Output.{word, number, time_text, tran_text, kind_text};

use sta_units::{Fs, Memory};
use timing_defs::{Kind, Name, Tran};

pub(crate) fn push(out: &mut Vec<u8>, text: &[u8]) -> Result<(), Memory>
    ensures { OnOk result (out.new.items ≡ out.old.items ++ text.now) }
{
    out.extend_from_slice(text)?;
    Ok(())
}

/// One byte.
fn push_byte(out: &mut Vec<u8>, byte: u8) -> Result<(), Memory>
    ensures { OnOk result (out.new.items ≡ out.old.items ++ byte ∷ []) }
{
    Ok(out.push(byte)?)
}

/// A line feed.
pub(crate) fn push_end(out: &mut Vec<u8>) -> Result<(), Memory>
    ensures { OnOk result (out.new.items ≡ out.old.items ++ 10 ∷ []) }
{
    push_byte(out, b'\n')
}

/// A blank and a word.
pub(crate) fn push_word(out: &mut Vec<u8>, text: &[u8]) -> Result<(), Memory>
    ensures { OnOk result (out.new.items ≡ out.old.items ++ word text.now) }
{
    push_byte(out, b' ')?;
    push(out, text)
}

/// Names, each behind a blank.
#[tactic(auto, using(std::proofs::lemmas::List::drop_more))]
pub(crate) fn push_names(out: &mut Vec<u8>, names: &[Name]) -> Result<(), Memory>
    ensures { OnOk result (out.new.items ≡ out.old.items ++ flat_map word names.now) }
{
    for name in names {
        push_word(out, name.as_bytes())?;
    }
    Ok(())
}

/// The digit of a number below 10.
fn digit(n: u64) -> u8
    requires { n < 10 }
    ensures { result ≡ 48 + n }
{
    b'0' + n as u8
}

/// The digits of a number.
#[tactic(auto, using(crate::proofs::Digits::one_digit, crate::proofs::Digits::more_digits))]
pub(crate) fn push_digits(out: &mut Vec<u8>, n: u64) -> Result<(), Memory>
    ensures { OnOk result (out.new.items ≡ out.old.items ++ decimal n) }
{
    if n < 10 {
        return push_byte(out, digit(n));
    }
    push_digits(out, n / 10)?;
    push_byte(out, digit(n % 10))
}

/// A blank and a number.
pub(crate) fn push_number(out: &mut Vec<u8>, n: u64) -> Result<(), Memory>
    ensures { OnOk result (out.new.items ≡ out.old.items ++ number n) }
{
    push_byte(out, b' ')?;
    push_digits(out, n)
}

/// Words and the number behind them.
pub(crate) fn push_count(out: &mut Vec<u8>, words: &[u8], n: u64) -> Result<(), Memory>
    ensures { OnOk result (out.new.items ≡ out.old.items ++ (words.now ++ number n)) }
{
    push(out, words)?;
    push_number(out, n)
}

/// Thousandths as a number with three decimals.
#[tactic(auto, using(crate::proofs::Digits::three_decimals))]
fn push_few(out: &mut Vec<u8>, count: u64) -> Result<(), Memory>
    ensures { OnOk result (out.new.items ≡ out.old.items ++ thousandths_text count) }
{
    push_digits(out, count / 1000)?;
    let tenths = digit(count / 100 % 10);
    let hundredths = digit(count / 10 % 10);
    let rest = digit(count % 10);
    push(out, &[b'.', tenths, hundredths, rest])
}

/// Thousandths as a number of four digits or more and three decimals, the last seven bytes in one piece.
#[tactic(auto, using(crate::proofs::Digits::seven_bytes))]
fn push_many(out: &mut Vec<u8>, count: u64) -> Result<(), Memory>
    requires { 10 ^ 6 ≤ count }
    ensures { OnOk result (out.new.items ≡ out.old.items ++ thousandths_text count) }
{
    push_digits(out, count / 1000 / 10 / 10 / 10)?;
    let hundreds = digit(count / 1000 / 10 / 10 % 10);
    let tens = digit(count / 1000 / 10 % 10);
    let ones = digit(count / 1000 % 10);
    let tenths = digit(count / 100 % 10);
    let hundredths = digit(count / 10 % 10);
    let rest = digit(count % 10);
    push(out, &[hundreds, tens, ones, b'.', tenths, hundredths, rest])
}

/// Thousandths as a number with three decimals. Most times have four digits before the point or more.
fn push_thousandths(out: &mut Vec<u8>, count: u64) -> Result<(), Memory>
    ensures { OnOk result (out.new.items ≡ out.old.items ++ thousandths_text count) }
{
    if count < 1_000_000 {
        return push_few(out, count);
    }
    push_many(out, count)
}

/// A time in picoseconds with three decimals, behind a minus where it is negative.
#[tactic(auto, unfolding(sta_units::specs::Picoseconds::ps_text))]
fn push_picoseconds(out: &mut Vec<u8>, time: Fs) -> Result<(), Memory>
    ensures { OnOk result (out.new.items ≡ out.old.items ++ ps_text time.0) }
{
    if time.0 < 0 {
        push_byte(out, b'-')?;
        return push_thousandths(out, time.0.unsigned_abs());
    }
    push_thousandths(out, time.0.unsigned_abs())
}

/// A blank and a time.
pub(crate) fn push_ps(out: &mut Vec<u8>, time: Fs) -> Result<(), Memory>
    ensures { OnOk result (out.new.items ≡ out.old.items ++ word (ps_text time.0)) }
{
    push_byte(out, b' ')?;
    push_picoseconds(out, time)
}

/// A rise and a time of four digits before the point, each behind a blank, and a line feed, in one piece.
#[tactic(auto, using(crate::proofs::Digits::rise_line))]
fn push_rise(out: &mut Vec<u8>, count: u64) -> Result<(), Memory>
    requires low { 10 ^ 6 ≤ count }
    requires high { count < 10 ^ 7 }
    ensures { OnOk result
        (out.new.items
        ≡ out.old.items ++
        (word (tran_text Tran.Rise) ++ (word (thousandths_text count) ++ 10 ∷ []))) }
{
    let thousands = digit(count / 1000 / 10 / 10 / 10);
    let hundreds = digit(count / 1000 / 10 / 10 % 10);
    let tens = digit(count / 1000 / 10 % 10);
    let ones = digit(count / 1000 % 10);
    let tenths = digit(count / 100 % 10);
    let hundredths = digit(count / 10 % 10);
    let rest = digit(count % 10);
    push(
        out,
        &[
            b' ', b'r', b'i', b's', b'e', b' ', thousands, hundreds, tens, ones, b'.', tenths,
            hundredths, rest, b'\n',
        ],
    )
}

/// A fall and a time of four digits before the point, each behind a blank, and a line feed, in one piece.
#[tactic(auto, using(crate::proofs::Digits::fall_line))]
fn push_fall(out: &mut Vec<u8>, count: u64) -> Result<(), Memory>
    requires low { 10 ^ 6 ≤ count }
    requires high { count < 10 ^ 7 }
    ensures { OnOk result
        (out.new.items
        ≡ out.old.items ++
        (word (tran_text Tran.Fall) ++ (word (thousandths_text count) ++ 10 ∷ []))) }
{
    let thousands = digit(count / 1000 / 10 / 10 / 10);
    let hundreds = digit(count / 1000 / 10 / 10 % 10);
    let tens = digit(count / 1000 / 10 % 10);
    let ones = digit(count / 1000 % 10);
    let tenths = digit(count / 100 % 10);
    let hundredths = digit(count / 10 % 10);
    let rest = digit(count % 10);
    push(
        out,
        &[
            b' ', b'f', b'a', b'l', b'l', b' ', thousands, hundreds, tens, ones, b'.', tenths,
            hundredths, rest, b'\n',
        ],
    )
}

/// A transition and thousandths as a time, each behind a blank, and a line feed. Most times have four digits
/// before the point.
fn push_tail(out: &mut Vec<u8>, tran: Tran, count: u64) -> Result<(), Memory>
    ensures { OnOk result
        (out.new.items
        ≡ out.old.items ++ (word (tran_text tran) ++ (word (thousandths_text count) ++ 10 ∷ []))) }
{
    if count < 1_000_000 || 10_000_000 <= count {
        push_tran(out, tran)?;
        push_byte(out, b' ')?;
        push_thousandths(out, count)?;
        return push_end(out);
    }
    match tran {
        Tran::Rise => push_rise(out, count),
        Tran::Fall => push_fall(out, count),
    }
}

/// A transition and a time, each behind a blank, and a line feed.
#[tactic(auto, unfolding(sta_units::specs::Picoseconds::ps_text))]
pub(crate) fn push_tran_time(out: &mut Vec<u8>, tran: Tran, time: Fs) -> Result<(), Memory>
    ensures { OnOk result
        (out.new.items
        ≡ out.old.items ++ (word (tran_text tran) ++ (word (ps_text time.0) ++ 10 ∷ []))) }
{
    if time.0 < 0 {
        push_tran(out, tran)?;
        push(out, b" -")?;
        push_thousandths(out, time.0.unsigned_abs())?;
        return push_end(out);
    }
    push_tail(out, tran, time.0.unsigned_abs())
}

/// A blank and a time, or `none`.
pub(crate) fn push_time(out: &mut Vec<u8>, time: Option<Fs>) -> Result<(), Memory>
    ensures { OnOk result (out.new.items ≡ out.old.items ++ word (time_text time)) }
{
    match time {
        None => push_word(out, b"none"),
        Some(time) => push_ps(out, time),
    }
}

/// A blank and a transition.
pub(crate) fn push_tran(out: &mut Vec<u8>, tran: Tran) -> Result<(), Memory>
    ensures { OnOk result (out.new.items ≡ out.old.items ++ word (tran_text tran)) }
{
    match tran {
        Tran::Rise => push(out, b" rise"),
        Tran::Fall => push(out, b" fall"),
    }
}

/// A blank and a kind of test.
pub(crate) fn push_kind(out: &mut Vec<u8>, kind: Kind) -> Result<(), Memory>
    ensures { OnOk result (out.new.items ≡ out.old.items ++ word (kind_text kind)) }
{
    match kind {
        Kind::Setup => push_word(out, b"setup"),
        Kind::Hold => push_word(out, b"hold"),
    }
}
