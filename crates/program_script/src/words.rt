//! The words of a line: how they are separated, and the numbers that they write.

ghost use Rattle.std.specs.Prelude.{◌≡◌, option_map, true};
ghost use Rattle.std.specs.Char.{is_ascii_digit};
ghost use Rattle.std.specs.List.{list_all};
ghost use Rattle.model.specs.Names.{is_run_of};
ghost use Rattle.program_script.specs.Words.{days_of, expiry_number_of, is_blank, moment_at, moment_of, number_of, split_at, split_word};
ghost use Rattle.program_script.specs.Words.{status_of, within_u64};

use model::{Moment, Status};
use text_names::number_of;

/// The word that stands for the present moment.
const NOW: &[u8] = b"now";

/// The most days that an age is given in: a hundred years of 365 days.
pub const MOST_DAYS: u64 = 36_500;

/// The parts before and after the first space.
pub fn split_word(text: &[u8]) -> Option<(&[u8], &[u8])>
    ensures { option_map (λ parts. (parts.0.now, parts.1.now)) result ≡ split_word text.now }
{
    split_at(text, b' ')
}

/// The parts before and after the first of these octets.
pub fn split_at(text: &[u8], octet: u8) -> Option<(&[u8], &[u8])>
    ensures { option_map (λ parts. (parts.0.now, parts.1.now)) result ≡ split_at octet text.now }
{
    let at = text.iter().position(|other| *other == octet)?;
    Some((&text[..at], &text[at + 1..]))
}

/// The number below 2^64 that one or more digits write.
pub fn number(word: &[u8]) -> Option<u64>
    ensures { result ≡ number_of word.now }
{
    if is_numeral(word) {
        value_of(word)
    } else {
        None
    }
}

/// Whether the octets are digits, at least one.
fn is_numeral(word: &[u8]) -> bool
    ensures { result ≡ is_run_of is_ascii_digit word.now }
{
    !word.is_empty() && word.iter().all(|octet| octet.is_ascii_digit())
}

/// The number that the digits write, if it is below 2^64.
fn value_of(digits: &[u8]) -> Option<u64>
    requires { list_all is_ascii_digit digits.now ≡ true }
    ensures { result ≡ within_u64 digits.now }
{
    let mut value = 0u64;
    for octet in digits {
        let digit = u64::from(*octet - b'0');
        value = value.checked_mul(10)?.checked_add(digit)?;
    }
    Some(value)
}

/// The moment that digits write: seconds since 1970, before the year 10000.
pub fn moment(word: &[u8]) -> Option<Moment>
    ensures { result ≡ moment_of word.now }
{
    let seconds = number(word)?;
    let moment = Moment::at(seconds)?;
    // for the proof: the moment is before its limit
    let _seconds = moment.seconds();
    Some(moment)
}

/// The moment that a word writes: the present one for `now`, where there is one, and else the one that digits write.
#[tactic(auto, unfolding(crate::specs::Words::moment_at))]
pub fn moment_at(now: Option<Moment>, word: &[u8]) -> Option<Moment>
    ensures { result ≡ moment_at now word.now }
{
    if word == NOW { now } else { moment(word) }
}

/// The days that digits write: a number from 1 to `MOST_DAYS`.
pub fn days(word: &[u8]) -> Option<u64>
    ensures { result ≡ days_of word.now }
{
    let days = number(word)?;
    if days >= 1 && days <= MOST_DAYS {
        Some(days)
    } else {
        None
    }
}

/// The status that `y` or `n` writes.
#[tactic(auto, unfolding(crate::specs::Words::status_of))]
pub fn status(word: &[u8]) -> Option<Status>
    ensures { result ≡ status_of word.now }
{
    let [octet] = word else {
        return None;
    };
    if *octet == b'y' {
        return Some(Status::Open);
    }
    if *octet == b'n' {
        return Some(Status::Closed);
    }
    None
}

/// The number up to which an expiry removes articles, by 1 to 16 digits. It is 0 for 0 and for each number above
/// 4,294,967,295, which no article has.
pub(crate) fn expiry_number(word: &[u8]) -> Option<u32>
    ensures { result ≡ expiry_number_of word.now }
{
    let value = number_of(word)?;
    if value <= u64::from(u32::MAX) {
        Some(value as u32)
    } else {
        Some(0)
    }
}

/// Whether the text shows nothing: it is empty, or each of its octets is a space or a TAB. RFC 3977 has no such description of a
/// group (section 9.7).
pub fn is_blank(text: &[u8]) -> bool
    ensures { result ≡ is_blank text.now }
{
    text.iter().all(|octet| *octet == b' ' || *octet == b'\t')
}
