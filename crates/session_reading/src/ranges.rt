//! The numbers of a range.

ghost use Rattle.std.specs.Prelude.{◌≡◌, ◌+◌, ◌-◌, ◌≤◌};
ghost use Rattle.session_reading.specs.Words.{first_in, last_in};

use model::Range;
use session_lookups::Counts;

/// Consecutive numbers; there are none if the last is below the first.
#[derive(Clone, Copy)]
pub struct NumberRange {
    pub first: u64,
    pub last: u64,
}

/// The numbers of a range that are in a group.
pub fn numbers_in(range: &Range, counts: Counts) -> NumberRange
    ensures first { result.first ≡ first_in range.now counts.low }
    ensures last { result.last ≡ last_in range.now.last counts.high }
    ensures from { counts.low ≤ result.first }
    ensures to { result.last ≤ counts.high }
{
    let first = range.first.max(counts.low);
    let last = match range.last {
        Some(last) => last.min(counts.high),
        None => counts.high,
    };
    NumberRange { first, last }
}

/// How many numbers these are.
pub fn count(numbers: NumberRange) -> u64
    requires { 1 ≤ numbers.first }
    ensures { result ≡ numbers.last + 1 - numbers.first }
{
    if numbers.first > numbers.last {
        return 0;
    }
    numbers.last - numbers.first + 1
}
