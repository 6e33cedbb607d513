//! Lines that hold only a number. They are written from the last one to the first, as digits are, so that each octet is
//! written once.

ghost use Rattle.std.specs.Prelude.{◌≡◌, ◌+◌, ◌≤◌, ◌<◌, ◌*◌, ◌^◌, ◌++◌, IfSome, IsSome, decimal, drop, length, min, vec_len, vec_capacity};
ghost use Rattle.kernel_outbox.specs.Numbers.{number_line, number_lines, last_line, rest_of, rest_steps};

use crate::RELEASE_OCTETS;
use crate::appending::append;
use itoa::write_digits;

/// The octets of the longest line: twenty digits and CRLF.
const LONGEST: usize = 22;

/// The number of lines that are made at once.
const AT_ONCE: u64 = 64;

/// The line that ends a block.
const END: &[u8] = b".\r\n";

/// The most octets that are made at once.
pub(crate) const MADE_AT_ONCE: usize = LONGEST * AT_ONCE as usize + END.len();

/// The number of octets that end a line.
const CRLF: u64 = 2;

/// The most digits that a number has.
const MOST_DIGITS: u64 = 20;

/// Consecutive numbers whose lines are still to be made, and then the line that ends a block.
#[derive(Clone, Copy)]
pub(crate) struct Numbers {
    pub(crate) next: u64,
    /// how many there are
    pub(crate) left: u64,
}

impl Numbers {
    /// The number of octets of the lines.
    pub(crate) fn len(self) -> u128
        requires first { 1 ≤ self.next }
        requires last { self.next + self.left ≤ 2 ^ 64 }
        ensures len { result ≡ length (number_lines self.next self.left) + 3 }
        ensures few { result < 2 ^ 70 }
    {
        lines_len(self.next, self.left) + END.len() as u128
    }

    /// Appends the next lines, at most `AT_ONCE`. After the last one it appends the line that ends the block. Answers what
    /// is left to be made. It takes no memory.
    pub(crate) fn make_some(self, octets: &mut Vec<u8>) -> Option<Numbers>
        // Numbers of 64 bits from 1 on, and room for their lines.
        requires first { 1 ≤ self.next }
        requires last { self.next + self.left ≤ 2 ^ 64 }
        requires room { vec_len octets.old + min (length (number_lines self.next self.left) + 3) 1411 ≤ vec_capacity octets.old }

        // The octets appended, and fewer numbers left.
        ensures made { octets.new.items ++ rest_of result ≡ octets.old.items ++ (number_lines self.next self.left ++ last_line) }
        ensures first { IfSome result (λ rest. 1 ≤ rest.next) }
        ensures last { IfSome result (λ rest. rest.next + rest.left ≤ 2 ^ 64) }
        ensures fewer { rest_steps result < self.left + 1 }

        // No room is lost.
        ensures capacity { vec_capacity octets.old ≤ vec_capacity octets.new }
    {
        let some = self.left.min(AT_ONCE);
        let mut lines = [0; LONGEST * AT_ONCE as usize];
        let start = write_lines(self.next, some, &mut lines);
        append(octets, &lines[start..]);
        if some == self.left {
            append(octets, END);
            return None;
        }
        Some(Numbers {
            next: self.next + some,
            left: self.left - some,
        })
    }

    /// Appends the next lines, until there are more octets than a release hands out or none is left to be made. Answers
    /// what is left. It takes no memory.
    pub(crate) fn stock(self, octets: &mut Vec<u8>) -> Option<Numbers>
        // Numbers of 64 bits from 1 on, and room for their lines.
        requires first { 1 ≤ self.next }
        requires last { self.next + self.left ≤ 2 ^ 64 }
        requires room { min (vec_len octets.old + length (number_lines self.next self.left) + 3) 66_947 ≤ vec_capacity octets.old }

        // The octets appended, and the numbers left.
        ensures made { octets.new.items ++ rest_of result ≡ octets.old.items ++ (number_lines self.next self.left ++ last_line) }
        ensures first { IfSome result (λ rest. 1 ≤ rest.next) }
        ensures last { IfSome result (λ rest. rest.next + rest.left ≤ 2 ^ 64) }

        // How many octets there are if numbers are left. No room is lost.
        ensures many { IsSome result → 65_536 < vec_len octets.new }
        ensures capacity { vec_capacity octets.old ≤ vec_capacity octets.new }
    {
        let mut numbers = self;
        while octets.len() <= RELEASE_OCTETS {
            numbers = numbers.make_some(octets)?;
        }
        Some(numbers)
    }
}

/// Writes the line of a number so that it ends at `end`, and answers where it begins.
fn write_line(number: u64, octets: &mut [u8], end: usize) -> usize
    requires room { 22 ≤ end }
    requires within { end ≤ length octets.old }
    ensures short { end ≤ result + 22 }
    ensures before { result ≤ end }
    ensures written { drop result octets.new ≡ number_line number ++ drop end octets.old }
{
    octets[end - 2] = b'\r';
    octets[end - 1] = b'\n';
    write_digits(number, octets, end - 2)
}

/// Writes the lines of at most 64 consecutive numbers at the end, and answers where they begin.
fn write_lines(first: u64, count: u64, octets: &mut [u8; LONGEST * AT_ONCE as usize]) -> usize
    requires few { count ≤ 64 }
    requires small { first + count ≤ 2 ^ 64 }
    ensures within { result ≤ 1408 }
    ensures written { drop result octets.new ≡ number_lines first count }
{
    let mut start = octets.len();
    let mut left = count;
    while left > 0 {
        left -= 1;
        start = write_line(first + left, octets, start);
    }
    start
}

/// The number of octets of the lines of consecutive numbers. It goes by the digits, and not by the numbers.
fn lines_len(first: u64, count: u64) -> u128
    requires first { 1 ≤ first }
    requires last { first + count ≤ 2 ^ 64 }
    ensures len { result ≡ length (number_lines first count) }
    ensures few { result ≤ 22 * count }
{
    let stop = u128::from(first) + u128::from(count);
    let mut counted = u128::from(first);
    let mut lower = 1;
    let mut octets = 0;
    for digits in 1..MOST_DIGITS + 1 {
        let upper = lower * 10;
        if counted < upper {
            let end = stop.min(upper);
            octets += (end - counted) * u128::from(digits + CRLF);
            counted = end;
        }
        lower = upper;
    }
    octets
}
