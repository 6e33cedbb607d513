//! The line that is asked, and its answer.

ghost use Rattle.std.specs.Prelude.{◌≡◌, ◌++◌, ◌∷◌, [], codes, IfOk, string_bytes};
ghost use Rattle.std.specs.Char.{is_ascii_digit};
ghost use Rattle.std.specs.List.{join_by};
ghost use Rattle.model.specs.Names.{is_run_of};
ghost use Rattle.program_asking.specs.Answers.{is_number, is_refusal};

use crate::asking::NoAnswer;
use program_script::split_word;
use server_operator_lines::{ANSWER_END, Next, next_line};
use std::alloc::{AllocError, Global};
use std::io::{BufRead, Write};
use std::sync::Wait;

/// What an answer says.
#[derive(Clone, Copy, Debug, Drop, PartialEq, Eq)]
pub enum Verdict {
    /// The server has done what it was asked for.
    Done,
    /// It has refused that, or the rest of it.
    Refused,
}

/// The line that these words are, with an SP between each two and an LF at the end. Refused only for want of memory.
pub fn line_of(alloc: Global, words: &[&str]) -> Result<String, AllocError>
    ensures { IfOk result (λ line. string_bytes line ≡ join_by (λ word. word.now) (codes " ") words.now ++ 10 ∷ []) }
{
    let mut line = words.join(alloc, " ")?;
    line.push('\n')?;
    Ok(line)
}

/// Reads an answer up to `ANSWER_END`, and writes each of its lines as it comes. `Refused` if the last line is a refusal. `Cut` if the
/// lines end before, if there is none, or if one is longer than a line of the operator may be; `Unread` if they can't be read, and
/// `Unwritten` if one can't be written. What was written before stays.
pub fn read_answer<R: Wait, L: BufRead, W: Write>(
    rt: &R,
    alloc: Global,
    lines: &mut L,
    output: &mut W,
) -> Result<Verdict, NoAnswer> {
    let mut line = Vec::new(alloc);
    let mut verdict = None;
    for _ in rt.forever() {
        match next_line(rt, lines, &mut line) {
            Ok(Next::Line) => {}
            Ok(Next::TooLong | Next::End) => return Err(NoAnswer::Cut),
            Err(error) => return Err(NoAnswer::unread(error)),
        }
        if line.as_slice() == ANSWER_END {
            return verdict.ok_or(NoAnswer::Cut);
        }
        verdict = Some(verdict_of(line.as_slice()));
        write_line(line.as_slice(), output)?;
    }
    unreachable!()
}

/// What an answer says whose last line is this.
fn verdict_of(line: &[u8]) -> Verdict {
    if is_refusal(line) {
        Verdict::Refused
    } else {
        Verdict::Done
    }
}

/// Writes a line of an answer, and flushes.
fn write_line<W: Write>(line: &[u8], output: &mut W) -> Result<(), NoAnswer> {
    output.write_all(line).map_err(NoAnswer::unwritten)?;
    output.write_all(b"\n").map_err(NoAnswer::unwritten)?;
    output.flush().map_err(NoAnswer::unwritten)
}

/// Whether a line of an answer is a refusal: `E`, one or more digits, SP and more, as in `E12 NotFound`. No other line begins with an `E`.
pub fn is_refusal(line: &[u8]) -> bool
    ensures { result ≡ is_refusal line.now }
{
    match split_word(line) {
        Some((word, _)) => is_number(word),
        None => false,
    }
}

/// Whether a word is the number of a refusal: `E`, and one or more digits.
fn is_number(word: &[u8]) -> bool
    ensures { result ≡ is_number word.now }
{
    match word.split_first() {
        Some((first, digits)) => *first == b'E' && are_digits(digits),
        None => false,
    }
}

/// Whether the octets are digits, at least one.
fn are_digits(octets: &[u8]) -> bool
    ensures { result ≡ is_run_of is_ascii_digit octets.now }
{
    !octets.is_empty() && octets.iter().all(|octet| octet.is_ascii_digit())
}
