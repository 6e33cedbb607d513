//! The operator's lines, read in bounded memory.

ghost use Rattle.std.specs.Prelude.{◌≡◌, ◌≢◌, ◌≤◌, ◌∷◌, [], IfOk, IfSome, IfNone, length, All, if◌then◌else◌};
ghost use Rattle.std.specs.Io.KnownBytes.{Consumes, IsAtEnd};
ghost use Rattle.server_operator_lines.specs.Lines.{Reads};
ghost use Rattle.server_operator_lines.specs.declared.line_reader.Next.TheVariants as next;

use std::io::{self, BufRead, ErrorKind};
use std::sync::Wait;

/// The most octets of a line, without its LF. The longest line that makes a change has fewer than 300.
pub const LINE_OCTETS: usize = 1024;

/// The line behind each answer at a control socket, without its LF (docs/FORMATS.md, "The control socket"). No answer has such a line.
pub const ANSWER_END: &[u8] = b".";

/// What a reader found next.
#[derive(Clone, Copy)]
pub enum Next {
    /// A line, which ends with an LF or at the end of the stream.
    Line,
    /// A line of more than `LINE_OCTETS` octets. It is read but not kept.
    TooLong,
    /// There are no more lines.
    End,
}

/// Reads the next line into the buffer, without its LF (docs/OPERATING.md). An `Err` is the reader's, or one for want of memory:
/// reading stops where it failed, and the buffer has what was kept of the line.
pub fn next_line<R: Wait, L: BufRead>(rt: &R, lines: &mut L, line: &mut Vec<u8>) -> io::Result<Next>
    ensures bound { length line.new.items ≤ 1024 }
    ensures alone { All (λ octet. octet ≢ 10) line.new.items }
    ensures known { IfOk result
        (λ next. IfSome (L.remaining lines.old) (λ octets. Reads octets next line.new.items (L.remaining lines.new))) }
{
    line.clear();
    let mut is_long = false;
    'octets: for _ in rt.forever() {
        let octet = match next_octet(rt, lines)? {
            Some(octet) => octet,
            None if line.is_empty() => return Ok(Next::End),
            None => return Ok(ended(is_long)),
        };
        if octet == b'\n' {
            return Ok(ended(is_long));
        }
        if line.len() < LINE_OCTETS {
            line.push(octet)?;
        } else {
            is_long = true;
        }
    }
    unreachable!()
}

/// The result at the end of a line.
fn ended(is_long: bool) -> Next
    ensures { result ≡ (if is_long then next.TooLong else next.Line) }
{
    if is_long { Next::TooLong } else { Next::Line }
}

/// The next octet, `None` at the end. A read that a signal interrupts is tried again.
fn next_octet<R: Wait, L: BufRead>(rt: &R, lines: &mut L) -> io::Result<Option<u8>>
    ensures some { IfOk result (λ next. IfSome next (λ octet. Consumes (L.remaining lines.old) (L.remaining lines.new) (octet ∷ []))) }
    ensures end { IfOk result
        (λ next. IfNone next (Consumes (L.remaining lines.old) (L.remaining lines.new) [] × IsAtEnd (L.remaining lines.new))) }
{
    let mut octet = [0];
    'tries: for _ in rt.forever() {
        match lines.read(&mut octet) {
            Ok(0) => return Ok(None),
            Ok(_) => return Ok(Some(octet[0])),
            Err(error) if error.kind() == ErrorKind::Interrupted => {}
            Err(error) => return Err(error),
        }
    }
    unreachable!()
}
