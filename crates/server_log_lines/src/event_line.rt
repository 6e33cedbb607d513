//! The line of an event.

ghost use Rattle.std.specs.Prelude.{◌≡◌, ◌++◌, ◌∷◌, [], OnOk, IfOk, length, map};
ghost use Rattle.server_log_lines.specs.Line.{IsPlainLine, line_of, marked, shown, text_of, time_text};

use crate::LogEvent;
use model::Moment;
use std::alloc::{AllocError, Global};
use text_dates::date_reply;

/// An event, and when it was noted.
#[derive(Drop)]
pub struct LogEntry {
    pub moment: Moment,
    pub event: LogEvent,
}

/// The line of an entry, with its LF: the time, the event and its fields, as docs/newsd.1 has them. A line holds octets
/// from 32 to 126 and one LF, at its end, whatever the event.
pub fn line(alloc: Global, entry: &LogEntry) -> Result<Vec<u8>, AllocError>
    ensures exact { IfOk result (λ line. line.items ≡ line_of entry.now.moment entry.now.event) }
    ensures plain { IfOk result (λ line. IsPlainLine line.items) }
{
    let text = text(alloc, entry)?;
    end_line(alloc, text.as_slice())
}

/// The text of an entry's line.
fn text(alloc: Global, entry: &LogEntry) -> Result<Vec<u8>, AllocError>
    ensures { IfOk result (λ text. text.items ≡ text_of entry.now.moment entry.now.event) }
{
    let mut text = Vec::new(alloc);
    text.extend_from_slice(b"time=")?;
    push_time(&mut text, alloc, entry.moment)?;
    text.push(b' ')?;
    let event = entry.event.to_string(alloc)?;
    text.extend_from_slice(event.as_bytes())?;
    Ok(text)
}

/// A text as a line that any terminal may show.
fn end_line(alloc: Global, text: &[u8]) -> Result<Vec<u8>, AllocError>
    ensures exact { IfOk result (λ line. line.items ≡ map shown text.now ++ 10 ∷ []) }
    ensures plain { IfOk result (λ line. IsPlainLine line.items) }
{
    let mut line = shown_text(alloc, text)?;
    line.push(b'\n')?;
    Ok(line)
}

/// The octets of a text as they are shown.
fn shown_text(alloc: Global, text: &[u8]) -> Result<Vec<u8>, AllocError>
    ensures { IfOk result (λ line. line.items ≡ map shown text.now) }
{
    let mut line = Vec::new(alloc);
    for octet in text {
        line.push(shown(*octet))?;
    }
    Ok(line)
}

/// An octet as it is shown: one that a terminal may take as something else is a question mark. No event has one.
fn shown(octet: u8) -> u8
    ensures { result ≡ shown octet }
{
    match octet {
        32..=126 => octet,
        _ => b'?',
    }
}

/// Appends the time of a moment, as 2026-11-26T04:22:57Z (RFC 3339, section 5.6).
fn push_time(line: &mut Vec<u8>, alloc: Global, moment: Moment) -> Result<(), AllocError>
    ensures { OnOk result (line.new.items ≡ line.old.items ++ time_text moment) }
{
    let digits = date_reply(alloc, moment)?;
    push_marked(line, digits.as_slice())
}

/// Appends the fourteen digits of a date and a time of day, with the marks between them.
fn push_marked(line: &mut Vec<u8>, digits: &[u8]) -> Result<(), AllocError>
    requires { length digits.now ≡ 14 }
    ensures { OnOk result (line.new.items ≡ line.old.items ++ marked digits.now) }
{
    push_piece(line, &digits[..4], b'-')?;
    push_piece(line, &digits[4..6], b'-')?;
    push_piece(line, &digits[6..8], b'T')?;
    push_piece(line, &digits[8..10], b':')?;
    push_piece(line, &digits[10..12], b':')?;
    push_piece(line, &digits[12..], b'Z')
}

/// Appends octets and the mark behind them.
fn push_piece(line: &mut Vec<u8>, piece: &[u8], mark: u8) -> Result<(), AllocError>
    ensures { OnOk result (line.new.items ≡ line.old.items ++ piece.now ++ mark ∷ []) }
{
    line.extend_from_slice(piece)?;
    line.push(mark)?;
    Ok(())
}
