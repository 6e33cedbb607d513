//! The time to read a block that arrives in one piece, and one that arrives octet by octet.

ghost use Rattle.std.specs.Prelude.{◌≡◌, ◌<◌, None};

use anyhow::{Result, anyhow};
use std::alloc::{AllocError, Global};
use std::io::Print;
use std::time::{Clock, Instant};
use text_framing::{Message, Mode, Reader, stuff};

/// The lines of the measured block, each of 32 octets with its CRLF.
const LINES: u32 = 8_192;

/// Prints both times in microseconds.
pub(crate) fn measure<R: Clock + Print>(rt: &R, alloc: Global) -> Result<()> {
    let sent = block(alloc)?;
    let whole = time_of(rt, alloc, sent.as_slice(), sent.len() + 1)?;
    let single = time_of(rt, alloc, sent.as_slice(), 1)?;
    println!(rt;
        "block of {} octets: {whole} us in one piece, {single} us octet by octet",
        sent.len()
    )?;
    Ok(())
}

/// The largest block, as it is sent.
fn block(alloc: Global) -> Result<Vec<u8>, AllocError> {
    let mut text = Vec::new(alloc);
    for _ in 0..LINES {
        text.extend_from_slice(b".23456789012345678901234567890\r\n")?;
    }
    stuff(alloc, text.as_slice())
}

/// The microseconds that a block takes in pieces of this many octets.
fn time_of(rt: &impl Clock, alloc: Global, sent: &[u8], size: usize) -> Result<u128>
    requires { 0 < size }
{
    let mut reader = Reader::new(alloc);
    let start = Instant::now(rt)?;
    let message = read(&mut reader, sent, size)?;
    let time = start.elapsed(rt)?.as_micros();
    match message {
        Message::Block(_) => Ok(time),
        _ => Err(anyhow!("no block")),
    }
}

/// Reads one message that arrives in pieces of this many octets.
fn read(reader: &mut Reader, octets: &[u8], size: usize) -> Result<Message>
    requires awaits { reader.old.awaits ≡ None }
    requires size { 0 < size }
{
    for piece in octets.chunks(size) {
        reader.feed(piece)?;
        if let Some(message) = reader.next(Mode::Block)? {
            return Ok(message);
        }
    }
    Err(anyhow!("no message"))
}
