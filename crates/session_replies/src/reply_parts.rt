//! Functions that append to a reply. Each is refused only for want of memory; then the reply may hold any octets, and
//! the caller discards it.

ghost use Rattle.std.specs.Prelude.{◌≡◌, ◌∷◌, ◌++◌, OnOk, decimal};
ghost use Rattle.model.specs.Stream.{dot_line, line, stuffed_line};
ghost use Rattle.model.specs.Replies.{greeting};
ghost use Rattle.session_replies.specs.Replies.{headed, sent};

use crate::texts::{Heading, Reply};
use itoa::Buffer;
use std::alloc::AllocError;

/// What ends a line.
const CRLF: &[u8] = b"\r\n";

/// Appends a line. In a block it may not begin with a dot.
pub fn push_line(reply: &mut Vec<u8>, text: &[u8]) -> Result<(), AllocError>
    ensures { OnOk result (reply.new.items ≡ reply.old.items ++ line text.now) }
{
    reply.reserve(text.len().saturating_add(CRLF.len()))?;
    reply.extend_from_slice(text)?;
    reply.extend_from_slice(CRLF)
}

/// Appends a line of a block, with another dot before it if it begins with one.
pub fn push_stuffed(reply: &mut Vec<u8>, text: &[u8]) -> Result<(), AllocError>
    ensures { OnOk result (reply.new.items ≡ reply.old.items ++ stuffed_line (line text.now)) }
{
    if let [b'.', ..] = text {
        reply.push(b'.')?;
    }
    push_line(reply, text)
}

/// Appends the line that ends a block.
pub fn push_end(reply: &mut Vec<u8>) -> Result<(), AllocError>
    ensures { OnOk result (reply.new.items ≡ reply.old.items ++ dot_line) }
{
    reply.extend_from_slice(b".\r\n")
}

/// Appends a number in decimal digits.
pub fn push_number(reply: &mut Vec<u8>, number: u64) -> Result<(), AllocError>
    ensures { OnOk result (reply.new.items ≡ reply.old.items ++ decimal number) }
{
    let mut buffer = Buffer::new();
    reply.extend_from_slice(buffer.format(number).as_bytes())
}

/// Appends a space and a number.
pub fn push_spaced(reply: &mut Vec<u8>, number: u64) -> Result<(), AllocError>
    ensures { OnOk result (reply.new.items ≡ reply.old.items ++ 32 ∷ decimal number) }
{
    reply.push(b' ')?;
    push_number(reply, number)
}

/// Appends a one-line reply.
pub fn push_reply(reply: &mut Vec<u8>, which: Reply) -> Result<(), AllocError>
    ensures { OnOk result (reply.new.items ≡ reply.old.items ++ sent which) }
{
    push_line(reply, which.text())
}

/// Appends the first line of a multi-line reply.
pub fn push_heading(reply: &mut Vec<u8>, which: Heading) -> Result<(), AllocError>
    ensures { OnOk result (reply.new.items ≡ reply.old.items ++ line (headed which)) }
{
    push_line(reply, which.text())
}

/// Appends the greeting of a server that takes posts (RFC 3977, section 5.1).
#[tactic(auto, unfolding(model::specs::Replies::greeting))]
pub fn push_greeting(reply: &mut Vec<u8>, host: &[u8]) -> Result<(), AllocError>
    ensures { OnOk result (reply.new.items ≡ reply.old.items ++ greeting host.now) }
{
    push_joined(reply, b"200 ", host, b" ready, posting permitted")
}

/// Appends a line that consists of three texts.
fn push_joined(
    reply: &mut Vec<u8>,
    first: &[u8],
    second: &[u8],
    third: &[u8],
) -> Result<(), AllocError>
    ensures { OnOk result (reply.new.items ≡ reply.old.items ++ line (first.now ++ second.now ++ third.now)) }
{
    reply.extend_from_slice(first)?;
    reply.extend_from_slice(second)?;
    push_line(reply, third)
}
