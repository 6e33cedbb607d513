//! The parts of an article as they are sent.

ghost use Rattle.std.specs.Prelude.{◌≡◌, ◌++◌, OnOk, Some};
ghost use Rattle.model.specs.Answer.{part_reply};
ghost use Rattle.model.specs.Article.{id};
ghost use Rattle.session_lookups.specs.Held.{article_of, article_with, text_of};
ghost use Rattle.session_reading.specs.Words.{code_of, found_line};

use model::Part;
use session_lookups::LookUps;
use session_replies::push_number;
use std::alloc::AllocError;

/// The most octets of the first line of a reply with an article whose message-id has at most 80 octets: code, number,
/// message-id, blanks and CRLF. For a longer line the reply is allocated anew.
pub const FOUND_ROOM: usize = 107;

/// The code of a reply with this part.
fn code(part: &Part) -> &'static [u8]
    ensures { result.now ≡ code_of part.now }
{
    match part {
        Part::Whole => b"220",
        Part::Head => b"221",
        Part::Body => b"222",
        Part::Nothing => b"223",
    }
}

/// Appends a line with the code, the number and the message-id.
pub fn push_found<L: LookUps>(
    spool: &L,
    part: &Part,
    number: u64,
    serial: u64,
    reply: &mut Vec<u8>,
) -> Result<(), AllocError>
    requires { article_with (L.changes spool.now) serial ≡ Some (article_of (L.changes spool.now) serial) }
    ensures { OnOk result (reply.new.items ≡ reply.old.items ++ found_line (code_of part.now) number
        (id (text_of (L.changes spool.now) serial))) }
{
    reply.extend_from_slice(code(part))?;
    reply.extend_from_slice(b" ")?;
    push_number(reply, number)?;
    reply.extend_from_slice(b" ")?;
    spool.push_id(serial, reply)?;
    reply.extend_from_slice(b"\r\n")
}

/// Appends the reply with this part of an article.
#[tactic(auto, using(crate::proofs::Replied::parted, std::proofs::lemmas::Grind::common_steps))]
pub fn push_part<L: LookUps>(
    spool: &L,
    part: &Part,
    number: u64,
    serial: u64,
    reply: &mut Vec<u8>,
) -> Result<(), AllocError>
    requires { article_with (L.changes spool.now) serial ≡ Some (article_of (L.changes spool.now) serial) }
    ensures { OnOk result (reply.new.items ≡ reply.old.items ++ part_reply part.now number (article_of (L.changes spool.now) serial)) }
{
    push_found(spool, part, number, serial, reply)?;
    spool.push_part(part, serial, reply)
}
