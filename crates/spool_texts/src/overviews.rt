//! The overview lines of articles, each copied from the overview of a group.

ghost use Rattle.std.specs.Prelude.{◌≡◌, ◌+◌, ◌<◌, ◌≤◌, ◌++◌, OnErr, OnOk, decimal, length};
ghost use Rattle.model.specs.Article.{overview_line};
ghost use Rattle.model.specs.Files.{HasRoom, IsFile, IsFileSystem, content_of, entry};
ghost use Rattle.model.specs.Indexed.{ArePlaces};
ghost use Rattle.model.specs.Spool.{Spool};
ghost use Rattle.model.specs.Stream.{line};
ghost use Rattle.session_lookups.specs.Held.{text_of};
ghost use Rattle.spool_index.specs.View.{Indexes};
ghost use Rattle.spool_texts.specs.Overviews.{HasFiled, IsFiledAs, KeepsArticle, octets_of};

use crate::overview_parts::{CRLF, append_run};
use fs_blocks::Blocks;
use itoa::Buffer;
use kernel_outbox::append;
use spool_index::{Index, Places};
use std::alloc::AllocError;

/// How an article was filed in one of its groups.
#[derive(Clone, Copy)]
pub(crate) struct Filed {
    /// the place of the group among the groups, from 0
    pub(crate) group: usize,
    /// the article's number in the group
    pub(crate) number: u64,
}

/// The octets of a file from one place to another.
#[derive(Clone, Copy)]
pub(crate) struct Span {
    pub(crate) inode: u32,
    /// the place of the first octet, from 0
    pub(crate) from: u64,
    /// the place after the last one
    pub(crate) to: u64,
}

/// Appends the overview line of an article with this number and CRLF (RFC 3977, section 8.3). The line is copied from
/// the overview of the first group that the article was filed in, where it stays after the article was removed, and this
/// number takes the place of the one that it has there. Refused only for want of memory, and then the reply stays the
/// same.
pub fn push_overview<B: Blocks>(
    blocks: &B,
    inodes: u32,
    index: &Index,
    places: &Places,
    serial: u64,
    number: u64,
    reply: &mut Vec<u8>,
) -> Result<(), AllocError>
    requires room { HasRoom inodes (B.blocks blocks.now) }
    requires rule { IsFileSystem inodes (B.blocks blocks.now) }
    requires kept { KeepsArticle inodes (B.blocks blocks.now) index.now places.now serial }
    ensures ok { OnOk result ((S : Spool) → Indexes S index.now → ArePlaces inodes (B.blocks blocks.now) S places.now
        → reply.new.items ≡ reply.old.items ++ line (overview_line number (text_of S serial))) }
    ensures err { OnErr result (reply.new.items ≡ reply.old.items) }
{
    let filed = first_filing(index, serial);
    let (start, stop) = index.groups()[filed.group].line(filed.number);
    let rest = Span {
        inode: places.overviews()[filed.group],
        from: start + digit_count(filed.number),
        to: stop,
    };
    push_numbered(blocks, inodes, number, rest, reply)
}

/// The first group that an article was filed in, and its number there.
fn first_filing(index: &Index, serial: u64) -> Filed
    requires there { HasFiled index.now serial }
    ensures { (S : Spool) → Indexes S index.now → IsFiledAs S serial result }
{
    let Some(names) = index.groups_of(serial) else {
        unreachable!()
    };
    let Some(group) = index.place(names[0].as_slice()) else {
        unreachable!()
    };
    let number = index.groups()[group].number_of(serial);
    Filed { group, number }
}

/// The number of decimal digits of a number.
fn digit_count(number: u64) -> u64
    ensures count { result ≡ length (decimal number) }
    ensures few { result ≤ 20 }
{
    let mut buffer = Buffer::new();
    buffer.format(number).len() as u64
}

/// Appends a number, these octets of a file and CRLF. The reply grows once for all of them. Refused only for want of
/// memory, and then the reply stays the same.
fn push_numbered<B: Blocks>(
    blocks: &B,
    inodes: u32,
    number: u64,
    rest: Span,
    reply: &mut Vec<u8>,
) -> Result<(), AllocError>
    requires room { HasRoom inodes (B.blocks blocks.now) }
    requires rule { IsFileSystem inodes (B.blocks blocks.now) }
    requires below { rest.inode < inodes }
    requires file { IsFile (entry inodes (B.blocks blocks.now) rest.inode) }
    requires order { rest.from ≤ rest.to }
    requires within { rest.to ≤ length (content_of (B.blocks blocks.now) (entry inodes (B.blocks blocks.now) rest.inode)) }
    requires short { rest.to ≤ rest.from + 8_191 }
    ensures ok { OnOk result (reply.new.items
        ≡ reply.old.items ++ line (decimal number ++ octets_of inodes (B.blocks blocks.now) rest)) }
    ensures err { OnErr result (reply.new.items ≡ reply.old.items) }
{
    let mut buffer = Buffer::new();
    let digits = buffer.format(number).as_bytes();
    reply.reserve(digits.len() + (rest.to - rest.from) as usize + CRLF.len())?;
    append(reply, digits);
    append_run(blocks, inodes, rest.inode, rest.from, rest.to, reply);
    append(reply, CRLF);
    Ok(())
}
