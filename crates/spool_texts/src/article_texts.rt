//! The texts of articles.

ghost use Rattle.std.specs.Prelude.{◌≡◌, ◌++◌, OnOk};
ghost use Rattle.model.specs.Article.{body, header};
ghost use Rattle.model.specs.Files.{HasRoom, IsFileSystem};
ghost use Rattle.model.specs.Indexed.{ArePlaces};
ghost use Rattle.model.specs.Spool.{Spool};
ghost use Rattle.model.specs.Stream.{stuffed};
ghost use Rattle.session_lookups.specs.Held.{sent_part, text_of};
ghost use Rattle.spool_index.specs.View.{Indexes};
ghost use Rattle.spool_texts.specs.Texts.{HasArticle};

use crate::sending::push_stuffed;
use crate::text_places::place_of;
use fs_blocks::Blocks;
use model::Part;
use spool_index::{Index, Places};
use std::alloc::AllocError;

/// The number of octets of the line that ends a header.
const EMPTY_LINE_SIZE: u64 = 2;

/// Appends the text of an article, dot-stuffed and with the line that ends it (RFC 3977, section 3.1.1). The text is
/// the last part of the file of its change. Refused only for want of memory; then the reply may hold any octets, and
/// the caller discards it.
pub fn push_article<B: Blocks>(
    blocks: &B,
    inodes: u32,
    index: &Index,
    places: &Places,
    serial: u64,
    reply: &mut Vec<u8>,
) -> Result<(), AllocError>
    requires room { HasRoom inodes (B.blocks blocks.now) }
    requires rule { IsFileSystem inodes (B.blocks blocks.now) }
    requires there { HasArticle inodes (B.blocks blocks.now) index.now places.now serial }
    ensures { OnOk result ((S : Spool) → Indexes S index.now → ArePlaces inodes (B.blocks blocks.now) S places.now
        → reply.new.items ≡ reply.old.items ++ stuffed (text_of S serial)) }
{
    let text = place_of(blocks, inodes, index, places, serial);
    push_stuffed(blocks, inodes, text.inode, text.from, text.size, reply)
}

/// Appends this part of an article, dot-stuffed and with the line that ends it (RFC 3977, section 3.1.1); appends
/// nothing for `Nothing`. Refused only for want of memory; then the reply may hold any octets, and the caller discards
/// it.
pub fn push_part<B: Blocks>(
    blocks: &B,
    inodes: u32,
    index: &Index,
    places: &Places,
    part: &Part,
    serial: u64,
    reply: &mut Vec<u8>,
) -> Result<(), AllocError>
    requires room { HasRoom inodes (B.blocks blocks.now) }
    requires rule { IsFileSystem inodes (B.blocks blocks.now) }
    requires there { HasArticle inodes (B.blocks blocks.now) index.now places.now serial }
    ensures { OnOk result ((S : Spool) → Indexes S index.now → ArePlaces inodes (B.blocks blocks.now) S places.now
        → reply.new.items ≡ reply.old.items ++ sent_part part.now (text_of S serial)) }
{
    match part {
        Part::Whole => push_article(blocks, inodes, index, places, serial, reply),
        Part::Head => push_head(blocks, inodes, index, places, serial, reply),
        Part::Body => push_body(blocks, inodes, index, places, serial, reply),
        Part::Nothing => Ok(()),
    }
}

/// Appends the header of an article, without the empty line, as `push_part` does.
fn push_head<B: Blocks>(
    blocks: &B,
    inodes: u32,
    index: &Index,
    places: &Places,
    serial: u64,
    reply: &mut Vec<u8>,
) -> Result<(), AllocError>
    requires room { HasRoom inodes (B.blocks blocks.now) }
    requires rule { IsFileSystem inodes (B.blocks blocks.now) }
    requires there { HasArticle inodes (B.blocks blocks.now) index.now places.now serial }
    ensures { OnOk result ((S : Spool) → Indexes S index.now → ArePlaces inodes (B.blocks blocks.now) S places.now
        → reply.new.items ≡ reply.old.items ++ stuffed (header (text_of S serial))) }
{
    let text = place_of(blocks, inodes, index, places, serial);
    let size = text.header as u64;
    push_stuffed(blocks, inodes, text.inode, text.from, size, reply)
}

/// Appends the part of an article after its empty line, as `push_part` does.
fn push_body<B: Blocks>(
    blocks: &B,
    inodes: u32,
    index: &Index,
    places: &Places,
    serial: u64,
    reply: &mut Vec<u8>,
) -> Result<(), AllocError>
    requires room { HasRoom inodes (B.blocks blocks.now) }
    requires rule { IsFileSystem inodes (B.blocks blocks.now) }
    requires there { HasArticle inodes (B.blocks blocks.now) index.now places.now serial }
    ensures { OnOk result ((S : Spool) → Indexes S index.now → ArePlaces inodes (B.blocks blocks.now) S places.now
        → reply.new.items ≡ reply.old.items ++ stuffed (body (text_of S serial))) }
{
    let text = place_of(blocks, inodes, index, places, serial);
    let skipped = text.size.min(text.header as u64 + EMPTY_LINE_SIZE);
    let from = text.from + skipped;
    push_stuffed(blocks, inodes, text.inode, from, text.size - skipped, reply)
}
