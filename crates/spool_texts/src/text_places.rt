//! The places of the texts of articles.

ghost use Rattle.model.specs.Files.{File, HasRoom, IsFileSystem, table};
ghost use Rattle.model.specs.Indexed.{IsAt};
ghost use Rattle.spool_index.specs.Viewed.{place_of as viewed};
ghost use Rattle.spool_texts.specs.Texts.{EndsAt, HasArticle, IsPlaceOf};

use fs_blocks::Blocks;
use fs_layout::inodes::size_of;
use spool_index::{ChangePlace, Index, Places};

/// The octets of a text in a file.
#[derive(Clone, Copy)]
pub(crate) struct TextPlace {
    pub(crate) inode: u32,
    /// the first of them, from 0
    pub(crate) from: u64,
    /// the number of octets
    pub(crate) size: u64,
    /// the number of octets of the header, without the empty line
    pub(crate) header: u32,
}

/// The inode in whose file a change's file stands, whether by itself or in the pack, and the place after its last octet
/// there.
fn end_of<B: Blocks>(blocks: &B, inodes: u32, place: ChangePlace) -> (u32, u64)
    requires room { HasRoom inodes (B.blocks blocks.now) }
    requires rule { IsFileSystem inodes (B.blocks blocks.now) }
    requires there { (f : File) × IsAt (table inodes (B.blocks blocks.now)) (viewed place) f }
    ensures { (f : File) → IsAt (table inodes (B.blocks blocks.now)) (viewed place) f
        → EndsAt inodes (B.blocks blocks.now) result.0 result.1 f }
{
    match place {
        ChangePlace::Alone(inode) => (inode, size_of(blocks, inodes, inode)),
        ChangePlace::Packed { inode, from, size } => (inode, u64::from(from) + u64::from(size)),
    }
}

/// The place of the text of an article: it ends the file of its change.
pub(crate) fn place_of<B: Blocks>(
    blocks: &B,
    inodes: u32,
    index: &Index,
    places: &Places,
    serial: u64,
) -> TextPlace
    requires room { HasRoom inodes (B.blocks blocks.now) }
    requires rule { IsFileSystem inodes (B.blocks blocks.now) }
    requires there { HasArticle inodes (B.blocks blocks.now) index.now places.now serial }
    ensures { IsPlaceOf inodes (B.blocks blocks.now) index.now places.now serial result }
{
    let Some(lengths) = index.lengths(serial) else {
        unreachable!()
    };
    let size = lengths.text as u64;
    let place = places.changes()[(serial - 1) as usize];
    let (inode, end) = end_of(blocks, inodes, place);
    TextPlace {
        inode,
        from: end - size,
        size,
        header: lengths.header,
    }
}
