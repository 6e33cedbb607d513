//! What a volume has too little of for a change.

ghost use Rattle.std.specs.Prelude.{◌≡◌};
ghost use Rattle.model.specs.declared.change.Change.TheVariants.{Article};
ghost use Rattle.model.specs.declared.change.Filing.{Filing};
ghost use Rattle.volume_store.specs.Room.{first_lack, lack_for};

use crate::outcome::Lack;
use model::Change;
use spool::{Spool, blocks_left, inodes_left};
use spool_growing::BLOCKS_ASKED;

/// What the volume has too little of for a change. `None` if it has enough.
pub(crate) fn lack_for(spool: &Spool, change: &Change) -> Option<Lack>
    ensures { result ≡ lack_for spool.now change.now }
{
    match change {
        Change::Group(_) => first_lack(spool.free_blocks(), spool.free_inodes(), 3),
        Change::Article(_) => lack_for_articles(spool),
        Change::Expire(_) => first_lack(spool.free_blocks(), spool.free_inodes(), 1),
    }
}

/// What the volume has too little of for any article. `None` if it has enough.
pub(crate) fn lack_for_articles(spool: &Spool) -> Option<Lack>
    ensures { (filing : Filing) → result ≡ lack_for spool.now (Article filing) }
{
    let blocks = spool
        .free_blocks()
        .saturating_sub(blocks_left(spool.blocks()));
    let inodes = spool
        .free_inodes()
        .saturating_sub(inodes_left(spool.inodes()));
    first_lack(blocks, inodes, 1)
}

/// What is too little for a change that makes this many files, where so many blocks and inodes are free for it.
fn first_lack(blocks: u32, inodes: u32, files: u32) -> Option<Lack>
    ensures { result ≡ first_lack blocks inodes files }
{
    if blocks < BLOCKS_ASKED {
        return Some(Lack::Blocks);
    }
    if inodes < files {
        return Some(Lack::Inodes);
    }
    None
}
