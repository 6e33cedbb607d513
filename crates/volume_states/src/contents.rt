//! The state of the volume of a host, in its blocks.

ghost use Rattle.std.specs.Prelude.{◌≡◌, ◌<◌, ◌^◌, IfErr, IfOk, map};
ghost use Rattle.spool_groups.specs.Filing.{EndBelow, end_of};
ghost use Rattle.spool_groups.specs.Shown.{shown};
ghost use Rattle.model.specs.Files.{HasRoom};
ghost use Rattle.model.specs.Layout.{HoldsIn};
ghost use Rattle.model.specs.Spool.{Spool};
ghost use Rattle.volume_states.specs.State.{AreBlocks, AreInodes, IsStatusOf, of_index};

use crate::gone::gone_articles;
use crate::{GroupStatus, Share, VolumeStatus};
use fs_blocks::Blocks;
use fs_layout::bitmap::free_block_count;
use fs_layout::inodes::free_inode_count;
use model::Text;
use spool_groups::Group;
use spool_opening::open;
use spool_reading::ReadSpoolError;
use std::alloc::{AllocError, Global};

/// The state of the volume of a host in the blocks of a volume of this format, whatever they contain. `Damaged` exactly
/// if they hold no spool of the host in the files of the format (docs/FORMATS.md), `Memory` if an allocation was
/// refused.
pub fn volume_status<B: Blocks>(
    alloc: Global,
    blocks: &B,
    inodes: u32,
    format: u32,
    host: &[u8],
) -> Result<VolumeStatus, ReadSpoolError>
    requires { HasRoom inodes (B.blocks blocks.now) }
    ensures ok { IfOk result (IsStatusOf format host.now inodes (B.blocks blocks.now)) }
    ensures damaged { IfErr result (λ e. e ≡ ReadSpoolError.Damaged → (S : Spool)
        → HoldsIn format host.now inodes (B.blocks blocks.now) S → ⊥) }
{
    let index = match open(alloc, blocks, inodes, format, host) {
        Ok(opened) => opened.index,
        Err(error) => return Err(error),
    };
    let host = Text::new(Vec::from_slice(alloc, host)?);
    let groups = statuses(alloc, index.groups())?;
    let gone = gone_articles(alloc, &index)?;
    Ok(VolumeStatus {
        host,
        format,
        blocks: block_share(blocks, inodes),
        inodes: inode_share(blocks, inodes),
        changes: index.len(),
        gone,
        groups,
    })
}

/// All blocks, and those that the bitmap marks as used.
fn block_share<B: Blocks>(blocks: &B, inodes: u32) -> Share
    requires { HasRoom inodes (B.blocks blocks.now) }
    ensures { AreBlocks (B.blocks blocks.now) result }
{
    let all = blocks.len();
    let used = all - free_block_count(blocks, inodes);
    Share { all, used }
}

/// All inodes, and those that have a file.
fn inode_share<B: Blocks>(blocks: &B, inodes: u32) -> Share
    requires { HasRoom inodes (B.blocks blocks.now) }
    ensures { AreInodes inodes (B.blocks blocks.now) result }
{
    let used = inodes - free_inode_count(blocks, inodes);
    Share { all: inodes, used }
}

/// The states of groups, in their order.
fn statuses(alloc: Global, groups: &[Group]) -> Result<Vec<GroupStatus>, AllocError>
    requires { EndBelow (2 ^ 32) (map shown groups.now) }
    ensures { IfOk result (λ list. list.items ≡ map of_index (map shown groups.now)) }
{
    let mut list = Vec::new(alloc);
    for group in groups {
        list.push(status_of(alloc, group)?)?;
    }
    Ok(list)
}

/// The state of a group.
fn status_of(alloc: Global, group: &Group) -> Result<GroupStatus, AllocError>
    requires { end_of (shown group.now) < 2 ^ 32 }
    ensures { IfOk result (λ status. status ≡ of_index (shown group.now)) }
{
    let name = Text::new(Vec::from_slice(alloc, group.name())?);
    let low = group.low();
    let high = group.high();
    Ok(GroupStatus {
        name,
        low,
        high,
        count: high.saturating_sub(low.saturating_sub(1)),
        status: group.status(),
        overview: group.overview_size() as u32,
    })
}
