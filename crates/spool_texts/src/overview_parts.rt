//! Lines of an overview that are made as they are handed out.

ghost use Rattle.std.specs.Prelude.{◌≡◌, ◌+◌, ◌-◌, ◌<◌, ◌≤◌, ◌++◌, IfSome, IsSome, List, ℕ, drop, length, min, take, vec_capacity, vec_len};
ghost use Rattle.session_lookups.specs.Held.{overviews_between};
ghost use Rattle.model.specs.Files.{HasRoom, IsFile, IsFileSystem, content_of, entry};
ghost use Rattle.model.specs.Indexed.{ArePlaces};
ghost use Rattle.model.specs.Spool.{Spool};
ghost use Rattle.model.specs.Stream.{Octets, dot_line};
ghost use Rattle.spool_index.specs.View.{Indexes};
ghost use Rattle.spool_groups.specs.Shown.{shown};
ghost use Rattle.kernel_outbox.specs.Lines.{octets_of_lines};
ghost use Rattle.spool_texts.specs.Parts.{HasLines, HasRange, KeepsLines, LinesFit, lines_of};
ghost use Rattle.spool_texts.specs.Texts.{IsRun, LinesRise, lines_from};

use crate::sending::END_SIZE;
use fs_blocks::{BLOCK_SIZE, Blocks};
use fs_inodes::piece;
use kernel_outbox::{Lines, RELEASE_OCTETS, append};
use spool_groups::Group;
use spool_index::{Index, Places};

/// What ends a line.
pub(crate) const CRLF: &[u8] = b"\r\n";

/// The line that ends a block.
const END: &[u8] = b".\r\n";

/// The overview lines of the articles in a group from one number to another, and the line that ends a block, which are
/// made as they are handed out (RFC 3977, section 8.3).
pub fn overview_lines(index: &Index, group: &[u8], from: u64, to: u64) -> Lines
    requires there { HasRange index.now group.now from to }
    ensures has { (S : Spool) → Indexes S index.now → HasLines S result }
    ensures are { (S : Spool) → Indexes S index.now → lines_of S result ≡ overviews_between S group.now from to ++ dot_line }
{
    let Some(place) = index.place(group) else {
        unreachable!()
    };
    let lines = &index.groups()[place];
    let (start, _) = lines.line(from);
    let (_, stop) = lines.line(to);
    let end = to + 1;
    Lines {
        group: place,
        next: from,
        end,
        octets: stop - start + (end - from) * CRLF.len() as u64 + END_SIZE,
    }
}

/// Appends the next of these lines, until there are more octets than a release hands out or none is left. Answers those
/// that are left. It takes no memory.
pub fn push_some_lines<B: Blocks>(
    blocks: &B,
    inodes: u32,
    index: &Index,
    places: &Places,
    lines: Lines,
    octets: &mut Vec<u8>,
) -> Option<Lines>
    requires room { HasRoom inodes (B.blocks blocks.now) }
    requires rule { IsFileSystem inodes (B.blocks blocks.now) }
    requires kept { KeepsLines inodes (B.blocks blocks.now) index.now places.now lines }
    requires short { vec_len octets.old ≤ 65_536 }
    requires capacity { min (vec_len octets.old + lines.octets) 73_729 ≤ vec_capacity octets.old }
    ensures made { (S : Spool) → Indexes S index.now → ArePlaces inodes (B.blocks blocks.now) S places.now → HasLines S lines
        → octets.new.items ++ octets_of_lines (lines_of S) result ≡ octets.old.items ++ lines_of S lines }
    ensures kept { (S : Spool) → Indexes S index.now → ArePlaces inodes (B.blocks blocks.now) S places.now → HasLines S lines
        → IfSome result (HasLines S) }
    ensures many { IsSome result → 65_536 < vec_len octets.new }
    ensures bound { vec_len octets.new ≤ 73_729 }
    ensures capacity { vec_capacity octets.old ≤ vec_capacity octets.new }
{
    let inode = places.overviews()[lines.group];
    let group = &index.groups()[lines.group];
    let before = octets.len();
    let next = append_lines(blocks, inodes, inode, group, lines, octets);
    if octets.len() > RELEASE_OCTETS {
        let made = (octets.len() - before) as u64;
        return Some(Lines {
            next,
            octets: lines.octets - made,
            ..lines
        });
    }
    append(octets, END);
    None
}

/// Appends the next of these lines of a group's overview, whose file has this inode, until there are more octets than a
/// release hands out. Answers the number of the line after them.
fn append_lines<B: Blocks>(
    blocks: &B,
    inodes: u32,
    inode: u32,
    group: &Group,
    lines: Lines,
    octets: &mut Vec<u8>,
) -> u64
    requires room { HasRoom inodes (B.blocks blocks.now) }
    requires rule { IsFileSystem inodes (B.blocks blocks.now) }
    requires below { inode < inodes }
    requires file { IsFile (entry inodes (B.blocks blocks.now) inode) }
    requires first { 1 ≤ lines.next }
    requires order { lines.next ≤ lines.end }
    requires high { lines.end ≤ length (shown group.now).filed + 1 }
    requires rise { LinesRise (shown group.now).ends (length (shown group.now).filed) }
    requires fit { LinesFit (content_of (B.blocks blocks.now) (entry inodes (B.blocks blocks.now) inode)) (shown group.now).ends
        (length (shown group.now).filed) }
    requires short { vec_len octets.old ≤ 65_536 }
    requires capacity { min (vec_len octets.old + length (lines_from (content_of (B.blocks blocks.now)
        (entry inodes (B.blocks blocks.now) inode)) (shown group.now).ends (lines.next - 1) (lines.end - lines.next))) 73_729
        ≤ vec_capacity octets.old }
    ensures made { octets.new.items ≡ octets.old.items ++ lines_from (content_of (B.blocks blocks.now)
        (entry inodes (B.blocks blocks.now) inode)) (shown group.now).ends (lines.next - 1) (result - lines.next) }
    ensures low { lines.next ≤ result }
    ensures high { result ≤ lines.end }
    ensures many { result < lines.end → 65_536 < vec_len octets.new }
    ensures bound { vec_len octets.new ≤ 73_729 }
    ensures capacity { vec_capacity octets.old ≤ vec_capacity octets.new }
{
    // the rest of the block that was read last, and its place in the file
    let mut run: &[u8] = &[];
    let mut at = 0;
    let mut next = lines.next;
    while next < lines.end && octets.len() <= RELEASE_OCTETS {
        let (start, stop) = group.line(next);
        if let Some(text) = part_of(run, at, start, stop) {
            append(octets, text);
        } else {
            append_run(blocks, inodes, inode, start, stop, octets);
            at = stop;
            run = piece(blocks, inodes, inode, at, BLOCK_SIZE as u64);
        }
        append(octets, CRLF);
        next += 1;
    }
    next
}

/// Appends the octets of a file from `start` up to `stop`, for which there is room.
pub(crate) fn append_run<B: Blocks>(
    blocks: &B,
    inodes: u32,
    inode: u32,
    start: u64,
    stop: u64,
    octets: &mut Vec<u8>,
)
    requires room { HasRoom inodes (B.blocks blocks.now) }
    requires rule { IsFileSystem inodes (B.blocks blocks.now) }
    requires below { inode < inodes }
    requires file { IsFile (entry inodes (B.blocks blocks.now) inode) }
    requires order { start ≤ stop }
    requires within { stop ≤ length (content_of (B.blocks blocks.now) (entry inodes (B.blocks blocks.now) inode)) }
    requires capacity { vec_len octets.old + (stop - start) ≤ vec_capacity octets.old }
    ensures items { octets.new.items ≡ octets.old.items ++ take (stop - start)
        (drop start (content_of (B.blocks blocks.now) (entry inodes (B.blocks blocks.now) inode))) }
    ensures len { vec_len octets.new ≡ vec_len octets.old + (stop - start) }
    ensures capacity { vec_capacity octets.old ≤ vec_capacity octets.new }
{
    let mut from = start;
    while from < stop {
        let some = piece(blocks, inodes, inode, from, stop - from);
        append(octets, some);
        from += some.len() as u64;
    }
}

/// Borrows the octets of a file from `start` up to `stop` from those that the file has from `at` on. `None` if not all
/// of them are there.
fn part_of(octets: &[u8], at: u64, start: u64, stop: u64) -> Option<&[u8]>
    requires low { at ≤ start }
    requires order { start ≤ stop }
    ensures { IfSome result (λ part. (content : Octets) → IsRun content at octets.now
        → part.now ≡ take (stop - start) (drop start content)) }
{
    if (octets.len() as u64) < stop - at {
        return None;
    }
    Some(&octets[(start - at) as usize..(stop - at) as usize])
}
