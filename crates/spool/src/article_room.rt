//! Whether there is room for an article: what it leaves to other changes, and whether the files of its groups may grow. Then
//! where its own file goes.

ghost use Rattle.std.specs.Prelude.{◌≡◌, ◌*◌, ◌||◌, true, length, nat_lt};
ghost use Rattle.std.specs.List.{list_any};
ghost use Rattle.model.specs.Room as model_room;
ghost use Rattle.model.specs.Spool.{Spool, is_here};
ghost use Rattle.model.specs.SpoolFiles.{numbers_file, overview_file};
ghost use Rattle.model.specs.declared.change.Change.TheVariants as changed;
ghost use Rattle.model.specs.declared.change.Filing.{Filing};
ghost use Rattle.spool_groups.specs.Filing.{end_of};
ghost use Rattle.spool_groups.specs.Shown.{shown};
ghost use Rattle.spool_index.specs.View.{Indexes};
ghost use Rattle.spool_opening.specs.Replayed.{AreHere};
ghost use Rattle.spool.specs.Packing as packing;

use model::Text;
use spool_groups::Group;
use spool_growing::PlaceKind;
use spool_index::Index;

/// The most octets of a file that may still grow: 12,288 less than the largest file has.
const MOST_OCTETS: u64 = 4_294_950_912;

/// The most articles of a group whose numbers may still grow, 16 octets for each.
const MOST_NUMBERS: u64 = MOST_OCTETS / 16;

/// A volume with fewer blocks than this has none to leave to the operator.
const LARGE_BLOCKS: u32 = 8_192;

/// A volume with fewer inodes than this has none to leave to the operator.
const LARGE_INODES: u32 = 2_048;

/// The most octets of a text whose file goes into the pack. A longer one would save a sixteenth of its octets on average.
const PACKED_TEXT: usize = 32_768;

/// The number of free blocks that an article leaves to expiries and groups, in a volume of so many blocks.
pub fn blocks_left(blocks: u32) -> u32
    ensures { (f : Filing) → result ≡ model_room.blocks_left blocks (changed.Article f) }
{
    if blocks < LARGE_BLOCKS { 0 } else { 320 }
}

/// The number of free inodes that an article leaves to expiries and groups, in a volume of so many inodes.
pub fn inodes_left(inodes: u32) -> u32
    ensures { (f : Filing) → result ≡ model_room.inodes_left inodes (changed.Article f) }
{
    if inodes < LARGE_INODES { 0 } else { 64 }
}

/// Whether the numbers or the overview of a group are too large for another article.
fn is_large(group: &Group) -> bool
    ensures { result ≡ (nat_lt 4294950912 (16 * length (shown group.now).filed) || nat_lt 4294950912 (end_of (shown group.now))) }
{
    MOST_NUMBERS < group.high() || MOST_OCTETS < group.overview_size()
}

/// Whether the files of the group with this name, which must exist, are too large for another article.
fn is_large_in(index: &Index, name: &[u8]) -> bool
    ensures { (S : Spool) → Indexes S index.now → is_here S name.now ≡ true
        → result ≡ (model_room.is_large (numbers_file S name.now) || model_room.is_large (overview_file S name.now)) }
{
    match index.group(name) {
        Some(group) => is_large(group),
        None => false,
    }
}

/// Whether the files of one of these groups, which must exist, are too large for another article.
pub(crate) fn extends_large(index: &Index, groups: &[Text]) -> bool
    ensures { (S : Spool) → Indexes S index.now → AreHere S groups.now
        → result ≡ list_any (λ g. model_room.is_large (numbers_file S g) || model_room.is_large (overview_file S g)) groups.now }
{
    for name in groups {
        if is_large_in(index, name.as_slice()) {
            return true;
        }
    }
    false
}

/// Where the file of an article with this text goes, in a volume of so many inodes (docs/FORMATS.md). A small volume, which
/// leaves no inodes to the operator, has one for each article.
pub(crate) fn kind_for(inodes: u32, text: &[u8]) -> PlaceKind
    ensures { result ≡ packing.kind_for inodes text.now }
{
    if inodes < LARGE_INODES || PACKED_TEXT < text.len() {
        PlaceKind::Alone
    } else {
        PlaceKind::Packed
    }
}
