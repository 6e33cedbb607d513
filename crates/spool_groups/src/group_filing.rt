//! Files changes in the groups. For an article, room is made in each of its groups first. Then the lines are added, which
//! cannot fail any more.

ghost use Rattle.std.specs.Prelude.{◌≡◌, ◌+◌, ◌^◌, ◌<◌, ◌≤◌, ℕ, List, [], None, Some, map, length, slice_index_or, MatchOption, OnErr};
ghost use Rattle.std.specs.Prelude.{OnOk};
ghost use Rattle.std.specs.List.{All};
ghost use Rattle.model.specs.Indexed.{value_of};
ghost use Rattle.spool_groups.specs.Shown.{shown};
ghost use Rattle.spool_groups.specs.Filing.{EndBelow, HasRoomFor, expired_once, filed_by, filed_once};
ghost use Rattle.spool_groups.specs.Naming.{AreNamed, heads};

use crate::group::Group;
use crate::keys::Keys;
use model::Text;
use std::alloc::AllocError;

/// The place of the group with this name among the groups, from 0; `None` if there is none.
pub fn place_of(places: &Keys, groups: &[Group], name: &[u8]) -> Option<usize>
    requires { AreNamed places.now (heads (map shown groups.now)) }
    ensures { MatchOption result (value_of places.now name.now ≡ None)
        (λ k. (k < length groups.now) × (value_of places.now name.now ≡ Some k)) }
{
    match places.get(name) {
        Some(place) => Some(place as usize),
        None => None,
    }
}

/// Makes room for lines in the group with this name, if it exists.
fn reserve_one(
    groups: &mut [Group],
    places: &Keys,
    name: &[u8],
    more: usize,
) -> Result<(), AllocError>
    requires { AreNamed places.now (heads (map shown groups.old)) }
    ensures same { map shown groups.new ≡ map shown groups.old }
    ensures room { OnOk result (HasRoomFor places.now groups.new name.now more) }
    ensures kept { OnOk result ((q : List ℕ) → HasRoomFor places.now groups.old q more → HasRoomFor places.now groups.new q more) }
{
    match place_of(places, groups, name) {
        Some(place) => groups[place].reserve(more),
        None => Ok(()),
    }
}

/// Files an article in the group with this name, if it exists.
fn push_one(groups: &mut [Group], places: &Keys, name: &[u8], serial: u64, size: u64)
    requires named { AreNamed places.now (heads (map shown groups.old)) }
    requires small { size < 2 ^ 32 }
    requires fits { EndBelow (2 ^ 63) (map shown groups.old) }
    requires room { HasRoomFor places.now groups.old name.now 1 }
    ensures filed { map shown groups.new ≡ map (filed_once serial name.now size) (map shown groups.old) }
    ensures room { (q : List ℕ) (more : ℕ) → HasRoomFor places.now groups.old q (more + 1) → HasRoomFor places.now groups.new q more }
{
    if let Some(place) = place_of(places, groups, name) {
        groups[place].file(serial, size);
    }
}

/// Removes the articles up to a number from the group with this name, if it exists. Refused only for want of memory;
/// then the groups are as they were.
pub fn expire_one(
    groups: &mut [Group],
    places: &Keys,
    name: &[u8],
    serial: u64,
    number: u64,
) -> Result<(), AllocError>
    requires named { AreNamed places.now (heads (map shown groups.old)) }
    requires small { number < 2 ^ 63 }
    ensures ok { OnOk result (map shown groups.new ≡ map (expired_once serial name.now number) (map shown groups.old)) }
    ensures err { OnErr result (map shown groups.new ≡ map shown groups.old) }
{
    match place_of(places, groups, name) {
        Some(place) => groups[place].expire(serial, number),
        None => Ok(()),
    }
}

/// Makes room in the group with each of these names, if it exists, for as many lines as there are names. Refused only for
/// want of memory; the groups stay the same either way.
pub fn reserve_lines(groups: &mut [Group], places: &Keys, filed: &[Text]) -> Result<(), AllocError>
    requires { AreNamed places.now (heads (map shown groups.old)) }
    ensures same { map shown groups.new ≡ map shown groups.old }
    ensures room { OnOk result ((k : ℕ) → k < length filed.now
        → HasRoomFor places.now groups.new (slice_index_or filed.now k []) (length filed.now)) }
{
    for name in filed {
        reserve_one(groups, places, name.as_slice(), filed.len())?;
    }
    Ok(())
}

/// Files an article in the group with each of these names, if it exists, with the size of its overview line there.
/// `reserve_lines` makes the room that this needs.
pub fn push_lines(groups: &mut [Group], places: &Keys, serial: u64, filed: &[Text], sizes: &[u64])
    requires named { AreNamed places.now (heads (map shown groups.old)) }
    requires few { length filed.now ≤ 16 }
    requires sizes { length sizes.now ≡ length filed.now }
    requires small { All (λ n. n < 2 ^ 32) sizes.now }
    requires fits { EndBelow (2 ^ 32) (map shown groups.old) }
    requires room { (k : ℕ) → k < length filed.now → HasRoomFor places.now groups.old (slice_index_or filed.now k []) (length filed.now) }
    ensures { map shown groups.new ≡ map (filed_by serial filed.now sizes.now (length filed.now)) (map shown groups.old) }
{
    for i in 0..filed.len() {
        push_one(groups, places, filed[i].as_slice(), serial, sizes[i]);
    }
}
