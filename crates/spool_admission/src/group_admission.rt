//! Groups: finding one by name, whether one may be made, and whether articles may be removed from one.

ghost use Rattle.std.specs.Prelude.{◌≡◌, ◌↔◌, IsTrue, filter, option_map, IfOk};
ghost use Rattle.model.specs.Indexed.{group_index};
ghost use Rattle.model.specs.Lawful.{MayExpire, MayMake};
ghost use Rattle.model.specs.Spool.{Spool, group_named};
ghost use Rattle.model.specs.Spool as spool;
ghost use Rattle.spool_groups.specs.Shown.{shown};
ghost use Rattle.spool_index.specs.View.{Indexes};

use model::{NewGroup, Text};
use spool_groups::Group;
use spool_index::Index;
use std::alloc::{AllocError, Global};
use text_names::{is_description, is_group_name};

/// The group with this name.
pub fn find_group<'i>(index: &'i Index, name: &[u8]) -> Option<&'i Group>
    ensures { (S : Spool) → Indexes S index.now
        → option_map (λ g. shown g.now) result ≡ option_map (group_index S) (group_named S name.now) }
{
    index.group(name)
}

/// Whether a group with this name exists.
fn is_here(index: &Index, name: &[u8]) -> bool
    ensures { (S : Spool) → Indexes S index.now → result ≡ spool.is_here S name.now }
{
    find_group(index, name).is_some()
}

/// Whether a group may be made. Each status and each moment is allowed.
pub fn may_make(index: &Index, group: &NewGroup) -> bool
    ensures { (S : Spool) → Indexes S index.now → (IsTrue result ↔ MayMake S group.now) }
{
    let name = group.name.as_slice();
    // for the proof: the moment is before the year 10000
    let _seconds = group.moment.seconds();
    if !is_group_name(name) {
        return false;
    }
    if !is_description(group.description.as_slice()) {
        return false;
    }
    !is_here(index, name)
}

/// Whether the articles of a group up to a number may be removed from it.
pub fn may_expire(index: &Index, group: &[u8], number: u64) -> bool
    ensures { (S : Spool) → Indexes S index.now → (IsTrue result ↔ MayExpire S (record { group = group.now; number = number })) }
{
    let Some(found) = find_group(index, group) else {
        return false;
    };
    let low = found.low();
    if number < low {
        return false;
    }
    number <= found.high()
}

/// Those of the names whose groups exist.
pub fn groups_here(alloc: Global, index: &Index, names: &[Text]) -> Result<Vec<Text>, AllocError>
    ensures { IfOk result (λ here. (S : Spool) → Indexes S index.now → here.items ≡ filter (spool.is_here S) names.now) }
{
    let mut here = Vec::with_capacity(alloc, names.len())?;
    for name in names {
        if is_here(index, name.as_slice()) {
            here.push(name.copy(alloc)?)?;
        }
    }
    Ok(here)
}
