//! Which articles are exported, and in which order.

ghost use Rattle.std.specs.Prelude.{◌≡◌, ◌++◌, IfOk, OnOk, option_map};
ghost use Rattle.std.specs.Option.{option_to_list};
ghost use Rattle.model.specs.Spool.{group_named};
ghost use Rattle.volume_exporting.specs.Exported as exported;

use session_lookups::LookUps;
use std::alloc::{AllocError, Global};

/// The serials of the articles that are in any group, in rising serial.
pub fn all_serials<L: LookUps>(alloc: Global, spool: &L) -> Result<Vec<u64>, AllocError>
    ensures { IfOk result (λ serials. serials.items ≡ exported.all_serials (L.changes spool.now)) }
{
    let mut serials = Vec::new(alloc);
    for before in 0..spool.len() {
        push_if_in(spool, before + 1, &mut serials)?;
    }
    Ok(serials)
}

/// Appends the serial if its change filed an article that is in a group.
fn push_if_in<L: LookUps>(spool: &L, serial: u64, serials: &mut Vec<u64>) -> Result<(), AllocError>
    ensures { OnOk result (serials.new.items ≡ serials.old.items ++ option_to_list (exported.serial_if_in (L.changes spool.now) serial)) }
{
    if spool.moment(serial).is_some() && spool.gone_at(serial).is_none() {
        serials.push(serial)?;
    }
    Ok(())
}

/// The serials of the articles that are in this group, in rising number. `None` if the group does not exist.
pub fn serials_of<L: LookUps>(
    alloc: Global,
    spool: &L,
    group: &[u8],
) -> Result<Option<Vec<u64>>, AllocError>
    ensures { IfOk result (λ serials. option_map (λ list. list.items) serials ≡ exported.serials_in (L.changes spool.now) group.now) }
{
    let Some(view) = spool.group(group) else {
        return Ok(None);
    };
    Ok(Some(numbered(alloc, spool, view.name, view.high)?))
}

/// The serials of the articles that are in this group with numbers up to this one.
fn numbered<L: LookUps>(
    alloc: Global,
    spool: &L,
    group: &[u8],
    high: u64,
) -> Result<Vec<u64>, AllocError>
    ensures { IfOk result (λ serials. serials.items ≡ exported.picked (exported.serial_at (L.changes spool.now) group.now) high) }
{
    let mut serials = Vec::new(alloc);
    for before in 0..high {
        push_numbered(spool, group, before + 1, &mut serials)?;
    }
    Ok(serials)
}

/// Appends the serial of the article with this number in the group, if there is one.
fn push_numbered<L: LookUps>(
    spool: &L,
    group: &[u8],
    number: u64,
    serials: &mut Vec<u64>,
) -> Result<(), AllocError>
    ensures { OnOk result (serials.new.items ≡ serials.old.items ++ option_to_list
        (exported.serial_at (L.changes spool.now) group.now number)) }
{
    if let Some(serial) = spool.by_number(group, number) {
        serials.push(serial)?;
    }
    Ok(())
}
