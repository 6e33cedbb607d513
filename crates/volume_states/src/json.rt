//! The state of a volume as JSON.

ghost use Rattle.std.specs.Prelude.{◌≡◌, IfOk, map, string_bytes};
ghost use Rattle.std.specs.Str.Lossy.{utf8_lossy};
ghost use Rattle.serde_json.specs.Data.{array};
ghost use Rattle.serde_json.specs.View.{items_of, view};
ghost use Rattle.serde_json.specs.Written.{compact_text};
ghost use Rattle.volume_states.specs.Json.{gone_data, group_data, overview_data, share_data, status_data};

use crate::state::{Gone, GroupStatus, OVERVIEW_ROOM, Share, VolumeStatus};
use model::Text;
use serde_json::{Value, json};
use std::alloc::{AllocError, Global};

/// The state of a volume as one JSON object, with no space and no end of line.
pub fn json_text(alloc: Global, status: &VolumeStatus) -> Result<String, AllocError>
    ensures { IfOk result (λ text. string_bytes text ≡ compact_text (status_data status.now)) }
{
    status_value(alloc, status)?.to_string(alloc)
}

/// The state of a volume as a JSON value.
fn status_value(alloc: Global, status: &VolumeStatus) -> Result<Value, AllocError>
    ensures { IfOk result (λ value. view value ≡ status_data status.now) }
{
    let host = string_of(alloc, &status.host)?;
    let blocks = share_value(alloc, &status.blocks)?;
    let inodes = share_value(alloc, &status.inodes)?;
    let groups = groups_value(alloc, &status.groups)?;
    let gone = gone_value(alloc, &status.gone)?;
    // the keys are in falling order, so that each member is put before the others
    json!(in alloc; {
        "inodes": inodes,
        "host": &host,
        "groups": groups,
        "gone": gone,
        "format": status.format,
        "changes": status.changes,
        "blocks": blocks,
    })
}

fn share_value(alloc: Global, share: &Share) -> Result<Value, AllocError>
    ensures { IfOk result (λ value. view value ≡ share_data share.now) }
{
    json!(in alloc; {"used": share.used, "free": share.free(), "all": share.all})
}

fn gone_value(alloc: Global, gone: &Gone) -> Result<Value, AllocError>
    ensures { IfOk result (λ value. view value ≡ gone_data gone.now) }
{
    json!(in alloc; {"texts": gone.texts, "blocks": gone.blocks(), "articles": gone.articles})
}

fn groups_value(alloc: Global, groups: &[GroupStatus]) -> Result<Value, AllocError>
    ensures { IfOk result (λ value. view value ≡ array (items_of (map group_data groups.now))) }
{
    let mut values = Vec::new(alloc);
    for group in groups {
        values.push(group_value(alloc, group)?)?;
    }
    Ok(Value::Array(values))
}

fn group_value(alloc: Global, group: &GroupStatus) -> Result<Value, AllocError>
    ensures { IfOk result (λ value. view value ≡ group_data group.now) }
{
    let name = string_of(alloc, &group.name)?;
    let status = String::from_utf8_lossy(alloc, &[group.status.octet()])?;
    let overview = overview_value(alloc, group.overview)?;
    json!(in alloc; {
        "status": &status,
        "overview": overview,
        "name": &name,
        "low": group.low,
        "high": group.high,
        "count": group.count,
    })
}

fn overview_value(alloc: Global, size: u32) -> Result<Value, AllocError>
    ensures { IfOk result (λ value. view value ≡ overview_data size) }
{
    json!(in alloc; {"used": size, "room": OVERVIEW_ROOM})
}

/// Octets as a text. Names of hosts and of groups are ASCII, and stay as they are.
fn string_of(alloc: Global, text: &Text) -> Result<String, AllocError>
    ensures { IfOk result (λ string. string_bytes string ≡ utf8_lossy text.now) }
{
    String::from_utf8_lossy(alloc, text.as_slice())
}
