//! The state of a volume for a person.

ghost use Rattle.std.specs.Prelude.{◌≡◌, ◌++◌, ◌*◌, ◌/◌, ◌<◌, IfOk, OnOk, codes, decimal, length, map, replicate};
ghost use Rattle.std.specs.List.{flat_map};
ghost use Rattle.volume_states.specs.Table as table;

use crate::state::{Gone, GroupStatus, OVERVIEW_ROOM, Share, VolumeStatus};
use itoa::Buffer;
use model::Text;
use std::alloc::{AllocError, Global};

/// The width of the names of facts, with the gap after them.
const NAME_COLUMNS: usize = 10;

/// The state of a volume in lines: its facts, and a table of its groups if there are any. Each column is as wide as its
/// widest cell.
pub fn table_text(alloc: Global, status: &VolumeStatus) -> Result<Vec<u8>, AllocError>
    ensures { IfOk result (λ text. text.items ≡ table.status_text status.now) }
{
    let mut text = Vec::new(alloc);
    push_facts(alloc, status, &mut text)?;
    push_groups(alloc, &status.groups, &mut text)?;
    Ok(text)
}

/// Appends the lines of what is known of a volume as a whole.
fn push_facts(alloc: Global, status: &VolumeStatus, text: &mut Vec<u8>) -> Result<(), AllocError>
    ensures { OnOk result (text.new.items ≡ text.old.items ++ table.facts status.now) }
{
    push_fact(text, b"host", status.host.as_slice())?;
    push_count(alloc, text, b"format", u64::from(status.format))?;
    push_share(alloc, text, b"blocks", &status.blocks)?;
    push_share(alloc, text, b"inodes", &status.inodes)?;
    push_count(alloc, text, b"changes", status.changes)?;
    push_gone(alloc, text, status.gone)
}

/// Appends the line of the articles that are gone.
fn push_gone(alloc: Global, text: &mut Vec<u8>, gone: Gone) -> Result<(), AllocError>
    ensures { OnOk result (text.new.items ≡ text.old.items ++ table.fact (codes "gone") (table.gone_text gone)) }
{
    push_fact(text, b"gone", gone_text(alloc, gone)?.as_slice())
}

/// `25 articles; of 24 a renewal gives back 31 blocks or more`.
fn gone_text(alloc: Global, gone: Gone) -> Result<Text, AllocError>
    ensures { IfOk result (λ text. text ≡ table.gone_text gone) }
{
    let mut text = Vec::new(alloc);
    push_worded(&mut text, gone.articles, b" articles; of ")?;
    push_worded(&mut text, gone.texts, b" a renewal gives back ")?;
    push_worded(&mut text, gone.blocks(), b" blocks or more")?;
    Ok(Text::new(text))
}

/// Appends the line of a number.
fn push_count(alloc: Global, text: &mut Vec<u8>, name: &[u8], count: u64) -> Result<(), AllocError>
    ensures { OnOk result (text.new.items ≡ text.old.items ++ table.fact name.now (decimal count)) }
{
    push_fact(text, name, number(alloc, count)?.as_slice())
}

/// Appends the line of a share.
fn push_share(
    alloc: Global,
    text: &mut Vec<u8>,
    name: &[u8],
    share: &Share,
) -> Result<(), AllocError>
    ensures { OnOk result (text.new.items ≡ text.old.items ++ table.fact name.now (table.share_text share.now)) }
{
    push_fact(text, name, share_text(alloc, share)?.as_slice())
}

/// Appends a line with the name of a fact and its value.
fn push_fact(text: &mut Vec<u8>, name: &[u8], known: &[u8]) -> Result<(), AllocError>
    ensures { OnOk result (text.new.items ≡ text.old.items ++ table.fact name.now known.now) }
{
    push_left(text, name, NAME_COLUMNS)?;
    text.extend_from_slice(known)?;
    text.push(b'\n')?;
    Ok(())
}

/// `16384: 1200 used, 15184 free, 7 % used`.
fn share_text(alloc: Global, share: &Share) -> Result<Text, AllocError>
    ensures { IfOk result (λ text. text ≡ table.share_text share.now) }
{
    let mut text = Vec::new(alloc);
    push_worded(&mut text, u64::from(share.all), b": ")?;
    push_worded(&mut text, u64::from(share.used), b" used, ")?;
    push_worded(&mut text, u64::from(share.free()), b" free, ")?;
    push_per_cent(&mut text, share.used, share.all)?;
    text.extend_from_slice(b" used")?;
    Ok(Text::new(text))
}

/// Appends a number and the words behind it.
fn push_worded(text: &mut Vec<u8>, n: u64, words: &[u8]) -> Result<(), AllocError>
    ensures { OnOk result (text.new.items ≡ text.old.items ++ decimal n ++ words.now) }
{
    push_number(text, n)?;
    text.extend_from_slice(words)
}

// ---- the table of groups

/// A line of the table, as cells.
#[derive(Drop)]
struct Row {
    name: Text,
    low: Text,
    high: Text,
    count: Text,
    status: Text,
    overview: Text,
}

/// The widths of the columns.
#[derive(Clone, Copy)]
struct Widths {
    name: usize,
    low: usize,
    high: usize,
    count: usize,
    status: usize,
    overview: usize,
}

/// Appends an empty line and the table, if there is a group.
fn push_groups(alloc: Global, groups: &[GroupStatus], text: &mut Vec<u8>) -> Result<(), AllocError>
    ensures { OnOk result (text.new.items ≡ text.old.items ++ table.groups_text groups.now) }
{
    if groups.is_empty() {
        return Ok(());
    }
    text.push(b'\n')?;
    push_table(alloc, groups, text)
}

/// Appends the heading and a line for each group.
fn push_table(alloc: Global, groups: &[GroupStatus], text: &mut Vec<u8>) -> Result<(), AllocError>
    ensures { OnOk result (text.new.items ≡ text.old.items ++ table.table groups.now) }
{
    let rows = rows_of(alloc, groups)?;
    let widths = widths_of(&rows);
    for row in &rows {
        push_row(text, row, widths)?;
    }
    Ok(())
}

/// The heading and a row for each group.
fn rows_of(alloc: Global, groups: &[GroupStatus]) -> Result<Vec<Row>, AllocError>
    ensures { IfOk result (λ rows. rows.items ≡ table.rows_of groups.now) }
{
    let mut rows = Vec::new(alloc);
    rows.push(heading(alloc)?)?;
    for group in groups {
        rows.push(row_of(alloc, group)?)?;
    }
    Ok(rows)
}

fn heading(alloc: Global) -> Result<Row, AllocError>
    ensures { IfOk result (λ row. row ≡ table.heading) }
{
    Ok(Row {
        name: cell(alloc, b"group")?,
        low: cell(alloc, b"low")?,
        high: cell(alloc, b"high")?,
        count: cell(alloc, b"count")?,
        status: cell(alloc, b"status")?,
        overview: cell(alloc, b"overview")?,
    })
}

fn row_of(alloc: Global, group: &GroupStatus) -> Result<Row, AllocError>
    ensures { IfOk result (λ row. row ≡ table.row_of group.now) }
{
    let mut overview = Vec::new(alloc);
    push_per_cent(&mut overview, group.overview, OVERVIEW_ROOM)?;
    Ok(Row {
        name: cell(alloc, group.name.as_slice())?,
        low: number(alloc, group.low)?,
        high: number(alloc, group.high)?,
        count: number(alloc, group.count)?,
        status: cell(alloc, &[group.status.octet()])?,
        overview: Text::new(overview),
    })
}

/// The width of each column: that of its widest cell.
fn widths_of(rows: &[Row]) -> Widths
    ensures { result ≡ table.widths_of rows.now }
{
    let mut widths = Widths {
        name: 0,
        low: 0,
        high: 0,
        count: 0,
        status: 0,
        overview: 0,
    };
    for row in rows {
        widths = wider(widths, row);
    }
    widths
}

/// The widths at which the cells of this row fit too.
fn wider(widths: Widths, row: &Row) -> Widths
    ensures { result ≡ table.wider widths row.now }
{
    Widths {
        name: widths.name.max(row.name.as_slice().len()),
        low: widths.low.max(row.low.as_slice().len()),
        high: widths.high.max(row.high.as_slice().len()),
        count: widths.count.max(row.count.as_slice().len()),
        status: widths.status.max(row.status.as_slice().len()),
        overview: widths.overview.max(row.overview.as_slice().len()),
    }
}

/// Appends a line of the table.
fn push_row(text: &mut Vec<u8>, row: &Row, widths: Widths) -> Result<(), AllocError>
    ensures { OnOk result (text.new.items ≡ text.old.items ++ table.line widths row.now) }
{
    push_left(text, row.name.as_slice(), widths.name)?;
    text.extend_from_slice(b"   ")?;
    push_numbers(text, row, widths)?;
    text.extend_from_slice(b"  ")?;
    push_ending(text, row, widths)
}

/// Appends the cells that hold numbers.
fn push_numbers(text: &mut Vec<u8>, row: &Row, widths: Widths) -> Result<(), AllocError>
    ensures { OnOk result (text.new.items ≡ text.old.items ++ table.numbers widths row.now) }
{
    push_right(text, row.low.as_slice(), widths.low)?;
    text.extend_from_slice(b"  ")?;
    push_right(text, row.high.as_slice(), widths.high)?;
    text.extend_from_slice(b"  ")?;
    push_right(text, row.count.as_slice(), widths.count)
}

/// Appends the last cells, and ends the line.
fn push_ending(text: &mut Vec<u8>, row: &Row, widths: Widths) -> Result<(), AllocError>
    ensures { OnOk result (text.new.items ≡ text.old.items ++ table.ending widths row.now) }
{
    push_left(text, row.status.as_slice(), widths.status)?;
    text.extend_from_slice(b"  ")?;
    push_right(text, row.overview.as_slice(), widths.overview)?;
    text.push(b'\n')?;
    Ok(())
}

// ---- cells

fn cell(alloc: Global, octets: &[u8]) -> Result<Text, AllocError>
    ensures { IfOk result (λ text. text ≡ octets.now) }
{
    Ok(Text::new(Vec::from_slice(alloc, octets)?))
}

fn number(alloc: Global, n: u64) -> Result<Text, AllocError>
    ensures { IfOk result (λ text. text ≡ decimal n) }
{
    let mut text = Vec::new(alloc);
    push_number(&mut text, n)?;
    Ok(Text::new(text))
}

fn push_number(text: &mut Vec<u8>, n: u64) -> Result<(), AllocError>
    ensures { OnOk result (text.new.items ≡ text.old.items ++ decimal n) }
{
    let mut buffer = Buffer::new();
    text.extend_from_slice(buffer.format(n).as_bytes())
}

/// Appends the used part in per cent, rounded down.
fn push_per_cent(text: &mut Vec<u8>, used: u32, all: u32) -> Result<(), AllocError>
    requires { 0 < all }
    ensures { OnOk result (text.new.items ≡ text.old.items ++ table.in_per_cent used all) }
{
    push_number(text, 100 * u64::from(used) / u64::from(all))?;
    text.extend_from_slice(b" %")
}

/// Appends a cell at the left of its column.
fn push_left(text: &mut Vec<u8>, cell: &[u8], width: usize) -> Result<(), AllocError>
    ensures { OnOk result (text.new.items ≡ text.old.items ++ table.left width cell.now) }
{
    text.extend_from_slice(cell)?;
    push_spaces(text, width.saturating_sub(cell.len()))
}

/// Appends a cell at the right of its column.
fn push_right(text: &mut Vec<u8>, cell: &[u8], width: usize) -> Result<(), AllocError>
    ensures { OnOk result (text.new.items ≡ text.old.items ++ table.right width cell.now) }
{
    push_spaces(text, width.saturating_sub(cell.len()))?;
    text.extend_from_slice(cell)
}

fn push_spaces(text: &mut Vec<u8>, count: usize) -> Result<(), AllocError>
    ensures { OnOk result (text.new.items ≡ text.old.items ++ replicate count 32) }
{
    for _ in 0..count {
        text.push(b' ')?;
    }
    Ok(())
}
