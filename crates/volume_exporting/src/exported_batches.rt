//! Writes articles as a batch.

ghost use Rattle.std.specs.Prelude.{◌≡◌, ◌≢◌, List, ℕ, IfErr, IfOk, OnOk, option_map};
ghost use Rattle.std.specs.Io.KnownBytes.{Appends};
ghost use Rattle.volume_exporting.specs.Exported.{batch_of, entry_for, serials_for, text_with};
ghost use Rattle.volume_exporting.specs.Lines.{in_lines};
ghost use Rattle.text_rnews.specs.Batch as batch;

use crate::serials::{all_serials, serials_of};
use kernel::Spool;
use model::{Change, Filing, Text};
use program_printing::CommandError;
use session_lookups::LookUps;
use std::alloc::{AllocError, Global};
use std::io::Write;
use text_names::GroupName;
use text_rnews::{entry, with_lf};

/// How the lines of a batch end: as `rnews` wants it, or as they are stored.
#[derive(Clone, Copy)]
pub enum LineEnds {
    Lf,
    Crlf,
}

/// Writes the articles that are in this group, or all that are in any group, as a batch. `NotFound` if the group does
/// not exist; then nothing is written. Otherwise it is refused for want of memory, or as the output refuses; then the
/// first articles, and part of one, may be written.
pub fn export<W: Write>(
    alloc: Global,
    spool: &Spool,
    group: Option<&GroupName>,
    ends: LineEnds,
    output: &mut W,
) -> Result<(), CommandError>
    ensures written { OnOk result ((serials : List ℕ)
        × (serials_for spool.now.changes (option_map (λ name. name.now) group.entry) ≡ Some serials)
        × Appends (W.contents output.old) (W.contents output.new) (batch_of ends spool.now.changes serials)) }
    ensures absent { IfErr result (λ error. error ≡ CommandError.NotFound
        → (serials_for spool.now.changes (option_map (λ name. name.now) group.entry) ≡ None) × (output.new ≡ output.old)) }
{
    let serials = chosen(alloc, spool, group)?;
    write_all(alloc, spool, &serials, ends, output)
}

/// The serials of the articles that are in this group, or of all that are in any group. `NotFound` if the group does not
/// exist; otherwise refused only for want of memory.
fn chosen(alloc: Global, spool: &Spool, group: Option<&GroupName>) -> Result<Vec<u64>, CommandError>
    ensures ok { IfOk result (λ serials.
        serials_for spool.now.changes (option_map (λ name. name.now) group.entry) ≡ Some serials.items) }
    ensures absent { IfErr result (λ error. error ≡ CommandError.NotFound
        → serials_for spool.now.changes (option_map (λ name. name.now) group.entry) ≡ None) }
{
    match group {
        None => Ok(all_serials(alloc, spool)?),
        Some(name) => serials_of(alloc, spool, name.as_slice())?.ok_or(CommandError::NotFound),
    }
}

/// Writes the articles with these serials as a batch. A refusal is never `NotFound`.
fn write_all<W: Write>(
    alloc: Global,
    spool: &Spool,
    serials: &[u64],
    ends: LineEnds,
    output: &mut W,
) -> Result<(), CommandError>
    ensures written { OnOk result (Appends (W.contents output.old) (W.contents output.new)
        (batch_of ends spool.now.changes serials.now)) }
    ensures refused { IfErr result (λ error. error ≢ CommandError.NotFound) }
{
    for serial in serials {
        write_entry(alloc, spool, *serial, ends, output)?;
    }
    Ok(())
}

/// Writes the article with this serial in the form of a batch, or nothing if no article has the serial. A refusal is never
/// `NotFound`.
fn write_entry<W: Write>(
    alloc: Global,
    spool: &Spool,
    serial: u64,
    ends: LineEnds,
    output: &mut W,
) -> Result<(), CommandError>
    ensures written { OnOk result (Appends (W.contents output.old) (W.contents output.new)
        (entry_for ends (text_with spool.now.changes serial))) }
    ensures refused { IfErr result (λ error. error ≢ CommandError.NotFound) }
{
    match entry_of(alloc, spool, serial, ends)? {
        Some(octets) => Ok(output.write_all(octets.as_slice())?),
        None => Ok(()),
    }
}

/// The article with this serial in the form of a batch. `None` if no article has the serial.
pub fn entry_of(
    alloc: Global,
    spool: &Spool,
    serial: u64,
    ends: LineEnds,
) -> Result<Option<Vec<u8>>, AllocError>
    ensures { IfOk result (λ octets. option_map (λ list. list.items) octets ≡ option_map (λ text. batch.entry (in_lines ends text))
        (text_with spool.now.changes serial)) }
{
    let Some(text) = stored_text(spool, serial)? else {
        return Ok(None);
    };
    match ends {
        LineEnds::Crlf => Ok(Some(entry(alloc, text.as_slice())?)),
        LineEnds::Lf => {
            let text = with_lf(alloc, text.as_slice())?;
            Ok(Some(entry(alloc, text.as_slice())?))
        }
    }
}

/// The text that the change with this serial files, if any.
fn stored_text(spool: &Spool, serial: u64) -> Result<Option<Text>, AllocError>
    ensures { IfOk result (λ text. text ≡ text_with spool.now.changes serial) }
{
    if serial == 0 || serial > spool.len() {
        return Ok(None);
    }
    match spool.change(serial)? {
        Change::Article(Filing { text, .. }) => Ok(Some(text)),
        _ => Ok(None),
    }
}
