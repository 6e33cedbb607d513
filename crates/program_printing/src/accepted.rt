//! Prints the spool.

use crate::CommandError;
use kernel::Spool;
use model::{Change, Expiry, Filing, NewGroup, Text};
use session_lookups::LookUps;
use std::alloc::Global;
use std::io::{self, Write};
use text_article::{Article, Origin};

/// Prints the number of accepted changes, and each change on a line of its own.
pub fn print_spool<W: Write>(
    alloc: Global,
    spool: &Spool,
    output: &mut W,
) -> Result<(), CommandError> {
    let count = spool.len();
    writeln!(output, "spool {count}")?;
    for serial in 1..=count {
        let change = spool.change(serial)?;
        print_change(alloc, serial, &change, output)?;
    }
    Ok(())
}

/// Prints a change on a line of its own.
fn print_change<W: Write>(
    alloc: Global,
    serial: u64,
    change: &Change,
    output: &mut W,
) -> Result<(), CommandError> {
    match change {
        Change::Group(group) => Ok(print_group(serial, group, output)?),
        Change::Article(filing) => print_article(alloc, serial, filing, output),
        Change::Expire(expiry) => Ok(print_expiry(serial, expiry, output)?),
    }
}

/// `SERIAL group NAME STATUS`.
fn print_group<W: Write>(serial: u64, group: &NewGroup, output: &mut W) -> io::Result<()> {
    write!(output, "{serial} group ")?;
    output.write_all(group.name.as_slice())?;
    output.write_all(&[b' ', group.status.octet(), b'\n'])
}

/// `SERIAL article ID GROUP,GROUP`.
fn print_article<W: Write>(
    alloc: Global,
    serial: u64,
    filing: &Filing,
    output: &mut W,
) -> Result<(), CommandError> {
    // A stored text is an article and has an id, so only memory can be refused; then nothing of the line is printed.
    let Ok(article) = Article::read(alloc, filing.text.as_slice(), Origin::Carried) else {
        return Err(CommandError::Memory);
    };
    write!(output, "{serial} article ")?;
    output.write_all(article.id().unwrap_or(b""))?;
    Ok(print_groups(filing.envelope.groups.as_slice(), output)?)
}

/// `SERIAL expire NAME N`.
fn print_expiry<W: Write>(serial: u64, expiry: &Expiry, output: &mut W) -> io::Result<()> {
    write!(output, "{serial} expire ")?;
    output.write_all(expiry.group.as_slice())?;
    writeln!(output, " {}", expiry.number)
}

/// Prints the groups, separated by commas, and ends the line.
fn print_groups<W: Write>(groups: &[Text], output: &mut W) -> io::Result<()> {
    for (index, name) in groups.iter().enumerate() {
        output.write_all(if index == 0 { b" " } else { b"," })?;
        output.write_all(name.as_slice())?;
    }
    output.write_all(b"\n")
}
