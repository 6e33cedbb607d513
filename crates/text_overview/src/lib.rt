//! The lines of the overview (RFC 3977, section 8.3).
#![tactic(auto)]

ghost use Rattle.std.specs.Prelude.{◌≡◌, ◌==◌, ◌++◌, codes, decimal, if◌then◌else◌, map, IfOk, OnOk};
ghost use Rattle.model.specs.Article.{fields, overview_field, overview_line};
ghost use Rattle.text_overview.specs.Rest.{shown_fields};

use itoa::Buffer;
use std::alloc::{AllocError, Global};
use std::marker::Model;
use text_article::Article;

const TAB: u8 = b'\t';

/// The most octets that a line has after its number, besides the contents of fields: 7 TABs, and 2 numbers of up to 20
/// digits.
const TABS_AND_SIZES: usize = 47;

/// An article, with the part of its overview lines that is the same in all groups. Contracts see its text.
#[derive(Drop)]
pub struct Overview<'t> {
    text: &'t [u8],
    /// the line after its number
    rest: Vec<u8>,
}

impl<'t> Model for Overview<'t> {
    ghost use Rattle.std.specs.Prelude.{◌≡◌, List, ℕ};
    ghost use Rattle.text_overview.specs.Rest.{overview_rest};

    ghost Value = { List ℕ };

    ghost view = { λ o. o.text.now };

    ghost invariant = { λ o. o.rest.items ≡ overview_rest o.text.now };
}

impl<'t> Overview<'t> {
    /// Reads what the overview shows of an article.
    pub fn new(alloc: Global, article: &'t Article<'_>) -> Result<Overview<'t>, AllocError>
        ensures { IfOk result (λ overview. overview ≡ article.now) }
    {
        let text = article.text();
        let room = article.header().len().saturating_add(TABS_AND_SIZES);
        let mut rest = Vec::with_capacity(alloc, room)?;
        push_fields(&mut rest, article)?;
        push_sizes(&mut rest, text.len(), article.line_count())?;
        Ok(Overview { text, rest })
    }

    /// The line of the article with this number: its number in a group, or 0 if it was asked for by its message-id. The
    /// line has no CRLF.
    pub fn line(&self, alloc: Global, number: u64) -> Result<Vec<u8>, AllocError>
        ensures { IfOk result (λ line. line.items ≡ overview_line number self.now) }
    {
        let mut buffer = Buffer::new();
        let digits = buffer.format(number).as_bytes();
        let mut line = Vec::with_capacity(alloc, self.rest.len().saturating_add(digits.len()))?;
        line.extend_from_slice(digits)?;
        line.extend_from_slice(&self.rest)?;
        Ok(line)
    }
}

/// The line of an article with this number: its number in a group, or 0 if it was asked for by its message-id. The line
/// has no CRLF.
pub fn line(alloc: Global, number: u64, article: &Article<'_>) -> Result<Vec<u8>, AllocError>
    ensures { IfOk result (λ line. line.items ≡ overview_line number article.now) }
{
    Overview::new(alloc, article)?.line(alloc, number)
}

/// Appends the contents that the overview shows of an article, each after a TAB.
fn push_fields(line: &mut Vec<u8>, article: &Article<'_>) -> Result<(), AllocError>
    ensures { OnOk result (line.new.items ≡ line.old.items ++ shown_fields (fields article.now)) }
{
    push_field(line, article, b"Subject")?;
    push_field(line, article, b"From")?;
    push_field(line, article, b"Date")?;
    push_field(line, article, b"Message-ID")?;
    push_field(line, article, b"References")
}

/// Appends a TAB and the content of the field of this name, or only the TAB if the article has none.
fn push_field(line: &mut Vec<u8>, article: &Article<'_>, name: &[u8]) -> Result<(), AllocError>
    ensures { OnOk result (line.new.items ≡ line.old.items ++ codes "\t" ++ overview_field name.now article.now) }
{
    line.push(TAB)?;
    let start = line.len();
    article.push_content(line, name)?;
    replace_tabs(&mut line[start..]);
    Ok(())
}

/// Replaces each TAB with SP.
fn replace_tabs(octets: &mut [u8])
    ensures { octets.new ≡ map (λ octet. if octet == 9 then 32 else octet) octets.old }
{
    for octet in octets.iter_mut() {
        if *octet == TAB {
            *octet = b' ';
        }
    }
}

/// Appends the number of octets of a text and the number of lines of its body, each after a TAB.
fn push_sizes(line: &mut Vec<u8>, octets: usize, lines: usize) -> Result<(), AllocError>
    ensures { OnOk result (line.new.items ≡ line.old.items ++ codes "\t" ++ decimal octets ++ codes "\t" ++ decimal lines) }
{
    line.push(TAB)?;
    push_number(line, octets as u64)?;
    line.push(TAB)?;
    push_number(line, lines as u64)
}

/// Appends a number.
fn push_number(line: &mut Vec<u8>, number: u64) -> Result<(), AllocError>
    ensures { OnOk result (line.new.items ≡ line.old.items ++ decimal number) }
{
    let mut buffer = Buffer::new();
    line.extend_from_slice(buffer.format(number).as_bytes())
}
