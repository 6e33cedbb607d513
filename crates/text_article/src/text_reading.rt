//! A text that was read, whatever its origin.

ghost use Rattle.std.specs.Prelude.{◌≡◌, IfOk};
ghost use Rattle.text_fields.specs.Header.{IsHeader};
ghost use Rattle.text_article.specs.Parts.{AreParts};

use crate::causes::{faults_of, has_good_groups, newsgroups_in, shape_cause};
use crate::plain_parts::Parts;
use model::Cause;
use std::alloc::{AllocError, Global};
use std::marker::Model;
use text_fields::{fields_of, header_length};

/// A text that was read, whatever its origin. `Article::of` says whether it is an article. Contracts see its octets.
#[derive(Drop)]
pub struct Reading<'t> {
    pub(crate) text: &'t [u8],
    pub(crate) header: usize,
    /// what was read, or the first cause in the lines
    pub(crate) parts: Result<Parts<'t>, Cause>,
}

impl<'t> Model for Reading<'t> {
    ghost use Rattle.std.specs.Prelude.{List, ℕ};
    ghost use Rattle.text_article.specs.Read.{IsRead};

    ghost Value = { List ℕ };

    ghost view = { λ r. r.text.now };

    ghost invariant = { IsRead };
}

impl<'t> Reading<'t> {
    /// Reads a text. All that it says is read here, so that nothing of it is read again for its origin. Any text can be
    /// read; refused only for want of memory.
    pub fn of(alloc: Global, text: &'t [u8]) -> Result<Reading<'t>, AllocError>
        ensures { IfOk result (λ reading. reading ≡ text.now) }
    {
        let header = header_length(text);
        let parts = parts_of(alloc, text, header)?;
        Ok(Reading {
            text,
            header,
            parts,
        })
    }

    /// The text.
    pub fn text(&self) -> &[u8]
        ensures { result.now ≡ self.now }
    {
        self.text
    }
}

/// What a text says, whose header ends at `header`, or the first cause in its lines.
fn parts_of<'t>(
    alloc: Global,
    text: &'t [u8],
    header: usize,
) -> Result<Result<Parts<'t>, Cause>, AllocError>
    requires { IsHeader text.now header }
    ensures { IfOk result (λ parts. AreParts text.now parts) }
{
    if let Some(cause) = shape_cause(text, header) {
        return Ok(Err(cause));
    }
    let fields = fields_of(alloc, text)?;
    let newsgroups = newsgroups_in(alloc, &fields)?;
    let good_groups = has_good_groups(alloc, &newsgroups)?;
    let faults = faults_of(&fields, good_groups);
    Ok(Ok(Parts {
        fields,
        newsgroups,
        faults,
    }))
}
