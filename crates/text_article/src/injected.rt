//! A posted article as it is stored.

ghost use Rattle.std.specs.Prelude.{◌≡◌, ◌++◌, map, IfOk};
ghost use Rattle.model.specs.Article as article;

use crate::Article;
use crate::added_fields::ADDED_AT_MOST;
use std::alloc::{AllocError, Global};
use std::borrow::CowSlice;
use std::marker::Model;
use text_fields::push_fields;

/// A posted article as it is stored: the fields that this server adds, and then the posted text. Contracts see its octets.
#[derive(Drop)]
pub struct Injected<'t> {
    pub(crate) text: Vec<u8>,
    /// where the posted text begins
    pub(crate) front: usize,
    pub(crate) header: usize,
    /// the posted fields
    pub(crate) fields: Vec<&'t [u8]>,
    pub(crate) newsgroups: CowSlice<'t, u8>,
}

impl<'t> Model for Injected<'t> {
    ghost use Rattle.std.specs.Prelude.{List, ℕ};
    ghost use Rattle.text_article.specs.Injected.{IsInjected};

    ghost Value = { List ℕ };

    ghost view = { λ a. a.text.items };

    ghost invariant = { IsInjected };
}

impl<'t> Injected<'t> {
    /// The article that is stored. Of its text only the fields that were added are read again.
    pub fn article(&self, alloc: Global) -> Result<Article<'_>, AllocError>
        ensures { IfOk result (λ article. article ≡ self.now) }
    {
        Ok(Article {
            text: &self.text,
            header: self.header,
            fields: both(alloc, &self.text[..self.front], &self.fields)?,
            newsgroups: CowSlice::Borrowed(self.newsgroups.as_slice()),
        })
    }
}

/// The fields that were added, and then these.
fn both<'a>(
    alloc: Global,
    added: &'a [u8],
    fields: &[&'a [u8]],
) -> Result<Vec<&'a [u8]>, AllocError>
    ensures { IfOk result (λ all. map (λ field. field.now) all.items ≡ article.fields added.now ++ map (λ field. field.now) fields.now) }
{
    let mut all = Vec::with_capacity(alloc, fields.len().saturating_add(ADDED_AT_MOST))?;
    push_fields(&mut all, added)?;
    all.extend_from_slice(fields)?;
    Ok(all)
}
