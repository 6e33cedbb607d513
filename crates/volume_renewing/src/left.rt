//! What a renewal leaves of a change.

ghost use Rattle.std.specs.Prelude.{◌≡◌, ◌-◌, ◌≤◌, IfOk, None, Some, if◌then◌else◌, length, slice_get};
ghost use Rattle.model.specs.Article.{Carried, cause, id};
ghost use Rattle.model_renewed.specs.Renewed.{husk, husk_of, renewed};

use model::{Change, Filing, Text};
use session_lookups::LookUps;
use spool::Spool;
use std::alloc::{AllocError, Global};
use text_article::{Article, Origin, ReadError};
use text_husks::husk;

/// What is left of the change with this serial, from 1 to the number of changes: of an article that is gone the husk,
/// of any other change all of it.
pub(crate) fn left_of(alloc: Global, old: &Spool, serial: u64) -> Result<Change, AllocError>
    requires from { 1 ≤ serial }
    requires to { serial ≤ length old.now.changes }
    ensures { IfOk result (λ change. slice_get (renewed old.now.changes) (serial - 1) ≡ Some change) }
{
    let change = old.change(serial)?;
    let is_gone = old.gone_at(serial).is_some();
    match change {
        Change::Group(group) => Ok(Change::Group(group)),
        Change::Article(filing) => Ok(Change::Article(left_of_article(alloc, filing, is_gone)?)),
        Change::Expire(expiry) => Ok(Change::Expire(expiry)),
    }
}

/// What is left of an article, which may be gone.
fn left_of_article(alloc: Global, filing: Filing, is_gone: bool) -> Result<Filing, AllocError>
    requires { cause Carried filing.text ≡ None }
    ensures { IfOk result (λ left. left ≡ (if is_gone then husk_of filing else filing)) }
{
    if !is_gone {
        return Ok(filing);
    }
    let text = husk_text(alloc, &filing)?;
    let Filing { text: _, envelope } = filing;
    Ok(Filing {
        text: Text::new(text),
        envelope,
    })
}

/// The husk of an article that was filed.
fn husk_text(alloc: Global, filing: &Filing) -> Result<Vec<u8>, AllocError>
    requires { cause Carried filing.now.text ≡ None }
    ensures { IfOk result (λ text. text.items ≡ husk (id filing.now.text) filing.now.envelope.groups) }
{
    let article = match Article::read(alloc, filing.text.as_slice(), Origin::Carried) {
        Ok(article) => article,
        Err(ReadError::Memory) => return Err(AllocError),
        Err(ReadError::Bad(_)) => unreachable!(),
    };
    match article.id() {
        Some(id) => husk(alloc, id, filing.envelope.groups.as_slice()),
        None => unreachable!(),
    }
}
