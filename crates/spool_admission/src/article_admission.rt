//! Whether an article may be filed.

ghost use Rattle.std.specs.Prelude.{◌≡◌, ◌+◌, ◌↔◌, IsTrue, None, filter, length, IfOk};
ghost use Rattle.model.specs.Article as model_article;
ghost use Rattle.model.specs.Article.{Carried, cause};
ghost use Rattle.model.specs.Lawful.{MayFile};
ghost use Rattle.model.specs.Spool.{Spool};
ghost use Rattle.model.specs.Spool as spool;
ghost use Rattle.spool_index.specs.Kept as kept;
ghost use Rattle.spool_index.specs.View.{Indexes};
ghost use Rattle.spool_admission.specs.Fields.{MayHaveId};

use model::{Envelope, Text};
use spool_index::{Index, Lengths};
use std::alloc::{AllocError, Global};
use text_article::{Article, made_id};
use text_names::is_of_host;

/// The message-id of an article, empty if it has none.
pub fn id_of<'a>(article: &'a Article<'_>) -> &'a [u8]
    ensures { result.now ≡ model_article.id article.now }
{
    match article.id() {
        Some(id) => id,
        None => &[],
    }
}

/// How many octets an article has, of a text that another server may have carried.
pub fn lengths_of(article: &Article<'_>) -> Lengths
    requires { cause Carried article.now ≡ None }
    ensures { result ≡ kept.lengths_of article.now }
{
    Lengths {
        text: article.text().len() as u32,
        header: article.header().len() as u32,
    }
}

/// Whether an article with this id may get this serial.
fn may_have_id(
    alloc: Global,
    index: &Index,
    host: &[u8],
    serial: u64,
    id: &[u8],
) -> Result<bool, AllocError>
    ensures { IfOk result (λ may. (S : Spool) → Indexes S index.now → (IsTrue may ↔ MayHaveId host.now S serial id.now)) }
{
    if let Some(_) = index.by_id(id) {
        return Ok(false);
    }
    if !is_of_host(host, id) {
        return Ok(true);
    }
    let made = made_id(alloc, host, serial)?;
    Ok(id == made.as_slice())
}

/// Whether these are the same names in the same order.
fn are_same(names: &[Text], others: &[Text]) -> bool
    ensures { IsTrue result ↔ (names.now ≡ others.now) }
{
    if names.len() != others.len() {
        return false;
    }
    for i in 0..names.len() {
        if !names[i].is(&others[i]) {
            return false;
        }
    }
    true
}

/// Whether a carried article that has no cause for refusal may be filed with this envelope; `here` are those of its own
/// groups that exist.
pub fn may_file(
    alloc: Global,
    index: &Index,
    host: &[u8],
    serial: u64,
    article: &Article<'_>,
    here: &[Text],
    envelope: &Envelope,
) -> Result<bool, AllocError>
    requires { cause Carried article.now ≡ None }
    ensures { IfOk result (λ may. (S : Spool) → Indexes S index.now
        → here.now ≡ filter (spool.is_here S) (model_article.groups_of article.now) → serial ≡ length S + 1
        → (IsTrue may ↔ MayFile host.now S (record { text = article.now; envelope = envelope.now }))) }
{
    let groups = envelope.groups.as_slice();
    // for the proof: the moment is before the year 10000
    let _seconds = envelope.moment.seconds();
    if groups.is_empty() {
        return Ok(false);
    }
    if !are_same(here, groups) {
        return Ok(false);
    }
    may_have_id(alloc, index, host, serial, id_of(article))
}
