//! Files one text as a transfer would.

ghost use Rattle.std.specs.Prelude.{◌≡◌, filter, IfOk, OnErr, Some, None};
ghost use Rattle.model.specs.Article.{Carried, cause, id, own_id};
ghost use Rattle.model.specs.Spool.{by_id, is_here};
ghost use Rattle.volume_store.specs.Filing.{Becomes, IsOffered};

use crate::{TextOutcome, TextRefusal};
use model::{Envelope, Moment, Names, Text};
use session_lookups::{FilingError, LookUps, find_group, find_id};
use spool::Spool;
use std::alloc::{AllocError, Global};
use text_article::{Article, Origin, ReadError};
use text_names::is_of_host;

/// Files a text at a moment. It becomes what it would if another server offered it by its own message-id (IHAVE; RFC
/// 3977, section 6.3.2). Unless the text is filed, the spool stays as it was.
pub fn file_text(
    alloc: Global,
    spool: &mut Spool,
    text: &[u8],
    moment: Moment,
) -> Result<TextOutcome, AllocError>
    ensures ok { IfOk result (Becomes spool.old spool.new text.now moment) }
    ensures err { OnErr result (spool.new ≡ spool.old) }
{
    let article = match Article::read(alloc, text, Origin::Carried) {
        Ok(article) => article,
        Err(ReadError::Bad(cause)) => return Ok(TextOutcome::Refused(TextRefusal::NotAnArticle(
            cause,
        ))),
        Err(ReadError::Memory) => return Err(AllocError),
    };
    file_article(alloc, spool, &article, moment)
}

/// Files a text that is an article.
fn file_article(
    alloc: Global,
    spool: &mut Spool,
    article: &Article<'_>,
    moment: Moment,
) -> Result<TextOutcome, AllocError>
    requires { cause Carried article.now ≡ None }
    ensures ok { IfOk result (Becomes spool.old spool.new article.now moment) }
    ensures err { OnErr result (spool.new ≡ spool.old) }
{
    let id = id_of(article);
    if is_of_host(spool.host(), id) {
        return Ok(TextOutcome::Refused(TextRefusal::OwnId));
    }
    match find_id(spool, id) {
        Some(_) => Ok(TextOutcome::Here),
        None => file_new(alloc, spool, article, moment),
    }
}

/// The message-id of an article that was carried. Each has one.
fn id_of<'a>(article: &'a Article<'_>) -> &'a [u8]
    requires { cause Carried article.now ≡ None }
    ensures { own_id article.now ≡ Some result.now }
{
    match article.id() {
        Some(id) => id,
        None => unreachable!(),
    }
}

/// Files an article whose message-id is new and not this host's own.
fn file_new(
    alloc: Global,
    spool: &mut Spool,
    article: &Article<'_>,
    moment: Moment,
) -> Result<TextOutcome, AllocError>
    requires carried { cause Carried article.now ≡ None }
    requires offered { IsOffered spool.old article.now }
    requires new { by_id spool.old.changes (id article.now) ≡ None }
    ensures ok { IfOk result (Becomes spool.old spool.new article.now moment) }
    ensures err { OnErr result (spool.new ≡ spool.old) }
{
    let names = article.groups(alloc)?;
    let groups = groups_here(alloc, spool, &names)?;
    if groups.is_empty() {
        return Ok(TextOutcome::NoGroup);
    }
    // for the proof: the moment is before its limit
    let _seconds = moment.seconds();
    let envelope = Envelope {
        groups: Names::new(groups),
        moment,
    };
    match spool.add_article(article, &envelope) {
        Ok(serial) => Ok(TextOutcome::Filed(serial)),
        Err(FilingError::Full) => Ok(TextOutcome::Full),
        Err(FilingError::Memory) => Err(AllocError),
    }
}

/// Those of the groups that exist.
fn groups_here(alloc: Global, spool: &Spool, names: &[Text]) -> Result<Vec<Text>, AllocError>
    ensures { IfOk result (λ here. here.items ≡ filter (is_here spool.now.changes) names.now) }
{
    let mut here = Vec::new(alloc);
    for name in names {
        if find_group(spool, name.as_slice()).is_some() {
            here.push(name.copy(alloc)?)?;
        }
    }
    Ok(here)
}
