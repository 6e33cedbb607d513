//! The groups in which an article is filed.

ghost use Rattle.std.specs.Prelude.{◌≡◌, find, filter, option_map, IfOk, None};
ghost use Rattle.model.specs.Answer.{groups_here, is_closed, same_id, spool_outcome};
ghost use Rattle.model.specs.Article.{groups_of};
ghost use Rattle.model.specs.Spool.{is_here, last_naming};
ghost use Rattle.session_posting.specs.Outcomes.{closed_among, outcome_by, told};

use crate::refusals::Refusal;
use model::{Names, Text};
use session_lookups::{LookUps, counts_of, find_group};
use std::alloc::{AllocError, Global};
use text_article::Article;

/// The outcome of an article.
#[derive(Drop)]
pub enum Outcome {
    /// It is not filed for this reason, which lies within the changes up to this serial.
    Refused(Refusal, u64),
    /// It is filed in these groups.
    Accepted(Names),
}

/// Whether a closed group prevents the filing.
#[derive(Clone, Copy, PartialEq, Eq)]
pub enum Closed {
    Refuse,
    Take,
}

/// The serial of the article with the same id, even if it is gone.
fn same_id<L: LookUps>(spool: &L, article: &Article<'_>) -> Option<u64>
    ensures { result ≡ option_map (λ a. a.serial) (same_id (L.changes spool.now) article.now) }
{
    match article.id() {
        Some(id) => spool.by_id(id),
        None => None,
    }
}

/// Whether a group exists.
fn group_exists<L: LookUps>(spool: &L, name: &Text) -> bool
    ensures { result ≡ is_here (L.changes spool.now) name.now }
{
    find_group(spool, name.as_slice()).is_some()
}

/// Leaves those of the groups that exist.
fn keep_existing<L: LookUps>(spool: &L, names: &mut Vec<Text>)
    ensures { names.new.items ≡ filter (is_here (L.changes spool.now)) names.old.items }
{
    names.retain(|name| group_exists(spool, name));
}

/// Whether the group exists and takes no articles.
fn is_closed<L: LookUps>(spool: &L, name: &Text) -> bool
    ensures { result ≡ is_closed (L.changes spool.now) name.now }
{
    match find_group(spool, name.as_slice()) {
        Some(found) => found.closed,
        None => false,
    }
}

/// The last serial that names the first closed group of these.
fn first_closed<L: LookUps>(spool: &L, names: &[Text]) -> Option<u64>
    ensures { result ≡ option_map (last_naming (L.changes spool.now)) (find (is_closed (L.changes spool.now)) names.now) }
{
    match names.iter().find(|name| is_closed(spool, name)) {
        Some(name) => Some(counts_of(spool, name.as_slice()).last),
        None => None,
    }
}

/// The last serial that names the first group of these that prevents the filing.
fn last_of_closed<L: LookUps>(spool: &L, closed: Closed, names: &[Text]) -> Option<u64>
    ensures { result ≡ option_map (last_naming (L.changes spool.now)) (closed_among closed (L.changes spool.now) names.now) }
{
    match closed {
        Closed::Refuse => first_closed(spool, names),
        Closed::Take => None,
    }
}

/// The outcome of an article over this spool. It depends on its id, on which of its groups exist, and on which are
/// closed.
pub fn filing<L: LookUps>(
    alloc: Global,
    spool: &L,
    article: &Article<'_>,
    closed: Closed,
) -> Result<Outcome, AllocError>
    ensures { IfOk result (λ outcome. outcome ≡ told (L.changes spool.now)
        (spool_outcome (same_id (L.changes spool.now) article.now) (groups_here (L.changes spool.now) article.now)
        (closed_among closed (L.changes spool.now) (groups_of article.now)))) }
{
    match same_id(spool, article) {
        Some(serial) => Ok(Outcome::Refused(Refusal::Repeat, serial)),
        None => by_groups(alloc, spool, article, closed),
    }
}

/// The outcome of an article whose id is new, by its groups.
#[tactic(auto, using(crate::proofs::Telling::told_groups))]
fn by_groups<L: LookUps>(
    alloc: Global,
    spool: &L,
    article: &Article<'_>,
    closed: Closed,
) -> Result<Outcome, AllocError>
    requires { same_id (L.changes spool.now) article.now ≡ None }
    ensures { IfOk result (λ outcome. outcome ≡ told (L.changes spool.now)
        (spool_outcome None (groups_here (L.changes spool.now) article.now)
        (closed_among closed (L.changes spool.now) (groups_of article.now)))) }
{
    let mut names = article.groups(alloc)?;
    let in_the_way = last_of_closed(spool, closed, &names);
    keep_existing(spool, &mut names);
    Ok(made_outcome(names, in_the_way))
}

/// The outcome, by the groups that exist and the last serial that names one that prevents the filing.
fn made_outcome(here: Vec<Text>, in_the_way: Option<u64>) -> Outcome
    ensures { result ≡ outcome_by here.items in_the_way }
{
    if here.is_empty() {
        return Outcome::Refused(Refusal::NoGroup, 0);
    }
    match in_the_way {
        Some(serial) => Outcome::Refused(Refusal::Closed, serial),
        None => Outcome::Accepted(Names::new(here)),
    }
}
