//! The articles of a spool that are in none of their groups any more, and what a renewal gives back of them.

ghost use Rattle.std.specs.Prelude.{◌≡◌, ◌+◌, ◌-◌, ◌<◌, ◌^◌, IfOk, if◌then◌else◌, length, nat_lt};
ghost use Rattle.spool_index.specs.View.{Indexes};
ghost use Rattle.model.specs.Lawful.{IsLawful};
ghost use Rattle.model.specs.Spool.{Spool};
ghost use Rattle.model.specs.Stream.{Octets};
ghost use Rattle.model_renewed.specs.Renewed.{husk as husk_text};
ghost use Rattle.volume_states.specs.Gone.{Counts, IsGone, nothing, share_with};

use crate::Gone;
use model::Text;
use spool_index::Index;
use std::alloc::{AllocError, Global};
use text_husks::husk;

/// The octets that a file with the name of an article's takes in the pack beside its content: a length, the name, a length.
const HEAD: u64 = 17;

/// No article.
const NOTHING: Gone = Gone {
    articles: 0,
    texts: 0,
    octets: 0,
};

/// The articles that are gone.
pub fn gone_articles(alloc: Global, index: &Index) -> Result<Gone, AllocError>
    ensures { (host : Octets) (S : Spool) → IsLawful host S → Indexes S index.now → IfOk result (IsGone S) }
{
    let mut gone = NOTHING;
    for before in 0..index.len() {
        gone = plus(gone, share_with(alloc, index, before + 1)?);
    }
    Ok(gone)
}

/// What the change with this serial counts for.
fn share_with(alloc: Global, index: &Index, serial: u64) -> Result<Gone, AllocError>
    ensures { (host : Octets) (S : Spool) → IsLawful host S → Indexes S index.now
        → IfOk result (λ share. share ≡ share_with S serial) }
{
    if index.gone_at(serial).is_none() {
        return Ok(NOTHING);
    }
    let (Some(lengths), Some(groups)) = (index.lengths(serial), index.groups_of(serial)) else {
        return Ok(NOTHING);
    };
    let mut id = Vec::new(alloc);
    index.push_id(serial, &mut id)?;
    share_of(alloc, &id, lengths.text as u64, groups)
}

/// What an article counts for that is gone, with this message-id, a text of so many octets, and these groups in which
/// it was filed.
fn share_of(alloc: Global, id: &[u8], size: u64, groups: &[Text]) -> Result<Gone, AllocError>
    ensures { IfOk result (λ share. share ≡ record {
      articles = 1;
      texts = if nat_lt (length (husk_text id.now groups.now)) size then 1 else 0;
      octets = (size - length (husk_text id.now groups.now)) - 17;
    }) }
{
    let husk = husk(alloc, id, groups)?;
    let is_longer = (husk.len() as u64) < size;
    Ok(Gone {
        articles: 1,
        texts: if is_longer { 1 } else { 0 },
        octets: size.saturating_sub(husk.len() as u64).saturating_sub(HEAD),
    })
}

/// The sums, as far as a u64 holds them.
fn plus(one: Gone, other: Gone) -> Gone
    ensures articles { Counts result.articles (one.articles + other.articles) }
    ensures texts { Counts result.texts (one.texts + other.texts) }
    ensures octets { Counts result.octets (one.octets + other.octets) }
{
    Gone {
        articles: one.articles.saturating_add(other.articles),
        texts: one.texts.saturating_add(other.texts),
        octets: one.octets.saturating_add(other.octets),
    }
}
