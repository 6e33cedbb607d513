//! How many articles are in none of their groups any more.

ghost use Rattle.std.specs.Prelude.{◌≡◌, ◌+◌, ◌<◌, ◌^◌};
ghost use Rattle.kernel_expiring.specs.Gone.{IsGonePart, gone_among};

use session_lookups::LookUps;

/// The most changes that are looked at for one part.
pub const PART: u64 = 4_096;

/// The articles of a part of the changes that are gone.
#[derive(Clone, Copy, Debug, PartialEq, Eq)]
pub struct GonePart {
    /// How many these are.
    pub articles: u64,
    /// The first serial of the next part. `None` if this one is the last.
    pub next: Option<u64>,
}

/// The articles that are gone among the changes from this serial on, of which at most 4,096 are looked at.
pub fn gone_part<L: LookUps>(spool: &L, first: u64) -> GonePart
    ensures { IsGonePart (L.changes spool.now) first result }
{
    let (last, end) = (spool.len(), first.saturating_add(PART));
    if last < end {
        return GonePart {
            articles: gone_among(spool, first, (last + 1).saturating_sub(first)),
            next: None,
        };
    }
    GonePart {
        articles: gone_among(spool, first, PART),
        next: Some(end),
    }
}

/// How many of so many changes, from the one with this serial on, are articles that are gone.
fn gone_among<L: LookUps>(spool: &L, first: u64, many: u64) -> u64
    requires { first + many < 2 ^ 64 }
    ensures { result ≡ gone_among (L.changes spool.now) first many }
{
    let mut gone = 0;
    for passed in 0..many {
        if spool.gone_at(first + passed).is_some() {
            gone += 1;
        }
    }
    gone
}
