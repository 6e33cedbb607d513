//! An expiry by age, carried out group by group.

ghost use Rattle.std.specs.Prelude.{OnOk};
ghost use Rattle.kernel_expiring.specs.Treating.{Treats};

use crate::{AgedArticles, AgedGroup};
use text_names::Wildmat;

/// How an expiry by age finds the old articles of a group, and what it does about them: it takes them out, or only says which
/// they are.
pub trait TreatOld {
    ghost use Rattle.std.specs.Prelude.{ℕ, List, Result};
    ghost use Rattle.kernel_expiring.specs.declared.AgedArticles.{AgedArticles};
    ghost use Rattle.kernel_expiring.specs.declared.AgedGroup.{AgedGroup};

    /// What a treatment changes.
    type Volume;

    /// Where a treatment is told.
    type Output;

    /// Why it stops.
    type Refusal;

    /// The volume may be treated.
    ghost is_ready: { Self → Self.Volume → Type 0 };

    /// What is found at a place, with a wildmat and a moment.
    ghost found: { Self → Self.Volume → ℕ → List ℕ → ℕ → AgedGroup → Type 0 };

    /// What a treatment of these articles, with this outcome, makes of the volume.
    ghost treated: { Self → Self.Volume → Self.Volume → AgedArticles → Result Unit Self.Refusal → Type 0 };

    /// What an expiry by age does to the group at this place now, from 0, in rising serial.
    fn find(&self, volume: &Self::Volume, place: usize, wildmat: &Wildmat, since: u64) -> AgedGroup
        ensures { found self.now volume.now place wildmat.now since result };

    /// Treats the old articles of a group.
    fn treat(
        &self,
        volume: &mut Self::Volume,
        output: &mut Self::Output,
        aged: AgedArticles,
    ) -> Result<(), Self::Refusal>
        requires { is_ready self.now volume.old }
        ensures treated { treated self.now volume.old volume.new aged result }
        ensures ready { OnOk result (is_ready self.now volume.new) };
}

/// Treats the old articles of one group after the other, in rising serial of the groups, and nothing else. Answers how many
/// articles these were; one that is in two groups counts twice. It ends early only where a treatment is refused.
pub fn treat_old<T: TreatOld>(
    treating: &T,
    volume: &mut T::Volume,
    output: &mut T::Output,
    wildmat: &Wildmat,
    since: u64,
) -> Result<u64, T::Refusal>
    requires { T.is_ready treating.now volume.old }
    ensures treats { Treats (λ v place group. T.found treating.now v place wildmat.now since group) (T.treated treating.now)
        volume.old volume.new result }
    ensures ready { OnOk result (T.is_ready treating.now volume.new) }
{
    let mut articles = 0u64;
    'groups: for place in 0..usize::MAX {
        match treating.find(volume, place, wildmat, since) {
            AgedGroup::Missing => return Ok(articles),
            AgedGroup::Spared => {}
            AgedGroup::Aged(aged) => {
                articles = articles.saturating_add(aged.articles);
                treating.treat(volume, output, aged)?;
            }
        }
    }
    Ok(articles)
}
