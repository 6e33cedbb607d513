//! Removes the articles of groups by the first rule that matches each.

ghost use Rattle.std.specs.Prelude.{◌≡◌, OnOk};
ghost use Rattle.kernel_expiring.specs.Treating.{Treats};
ghost use Rattle.program_changes.specs.Ages.{Expires};
ghost use Rattle.program_rules.specs.Ruled.{IsRuledGroup};
ghost use Rattle.volume_store.specs.Saved.{GoesOn, IsSaved, StoreView};

use crate::ages::{print, take_out_and_print};
use disk::Disk;
use kernel_expiring::{AgedArticles, AgedGroup, TreatOld, treat_old};
use model::Moment;
use program_files::{VolumeFile, new_counts, open_store};
use program_printing::CommandError;
use program_rules::{Rule, ruled_group};
use std::alloc::Global;
use std::fs::File;
use std::io::Write;
use std::marker::PhantomData;
use std::rt::Files;
use text_names::Wildmat;
use volume_store::Store;

/// Which articles are removed from their groups by rules.
#[derive(Clone, Copy)]
pub struct RuleOrder<'a> {
    /// The file of the volume.
    pub path: &'a str,
    /// The first one that matches a group decides about its articles.
    pub rules: &'a [Rule],
    /// It matches the names of all groups.
    pub all: &'a Wildmat,
    /// Ages are counted up to this moment.
    pub now: Moment,
    /// What would be removed is only printed.
    pub is_dry: bool,
}

/// Removes from each group the articles before the first one that isn't older than the days of the first rule that matches its
/// name, as `expire_by` does, and prints at last how many articles were removed; one that was in two groups counts twice. A dry run
/// prints the same, and removes none. After a refusal what was printed is removed.
pub fn expire_ruled<R: Files<File = File>, W: Write>(
    rt: &R,
    alloc: Global,
    order: &RuleOrder<'_>,
    output: &mut W,
) -> Result<(), CommandError> {
    let counts = new_counts(alloc)?;
    let file = VolumeFile::new(order.path, &counts);
    file.outcome(expire_in(rt, alloc, file, order, output))
}

fn expire_in<R: Files<File = File>, W: Write>(
    rt: &R,
    alloc: Global,
    file: VolumeFile<'_>,
    order: &RuleOrder<'_>,
    output: &mut W,
) -> Result<(), CommandError> {
    let mut store = open_store(rt, alloc, file)?;
    let RuleOrder { rules, all, .. } = *order;
    let now = order.now.seconds();
    let articles = if order.is_dry {
        tell_by(&mut store, rules, all, now, output)?
    } else {
        expire_by(&mut store, rules, all, now, output)?
    };
    Ok(writeln!(output, "articles {articles}")?)
}

/// Takes articles out of a volume by rules, and prints each expiry once it is durable.
struct TakingOutBy<'r, D, W> {
    rules: &'r [Rule],
    of: PhantomData<(D, W)>,
}

impl<'r, D, W> Drop for TakingOutBy<'r, D, W> {
    fn drop(self) {
        let TakingOutBy { rules: _, of: _ } = self;
    }
}

impl<'r, D: Disk, W: Write> TreatOld for TakingOutBy<'r, D, W> {
    ghost use Rattle.program_rules.specs.Ruled.{IsRuledGroup};
    ghost use Rattle.program_changes.specs.Ages.{Expires};
    ghost use Rattle.volume_store.specs.Saved.{IsSaved};

    type Volume = Store<D>;

    type Output = W;

    type Refusal = CommandError;

    ghost is_ready = { λ _ store. IsSaved D.device store };

    ghost found = { λ taking store place _ now group. IsRuledGroup store.spool.changes place taking.rules.now now group };

    ghost treated = { λ _ old new aged result. Expires D.device old new aged result };

    /// The rules have wildmats of their own, and count their days up to this moment.
    fn find(&self, volume: &Store<D>, place: usize, _wildmat: &Wildmat, now: u64) -> AgedGroup {
        ruled_group(volume.spool(), place, self.rules, now)
    }

    fn treat(
        &self,
        volume: &mut Store<D>,
        output: &mut W,
        aged: AgedArticles,
    ) -> Result<(), CommandError> {
        take_out_and_print(volume, output, aged)
    }
}

/// Says which articles of a volume go by rules, and changes nothing.
struct TellingBy<'r, D, W> {
    rules: &'r [Rule],
    of: PhantomData<(D, W)>,
}

impl<'r, D, W> Drop for TellingBy<'r, D, W> {
    fn drop(self) {
        let TellingBy { rules: _, of: _ } = self;
    }
}

impl<'r, D: Disk, W: Write> TreatOld for TellingBy<'r, D, W> {
    ghost use Rattle.std.specs.Prelude.{◌≡◌};
    ghost use Rattle.program_rules.specs.Ruled.{IsRuledGroup};

    type Volume = Store<D>;

    type Output = W;

    type Refusal = CommandError;

    ghost is_ready = { λ _ _. Unit {0} };

    ghost found = { λ telling store place _ now group. IsRuledGroup store.spool.changes place telling.rules.now now group };

    ghost treated = { λ _ old new _ _. new ≡ old };

    /// The same as what is taken out.
    fn find(&self, volume: &Store<D>, place: usize, _wildmat: &Wildmat, now: u64) -> AgedGroup {
        ruled_group(volume.spool(), place, self.rules, now)
    }

    fn treat(
        &self,
        _volume: &mut Store<D>,
        output: &mut W,
        aged: AgedArticles,
    ) -> Result<(), CommandError> {
        print(&aged, output)
    }
}

/// Removes from each group of a volume all of whose changes are durable what goes by the first rule that matches its name, and
/// nothing else: the articles before the first one that isn't older than the rule's days. Where no rule matches, or that one has no
/// days, a group keeps all. Prints the expiry of each group once it is durable, before the next group is looked at, and answers how
/// many articles these were; one that was in two groups counts twice. Days are counted up to `now`, in seconds since 1970. The
/// wildmat isn't asked.
///
/// A crash at any moment leaves the first of the changes, at least those that were there before. After a refusal what was
/// printed is removed.
pub fn expire_by<D: Disk, W: Write>(
    store: &mut Store<D>,
    rules: &[Rule],
    all: &Wildmat,
    now: u64,
    output: &mut W,
) -> Result<u64, CommandError>
    requires { IsSaved D.device store.old }
    ensures saved { OnOk result (IsSaved D.device store.new) }
    ensures exactly { Treats (λ (at : StoreView D) place group. IsRuledGroup at.spool.changes place rules.now now group)
        (Expires D.device) store.old store.new result }
    ensures goes_on { GoesOn D.device store.old store.new }
{
    let taking: TakingOutBy<'_, D, W> = TakingOutBy {
        rules,
        of: PhantomData,
    };
    treat_old(&taking, store, output, all, now)
}

/// Prints the expiries that `expire_by` would make, and answers how many articles they would take out. Nothing changes.
pub fn tell_by<D: Disk, W: Write>(
    store: &mut Store<D>,
    rules: &[Rule],
    all: &Wildmat,
    now: u64,
    output: &mut W,
) -> Result<u64, CommandError>
    ensures { store.new ≡ store.old }
{
    let telling: TellingBy<'_, D, W> = TellingBy {
        rules,
        of: PhantomData,
    };
    treat_old(&telling, store, output, all, now)
}
