//! Removes the articles of groups by their age.

ghost use Rattle.std.specs.Prelude.{◌≡◌, ◌||◌, IfOk, OnOk};
ghost use Rattle.kernel_expiring.specs.Ages.{IsAgedGroup};
ghost use Rattle.kernel_expiring.specs.Treating.{Treats};
ghost use Rattle.program_changes.specs.Ages.{Expires, expiry_of};
ghost use Rattle.program_changes.specs.Made.{Changes};
ghost use Rattle.spool.specs.Refusals.{expiry_refusal};
ghost use Rattle.volume_store.specs.Saved.{GoesOn, IsSaved, StoreView};

use crate::durable::{Durable, commit};
use crate::not_done::NotDone;
use crate::refusal_of;
use disk::Disk;
use kernel_expiring::{AgedArticles, AgedGroup, TreatOld, aged_group, since, treat_old};
use model::Moment;
use program_files::{VolumeFile, new_counts, open_store};
use program_printing::CommandError;
use spool::ExpireError;
use std::alloc::Global;
use std::fs::File;
use std::io::Write;
use std::marker::PhantomData;
use std::rt::Files;
use text_names::Wildmat;
use volume_store::Store;

/// Which articles are removed from their groups by their age.
#[derive(Clone, Copy)]
pub struct AgeOrder<'a> {
    /// The file of the volume.
    pub path: &'a str,
    /// It matches the names of the groups.
    pub wildmat: &'a Wildmat,
    /// The articles before the first one that isn't older than so many days are removed.
    pub days: u64,
    /// Ages are counted up to this moment.
    pub now: Moment,
    /// What would be removed is only printed.
    pub is_dry: bool,
}

/// Removes from the groups whose names the wildmat matches the articles before the first one that isn't older than so many
/// days, as `expire_old` does, and prints at last how many articles were removed; one that was in two groups counts twice. A
/// dry run prints the same, and removes none. After a refusal what was printed is removed.
pub fn expire_older<R: Files<File = File>, W: Write>(
    rt: &R,
    alloc: Global,
    order: &AgeOrder<'_>,
    output: &mut W,
) -> Result<(), CommandError> {
    let counts = new_counts(alloc)?;
    let file = VolumeFile::new(order.path, &counts);
    file.outcome(expire_aged(rt, alloc, file, order, output))
}

fn expire_aged<R: Files<File = File>, W: Write>(
    rt: &R,
    alloc: Global,
    file: VolumeFile<'_>,
    order: &AgeOrder<'_>,
    output: &mut W,
) -> Result<(), CommandError> {
    let mut store = open_store(rt, alloc, file)?;
    let since = since(order.now.seconds(), order.days);
    let articles = if order.is_dry {
        tell_old(&mut store, order.wildmat, since, output)?
    } else {
        expire_old(&mut store, order.wildmat, since, output)?
    };
    Ok(writeln!(output, "articles {articles}")?)
}

/// Takes old articles out of a volume, and prints each expiry once it is durable.
struct TakingOut<D, W> {
    of: PhantomData<(D, W)>,
}

impl<D, W> Drop for TakingOut<D, W> {
    fn drop(self) {
        let TakingOut { of: _ } = self;
    }
}

impl<D: Disk, W: Write> TreatOld for TakingOut<D, W> {
    ghost use Rattle.kernel_expiring.specs.Ages.{IsAgedGroup};
    ghost use Rattle.program_changes.specs.Ages.{Expires};
    ghost use Rattle.volume_store.specs.Saved.{IsSaved};

    type Volume = Store<D>;

    type Output = W;

    type Refusal = CommandError;

    ghost is_ready = { λ _ store. IsSaved D.device store };

    ghost found = { λ _ store place wildmat since group. IsAgedGroup store.spool.changes place wildmat since group };

    ghost treated = { λ _ old new aged result. Expires D.device old new aged result };

    fn find(&self, volume: &Store<D>, place: usize, wildmat: &Wildmat, since: u64) -> AgedGroup {
        aged_group(volume.spool(), place, wildmat, since)
    }

    fn treat(
        &self,
        volume: &mut Store<D>,
        output: &mut W,
        aged: AgedArticles,
    ) -> Result<(), CommandError> {
        take_out_and_print(volume, output, aged)
    }
}

/// Says which articles of a volume are old, and changes nothing.
struct Telling<D, W> {
    of: PhantomData<(D, W)>,
}

impl<D, W> Drop for Telling<D, W> {
    fn drop(self) {
        let Telling { of: _ } = self;
    }
}

impl<D: Disk, W: Write> TreatOld for Telling<D, W> {
    ghost use Rattle.std.specs.Prelude.{◌≡◌};
    ghost use Rattle.kernel_expiring.specs.Ages.{IsAgedGroup};

    type Volume = Store<D>;

    type Output = W;

    type Refusal = CommandError;

    ghost is_ready = { λ _ _. Unit {0} };

    ghost found = { λ _ store place wildmat since group. IsAgedGroup store.spool.changes place wildmat since group };

    ghost treated = { λ _ old new _ _. new ≡ old };

    fn find(&self, volume: &Store<D>, place: usize, wildmat: &Wildmat, since: u64) -> AgedGroup {
        aged_group(volume.spool(), place, wildmat, since)
    }

    fn treat(
        &self,
        _volume: &mut Store<D>,
        output: &mut W,
        aged: AgedArticles,
    ) -> Result<(), CommandError> {
        print(&aged, output)
    }
}

/// Removes from the groups whose names the wildmat matches the articles before the first one that was filed at this moment or
/// later, and nothing else, from a volume all of whose changes are durable. Prints the expiry of each group once it is durable,
/// and answers how many articles these were; one that was in two groups counts twice.
///
/// A crash at any moment leaves the first of the changes, at least those that were there before. After a refusal what was
/// printed is removed.
pub fn expire_old<D: Disk, W: Write>(
    store: &mut Store<D>,
    wildmat: &Wildmat,
    since: u64,
    output: &mut W,
) -> Result<u64, CommandError>
    requires { IsSaved D.device store.old }
    ensures saved { OnOk result (IsSaved D.device store.new) }
    ensures exactly { Treats (λ (now : StoreView D) place group. IsAgedGroup now.spool.changes place wildmat.now since group)
        (Expires D.device) store.old store.new result }
    ensures goes_on { GoesOn D.device store.old store.new }
{
    let taking: TakingOut<D, W> = TakingOut { of: PhantomData };
    treat_old(&taking, store, output, wildmat, since)
}

/// Prints the expiries that `expire_old` would make, and answers how many articles they would take out. Nothing changes.
pub fn tell_old<D: Disk, W: Write>(
    store: &mut Store<D>,
    wildmat: &Wildmat,
    since: u64,
    output: &mut W,
) -> Result<u64, CommandError>
    ensures { store.new ≡ store.old }
{
    let telling: Telling<D, W> = Telling { of: PhantomData };
    treat_old(&telling, store, output, wildmat, since)
}

/// Takes the old articles out of a group, and prints that once it is durable.
pub(crate) fn take_out_and_print<D: Disk, W: Write>(
    store: &mut Store<D>,
    output: &mut W,
    aged: AgedArticles,
) -> Result<(), CommandError>
    requires { IsSaved D.device store.old }
    ensures treated { Expires D.device store.old store.new aged result }
    ensures ready { OnOk result (IsSaved D.device store.new) }
{
    match take_out(store, aged) {
        Ok(expired) => print_expired(&expired, output),
        Err(refusal) => Err(refusal_of(refusal)),
    }
}

/// Takes the old articles out of a group, and makes that durable, as `expire` does.
fn take_out<D: Disk>(
    store: &mut Store<D>,
    aged: AgedArticles,
) -> Result<Durable<AgedArticles>, NotDone<ExpireError>>
    requires { IsSaved D.device store.old }
    ensures changes { Changes D.device (D.write_grows || D.sync_grows) store.old store.new (expiry_of aged) ExpireError.Memory
        (expiry_refusal store.old.spool aged.name aged.number) result }
    ensures same { IfOk result (λ expired. expired.value ≡ aged) }
{
    match store.expire(&aged.name, aged.number) {
        Ok(_) => match commit(store, aged) {
            Ok(durable) => Ok(durable),
            Err(error) => Err(NotDone::Device(error)),
        },
        Err(error) => Err(NotDone::Refused(error)),
    }
}

/// Prints an expiry that is durable.
fn print_expired<W: Write>(
    expired: &Durable<AgedArticles>,
    output: &mut W,
) -> Result<(), CommandError> {
    print(expired.get(), output)
}

/// Prints an expiry as the operator would ask for it.
pub(crate) fn print<W: Write>(aged: &AgedArticles, output: &mut W) -> Result<(), CommandError> {
    write!(output, "expire ")?;
    output.write_all(aged.name.as_slice())?;
    Ok(writeln!(output, " {}", aged.number)?)
}
