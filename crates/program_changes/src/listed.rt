//! Makes the groups of a list in a volume that no server serves.

ghost use Rattle.std.specs.Prelude.{IfOk, IsErr, OnErr, OnOk};
ghost use Rattle.program_changes.specs.Listing.{BecomesOf, HasAddedAll, HasAddedFirst, IsSame};
ghost use Rattle.spool.specs.View.{SpoolView};
ghost use Rattle.volume_store.specs.Saved.{GoesOn, IsSaved};

use crate::durable::{Durable, commit};
use disk::Disk;
use program_files::{VolumeFile, new_counts, open_store};
use program_lists::{ListFault, Listed};
use program_printing::CommandError;
use spool::AddError;
use std::alloc::Global;
use std::fs::File;
use std::io::Write;
use std::rt::Files;
use text_names::GroupName;
use volume_store::Store;

/// What became of a line of a list that asks for something.
#[derive(Clone, Copy, Debug, PartialEq, Eq)]
pub enum GroupOutcome {
    /// Its group was made, with this serial.
    Made(u64),
    /// The group was there.
    Here,
    /// There is no room for the group.
    Full,
    /// The line asks for no group that can be made.
    Refused(ListFault),
}

/// How many lines had each outcome.
#[derive(Clone, Copy, Debug, PartialEq, Eq)]
pub struct Outcomes {
    pub made: usize,
    pub here: usize,
    pub refused: usize,
}

/// Makes the groups of a list in the volume in a file, as `add_groups` does, and prints what became of each line once all of it is
/// durable, and how many lines had each outcome. After a refusal nothing is printed, and the first of the groups may be there.
pub fn groups<R: Files<File = File>, W: Write>(
    rt: &R,
    alloc: Global,
    path: &str,
    listed: &[Listed],
    output: &mut W,
) -> Result<Outcomes, CommandError> {
    let counts = new_counts(alloc)?;
    let file = VolumeFile::new(path, &counts);
    let outcomes = file.outcome(groups_in(rt, alloc, file, listed))?;
    print_all(listed, &outcomes, output)
}

fn groups_in<R: Files<File = File>>(
    rt: &R,
    alloc: Global,
    file: VolumeFile<'_>,
    listed: &[Listed],
) -> Result<Durable<Vec<GroupOutcome>>, CommandError> {
    let mut store = open_store(rt, alloc, file)?;
    add_groups(alloc, &mut store, listed)
}

/// Adds the groups of a list to a volume, one after the other, and makes all of them durable: by one commit, and one before it each
/// time that the blocks of those before have to be written to make room. Answers what became of each line. A group that is there, or
/// for which there is no room, is left out, and so is a line that asks for no group; what was made stays.
///
/// `Memory` (E2) if an allocation was refused, and otherwise refused as `Store::commit` is; then the changes are those of the first
/// lines, after the ones that were there. A crash at any moment leaves the first of the changes, at least those that were durable
/// when the call began.
pub fn add_groups<D: Disk>(
    alloc: Global,
    store: &mut Store<D>,
    listed: &[Listed],
) -> Result<Durable<Vec<GroupOutcome>>, CommandError>
    ensures saved { OnOk result (IsSaved D.device store.new) }
    ensures made { IfOk result (λ outcomes. HasAddedAll store.old.spool listed.now outcomes.value.items store.new.spool) }
    ensures failed { OnErr result (HasAddedFirst store.old.spool listed.now store.new.spool) }
    ensures goes_on { GoesOn D.device store.old store.new }
{
    let outcomes = add_all(alloc, store, listed)?;
    match commit(store, outcomes) {
        Ok(durable) => Ok(durable),
        Err(error) => Err(CommandError::from(error)),
    }
}

/// Adds the groups of a list, which aren't durable yet.
fn add_all<D: Disk>(
    alloc: Global,
    store: &mut Store<D>,
    listed: &[Listed],
) -> Result<Vec<GroupOutcome>, CommandError>
    ensures made { IfOk result (λ outcomes. HasAddedAll store.old.spool listed.now outcomes.items store.new.spool) }
    ensures failed { OnErr result (HasAddedFirst store.old.spool listed.now store.new.spool) }
    ensures goes_on { GoesOn D.device store.old store.new }
{
    let mut outcomes = Vec::with_capacity(alloc, listed.len())?;
    'lines: for place in 0..listed.len() {
        let outcome = add_listed(store, &listed[place])?;
        if outcomes.push(outcome).is_err() {
            return Err(CommandError::Memory);
        }
    }
    Ok(outcomes)
}

/// Adds the group of a line, which isn't durable yet.
fn add_listed<D: Disk>(store: &mut Store<D>, listed: &Listed) -> Result<GroupOutcome, CommandError>
    ensures ok { IfOk result (λ outcome. (now : SpoolView) × IsSame store.old.spool now
        × BecomesOf now store.new.spool listed.now outcome) }
    ensures err { OnErr result (IsSame store.old.spool store.new.spool) }
    ensures goes_on { GoesOn D.device store.old store.new }
{
    let request = match &listed.asked {
        Ok(request) => request,
        Err(fault) => return Ok(GroupOutcome::Refused(*fault)),
    };
    store.make_room()?;
    match store.add_group(request) {
        Ok(serial) => Ok(GroupOutcome::Made(serial)),
        Err(AddError::Exists) => Ok(GroupOutcome::Here),
        Err(AddError::Full) => Ok(GroupOutcome::Full),
        Err(AddError::Memory) => Err(CommandError::Memory),
    }
}

/// Prints what became of each line, and counts the outcomes.
fn print_all<W: Write>(
    listed: &[Listed],
    outcomes: &Durable<Vec<GroupOutcome>>,
    output: &mut W,
) -> Result<Outcomes, CommandError> {
    let mut counts = Outcomes {
        made: 0,
        here: 0,
        refused: 0,
    };
    for (listed, outcome) in listed.iter().zip(outcomes.get()) {
        match outcome {
            GroupOutcome::Made(_) => counts.made = counts.made.saturating_add(1),
            GroupOutcome::Here => counts.here = counts.here.saturating_add(1),
            GroupOutcome::Full | GroupOutcome::Refused(_) => {
                counts.refused = counts.refused.saturating_add(1);
            }
        }
        print(listed, *outcome, output)?;
    }
    let Outcomes {
        made,
        here,
        refused,
    } = counts;
    writeln!(output, "made {made}")?;
    writeln!(output, "here {here}")?;
    writeln!(output, "refused {refused}")?;
    Ok(counts)
}

/// Prints what became of a line.
fn print<W: Write>(
    listed: &Listed,
    outcome: GroupOutcome,
    output: &mut W,
) -> Result<(), CommandError> {
    write!(output, "line {}: ", listed.line)?;
    match outcome {
        GroupOutcome::Made(serial) => write!(output, "made {serial}")?,
        GroupOutcome::Here => write!(output, "here")?,
        GroupOutcome::Full => write!(output, "refused")?,
        GroupOutcome::Refused(fault) => write!(output, "refused: {fault}")?,
    }
    if let Ok(request) = &listed.asked {
        print_name(&request.name, output)?;
    }
    if outcome == GroupOutcome::Full {
        write!(output, ": E6 Full")?;
    }
    Ok(writeln!(output)?)
}

/// Prints a blank and the name of a group.
fn print_name<W: Write>(name: &GroupName, output: &mut W) -> Result<(), CommandError> {
    output.write_all(b" ")?;
    Ok(output.write_all(name.as_slice())?)
}
