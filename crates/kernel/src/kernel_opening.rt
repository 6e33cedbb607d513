//! Opens the spool in the logical blocks of a journal.

ghost use Rattle.std.specs.Prelude.{◌≡◌, ◌≢◌, ◌⊎◌, ◌≤◌, [], IfErr, IfOk, IsTrue, MatchResult, OnOk};
ghost use Rattle.journal.specs.Journal.{IsReady};
ghost use Rattle.model.specs.Files.{HasRoom};
ghost use Rattle.model.specs.Layout.{HoldsIn};
ghost use Rattle.model.specs.Names.{is_host};
ghost use Rattle.model.specs.Spool.{Spool as Changes};
ghost use Rattle.kernel.specs.Label.{IsNoLabel};
ghost use Rattle.kernel.specs.Opening.{CostsUpgrade, HasBlocks, HasFailed, IsDamaged, IsLoaded, IsSpoolOf, IsStill, IsUnsynced};
ghost use Rattle.kernel.specs.Opening.{OnlyReads, ReadsAndUpgrades};

use crate::read_label;
use disk::Disk;
use fs_blocks::Blocks;
use journal::{Journal, JournalError};
use journal_volume::Volume;
use model::Text;
use spool::Spool;
use std::alloc::Global;
use thiserror::Error;

/// Why a volume was not opened.
#[derive(Clone, Copy, Debug, Drop, PartialEq, Eq, Error)]
pub enum OpenError {
    /// The device failed, and the journal is halted.
    #[error("E1 Fault")]
    Fault,
    #[error("E2 Memory")]
    Memory,
    /// The volume's label is not that of a news server's volume of this size.
    #[error("E3 NotAVolume")]
    NotAVolume,
    /// The logical blocks hold no lawful spool of the label's host.
    #[error("E5 Damaged")]
    Damaged,
}

/// The logical blocks of a volume under its label, of which nothing was read yet.
#[derive(Drop)]
pub struct LoadedBlocks {
    pub host: Vec<u8>,
    pub inodes: u32,
    pub format: u32,
    pub volume: Volume,
}

/// Opens the spool in the logical blocks. The journal must be idle and not halted, as after its opening. A volume of format 1 or 2 is
/// checked as one, and then made one of format 3. Apart from that and from reads of the device the journal stays as it
/// was. Only `Fault` halts it, and `Memory` if the upgrade's sync was refused.
///
/// `NotAVolume` (E3) if the label is not valid, `Fault` (E1) if the device fails, `Damaged` (E5) if the blocks hold
/// no lawful spool of the label's host in the files of the volume's format, and `Memory` (E2) if an
/// allocation was refused. Nothing is written if the answer is E3 or E5.
pub(crate) fn open_spool<D: Disk>(
    alloc: Global,
    journal: &mut Journal<D>,
) -> Result<Spool, OpenError>
    requires ready { IsReady journal.old }
    ensures ok { IfOk result (IsLoaded D.device journal.old) }
    ensures ready { OnOk result (IsReady journal.new) }
    ensures format { OnOk result (journal.new.format ≡ 3) }
    ensures reads { ReadsAndUpgrades D.device journal.old journal.new }
    ensures cost { OnOk result (CostsUpgrade journal.old.format (D.device journal.old.disk) (D.device journal.new.disk)) }
    ensures judged { IfErr result (λ error. (error ≡ OpenError.NotAVolume) ⊎ (error ≡ OpenError.Damaged)
        → OnlyReads D.device journal.old journal.new) }
    ensures still { MatchResult result (λ spool. IsStill D.device journal.old journal.new)
        (λ error. error ≢ OpenError.Fault
        → IsStill D.device journal.old journal.new
        ⊎ ((error ≡ OpenError.Memory) × IsTrue D.sync_grows × IsUnsynced D.device journal.old journal.new)) }
    ensures fault { IfErr result (λ error. error ≡ OpenError.Fault → HasFailed D.device journal.old journal.new) }
    ensures no_label { IfErr result (λ error. error ≡ OpenError.NotAVolume → IsNoLabel journal.old.label journal.old.size) }
    ensures damaged { IfErr result (λ error. error ≡ OpenError.Damaged → IsDamaged D.device journal.old) }
{
    let spool = read(alloc, journal)?;
    let format = journal.format_number();
    if format != 3 {
        upgrade(journal)?;
    }
    Ok(spool)
}

/// The spool in the logical blocks. The device is only read.
fn read<D: Disk>(alloc: Global, journal: &mut Journal<D>) -> Result<Spool, OpenError>
    requires { IsReady journal.old }
    ensures ok { IfOk result (IsLoaded D.device journal.old) }
    ensures ready { OnOk result (IsReady journal.new) }
    ensures reads { OnlyReads D.device journal.old journal.new }
    ensures still { MatchResult result (λ spool. IsStill D.device journal.old journal.new) (λ error. error ≢ OpenError.Fault
        → IsStill D.device journal.old journal.new) }
    ensures fault { IfErr result (λ error. error ≡ OpenError.Fault → HasFailed D.device journal.old journal.new) }
    ensures no_label { IfErr result (λ error. error ≡ OpenError.NotAVolume → IsNoLabel journal.old.label journal.old.size) }
    ensures damaged { IfErr result (λ error. error ≡ OpenError.Damaged → IsDamaged D.device journal.old) }
{
    let LoadedBlocks {
        host,
        inodes,
        format,
        volume,
    } = load_blocks(alloc, journal)?;
    spool_in(alloc, Text::new(host), inodes, format, volume)
}

/// Loads the logical blocks of a journal that was just opened. The device is only read. Refused as `NotAVolume` (E3) if the label is not
/// valid, as `Fault` (E1), or as `Memory` (E2); whether the blocks hold a spool isn't looked at.
pub fn load_blocks<D: Disk>(
    alloc: Global,
    journal: &mut Journal<D>,
) -> Result<LoadedBlocks, OpenError>
    requires { IsReady journal.old }
    ensures ok { IfOk result (HasBlocks D.device journal.old) }
    ensures ready { OnOk result (IsReady journal.new) }
    ensures reads { OnlyReads D.device journal.old journal.new }
    ensures still { MatchResult result (λ loaded. IsStill D.device journal.old journal.new) (λ error. error ≢ OpenError.Fault
        → IsStill D.device journal.old journal.new) }
    ensures fault { IfErr result (λ error. error ≡ OpenError.Fault → HasFailed D.device journal.old journal.new) }
    ensures no_label { IfErr result (λ error. error ≡ OpenError.NotAVolume → IsNoLabel journal.old.label journal.old.size) }
    ensures unread { IfErr result (λ error. error ≢ OpenError.Damaged) }
{
    // what the journal keeps, which the loads need
    prove!(journal.is_idle());
    let Some(label) = read_label(journal.label(), journal.blocks()) else {
        return Err(OpenError::NotAVolume);
    };
    let inodes = label.inodes as u32;
    let Ok(host) = label.host.to_vec(alloc) else {
        return Err(OpenError::Memory);
    };
    let format = journal.format_number();
    let loaded = journal_loading::open(alloc, journal);
    // for the proof: what the journal keeps
    let _idle = journal.is_idle();
    match loaded {
        Ok(volume) => {
            // for the proof: each block is whole
            let _count = volume.len();
            Ok(LoadedBlocks {
                host,
                inodes,
                format,
                volume,
            })
        }
        Err(journal_loading::LoadError::Fault) => Err(OpenError::Fault),
        Err(journal_loading::LoadError::Memory) => Err(OpenError::Memory),
    }
}

/// Makes the volume of a journal one of format 3. It is one of format 1 or 2, and no batch is in flight. `Fault` (E1) if
/// the device failed, and `Memory` (E2) if it refused a call for want of memory. A crash at any moment leaves the label and
/// the logical blocks, in the format that was or in format 3.
fn upgrade<D: Disk>(journal: &mut Journal<D>) -> Result<(), OpenError>
    requires ready { IsReady journal.old }
    requires older { journal.old.format ≤ 2 }
    ensures format { OnOk result (journal.new.format ≡ 3) }
    ensures reads { ReadsAndUpgrades D.device journal.old journal.new }
    ensures cost { OnOk result (CostsUpgrade 1 (D.device journal.old.disk) (D.device journal.new.disk)) }
    ensures still { OnOk result (IsStill D.device journal.old journal.new) }
    ensures fault { IfErr result (λ error. error ≡ OpenError.Fault → HasFailed D.device journal.old journal.new) }
    ensures memory { IfErr result (λ error. error ≡ OpenError.Memory
        → IsStill D.device journal.old journal.new ⊎ (IsTrue D.sync_grows × IsUnsynced D.device journal.old journal.new)) }
    ensures no_other { IfErr result (λ error. (error ≡ OpenError.Fault) ⊎ (error ≡ OpenError.Memory)) }
{
    let upgraded = journal.upgrade();
    // for the proof: what the journal keeps
    let _idle = journal.is_idle();
    match upgraded {
        Ok(()) => Ok(()),
        Err(JournalError::Memory) => Err(OpenError::Memory),
        Err(_) => Err(OpenError::Fault),
    }
}

// The spool of this host in these logical blocks of a volume of this format.
fn spool_in(
    alloc: Global,
    host: Text,
    inodes: u32,
    format: u32,
    volume: Volume,
) -> Result<Spool, OpenError>
    requires host { IsTrue (is_host host) }
    requires room { HasRoom inodes volume.cache }
    requires seen { volume.seen ≡ volume.cache }
    requires clean { volume.dirty ≡ [] }
    ensures ok { IfOk result (IsSpoolOf format host inodes volume.cache) }
    ensures damaged { IfErr result (λ error. error ≡ OpenError.Damaged → (S : Changes) → HoldsIn format host inodes volume.cache S → ⊥) }
    ensures no_other { IfErr result (λ error. (error ≡ OpenError.Memory) ⊎ (error ≡ OpenError.Damaged)) }
{
    match Spool::open(alloc, host, inodes, format, volume) {
        Ok(spool) => Ok(spool),
        Err(spool_reading::ReadSpoolError::Memory) => Err(OpenError::Memory),
        Err(spool_reading::ReadSpoolError::Damaged) => Err(OpenError::Damaged),
    }
}
