//! Opens a device: the journal on it, and the spool or the kernel in the journal's logical blocks. `specs/Standing.antt` says what
//! an opening leaves of the device, and what the device holds if the opening is refused.

ghost use Rattle.std.specs.Prelude.{◌≡◌, IfErr, IfOk, IsTrue, min};
ghost use Rattle.journal.specs.Journal.{IsReady};
ghost use Rattle.journal.specs.Opening.{Costs, Opens, SyncsFirst};
ghost use Rattle.kernel.specs.Opening.{IsLoaded, IsOpened};
ghost use Rattle.model.specs.News.{Stands};
ghost use Rattle.kernel.specs.Standing.{LeavesOpened, LeavesRefused, open_error};

use crate::kernel_opening::open_spool;
use crate::{Kernel, OpenError};
use disk::Disk;
use journal::{Journal, JournalError};
use spool::Spool;
use std::alloc::Global;

/// An opened device: a journal that is idle, and the kernel in its logical blocks.
#[derive(Drop)]
pub struct Opened<D: Disk> {
    pub journal: Journal<D>,
    pub kernel: Kernel,
}

/// An opened device: a journal that is idle, and the spool in its logical blocks.
#[derive(Drop)]
pub struct OpenedSpool<D: Disk> {
    pub journal: Journal<D>,
    pub spool: Spool,
}

/// A refused opening, with the device as the opening left it.
#[derive(Drop)]
pub struct Refused<D> {
    pub disk: D,
    pub error: OpenError,
}

/// Opens a device, as `open_with_spool` does and with its refusals, and makes a kernel of its spool: all changes are durable, and there is
/// no session. So many may exist at a time, and 4,096 at most.
pub fn open<D: Disk>(alloc: Global, disk: D, most: usize) -> Result<Opened<D>, Refused<D>>
    // An idle journal of format 3, and the spool that stood on the device.
    ensures opened { IfOk result (λ o. IsOpened D.device o.journal o.kernel) }
    ensures most { IfOk result (λ o. o.kernel.most ≡ min most 4096) }
    ensures format { IfOk result (λ o. o.journal.format ≡ 3) }
    ensures idle { IfOk result (λ o. IsReady o.journal) }
    ensures spool { IsTrue (D.device disk).tells → IfOk result (λ o. Stands o.kernel.host (D.device disk).content o.kernel.spool) }

    // What an opening leaves of the device, and what a crash during it may leave.
    ensures opening { IfOk result (λ o. LeavesOpened D.device disk o.journal.disk) }
    ensures refusal { IfErr result (λ refused. LeavesRefused D.device disk refused.disk refused.error) }
{
    let OpenedSpool { journal, spool } = open_with_spool(alloc, disk)?;
    Ok(Opened {
        journal,
        kernel: Kernel::new(alloc, spool, most),
    })
}

/// Opens the journal and the spool on a device. The first good sync comes before every write. A crash before that sync leaves what
/// a crash at the start might have left. A crash after it leaves the volume that a read gives, with its label and its
/// logical blocks, whatever they contain. A volume of format 1 or 2 is checked as one and then made one of format 3, and a
/// crash during that leaves it in the format that was or in format 3.
///
/// A refusal keeps to this too, so it overwrites no disk, and it returns the device. `Fault` (E1) if the device failed.
/// `Memory` (E2) if it did not, and an allocation was refused; then a read gives what it gave before, or the same
/// volume. `NotAVolume` (E3) if the device holds no volume with a label of its size. `Damaged` (E5) if it holds one,
/// but no lawful spool of the label's host in the files of its format.
pub fn open_with_spool<D: Disk>(alloc: Global, disk: D) -> Result<OpenedSpool<D>, Refused<D>>
    // An idle journal of format 3, and the spool that stood on the device.
    ensures loaded { IfOk result (λ o. IsLoaded D.device o.journal o.spool) }
    ensures format { IfOk result (λ o. o.journal.format ≡ 3) }
    ensures idle { IfOk result (λ o. IsReady o.journal) }
    ensures spool { IsTrue (D.device disk).tells → IfOk result (λ o. Stands o.spool.host (D.device disk).content o.spool.changes) }

    // What an opening leaves of the device, and what a crash during it may leave.
    ensures opening { IfOk result (λ o. LeavesOpened D.device disk o.journal.disk) }
    ensures refusal { IfErr result (λ refused. LeavesRefused D.device disk refused.disk refused.error) }
{
    let mut journal = open_journal(alloc, disk)?;
    match open_spool(alloc, &mut journal) {
        Ok(spool) => Ok(OpenedSpool { journal, spool }),
        Err(error) => {
            let disk = journal.into_disk();
            Err(Refused { disk, error })
        }
    }
}

/// Opens the journal on a device, whatever its logical blocks contain, as `Journal::open` does and with its refusals, each as an opening
/// reports it.
pub fn open_journal<D: Disk>(alloc: Global, disk: D) -> Result<Journal<D>, Refused<D>>
    ensures ok { IfOk result (Opens D.device disk) }
    ensures moment { IfOk result (λ journal. SyncsFirst D.device disk journal.disk) }
    ensures cost { IsTrue (D.device disk).tells
        → IfOk result (λ journal. Costs 1 (D.device disk).content (D.device disk) (D.device journal.disk)) }
    ensures refusal { IfErr result (λ refused. LeavesRefused D.device disk refused.disk refused.error) }
{
    match Journal::open(alloc, disk) {
        Ok(journal) => Ok(journal),
        Err(refused) => {
            let journal::Refused { disk, error } = refused;
            Err(Refused {
                disk,
                error: journal_error(error),
            })
        }
    }
}

/// Why the journal was not opened, as the opening reports it. A journal that is opened is not halted.
fn journal_error(error: JournalError) -> OpenError
    ensures { result ≡ open_error error }
{
    match error {
        JournalError::Fault => OpenError::Fault,
        JournalError::Memory => OpenError::Memory,
        JournalError::NotAVolume => OpenError::NotAVolume,
        JournalError::Halted => OpenError::Memory,
    }
}
