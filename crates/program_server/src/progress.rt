//! What the log says while a volume is opened.

ghost use Rattle.std.specs.Prelude.{IfOk};
ghost use Rattle.journal.specs.Journal.{IsReady};

use crossbeam_channel::{Receiver, RecvTimeoutError, bounded};
use disk_file::Counts;
use kernel::{OpenError, Opened, Refused};
use program_files::{VolumeDisk, VolumeFile, block_octets, find, refusal_of};
use program_printing::CommandError;
use server_logging::{Log, LogEvent, OpeningStep};
use std::alloc::Global;
use std::fs::File;
use std::rt::Files;
use std::sync::Wait;
use std::sync::atomic::Ordering;
use std::thread::{self, Threads};
use std::time::{Clock, Duration, Instant};

/// The seconds from the start of an opening to the first line that says how far it is, and from each such line to the
/// next one.
const TELLING_SECS: u64 = 2;

/// An opening that is told of.
#[derive(Clone, Copy)]
struct Told<'a> {
    log: &'a Log,
    counts: &'a Counts,
    /// The octets that the opening reads, at least.
    octets: u64,
}

/// Opens the volume in a file, and counts what is asked of its device. While that lasts, a thread of its own notes every
/// two seconds how far the opening is. It ends with the opening. If no thread can be started, the volume is opened
/// without these lines.
pub(crate) fn open_told<R: Files<File = File> + Threads + Wait + Clock + Sync>(
    rt: &R,
    alloc: Global,
    file: VolumeFile<'_>,
    log: &Log,
) -> Result<Opened<VolumeDisk>, CommandError>
    ensures { IfOk result (λ opened. IsReady opened.journal) }
{
    let disk = find(rt, alloc, file.path)?;
    let (under_way, ended) = bounded::<(), Global>(alloc, 1)?;
    let told = Told {
        log,
        counts: file.counts,
        octets: block_octets(&disk),
    };
    let (device, sessions) = (file.collecting(alloc, disk)?, file.sessions);
    let ((), opened) = thread::join(
        rt,
        || tell(rt, told, &ended),
        move || -> Result<Opened<VolumeDisk>, Refused<VolumeDisk>>
            ensures { IfOk result (λ opened. IsReady opened.journal) }
        {
            let opened = kernel::open(alloc, device, sessions);
            drop(under_way);
            opened
        },
    );
    match opened {
        Ok(opened) => Ok(opened),
        Err(refused) => {
            let Refused { disk, error } = refused;
            // so that the file is no longer locked
            drop(disk);
            Err(look_told(rt, alloc, file, error, told))
        }
    }
}

/// Looks why the volume in a file can't be opened, which reads it once more. While that lasts, the log is told how far it is, as
/// it is of an opening.
fn look_told<R: Files<File = File> + Threads + Wait + Clock + Sync>(
    rt: &R,
    alloc: Global,
    file: VolumeFile<'_>,
    error: OpenError,
    told: Told<'_>,
) -> CommandError {
    let Ok((under_way, ended)) = bounded::<(), Global>(alloc, 1) else {
        return refusal_of(rt, alloc, file, error);
    };
    let ((), refusal) = thread::join(
        rt,
        || tell(rt, told, &ended),
        move || {
            let refusal = refusal_of(rt, alloc, file, error);
            drop(under_way);
            refusal
        },
    );
    refusal
}

/// Notes every two seconds how far an opening is, until it has ended, which disconnects this channel. Without a clock it
/// notes nothing.
fn tell<R: Wait + Clock>(rt: &R, told: Told<'_>, ended: &Receiver<()>) {
    for _ in rt.forever() {
        let waited = ended.recv_timeout(rt, Duration::from_secs(TELLING_SECS));
        if waited != Err(RecvTimeoutError::Timeout) || Instant::now(rt).is_err() {
            break;
        }
        let read = told.counts.octets_read.load(Ordering::SeqCst);
        let step = OpeningStep::after(read, told.octets);
        told.log.note(rt, LogEvent::Opening(step));
    }
}
