//! The flusher: it takes the dirty blocks, writes them to the device without the lock, and reports what is durable.

ghost use Rattle.std.specs.Prelude.{◌≡◌, ◌++◌, ◌∷◌, ◌+◌, ◌*◌, ◌<◌, [], length, true, false};
ghost use Rattle.std.specs.Prelude.{OnOk, OnErr, IfOk, IfErr, IfSome, IfNone, IsTrue};
ghost use Rattle.journal.specs.Journal.{IsDuring, IsIdle, IsReady, LeavesAdmitted, MayBegin, sizes};
ghost use Rattle.journal.specs.Order.{following};
ghost use Rattle.journal.specs.declared.Next.{Next};
ghost use Rattle.server_flusher.specs.Flush.{Carries, Commits, Failed, HasBegun, HasNotFailed, Turns, begun, has_failed};

use crate::turn_seat::TurnSeat;
use disk::Disk;
use fs_blocks::BLOCK_SIZE;
use journal::{Journal, JournalError, Progress};
use journal_layout::{are_below, are_distinct};
use journal_volume::{BATCH_BLOCKS, BatchBuf};
use kernel_shared::{Bells, Halted, Hooks, Kern, Receipt, Ticket, halt, halt_if_clean, tell};
use server_mark::Mark;
use std::sync::Wait;
use std::thread;
use thiserror::Error;
use volume_usage::{BitmapMarks, Tally};

/// Why a turn of the flusher was refused. Then the kernel is halted, and the mark stopped.
#[derive(Clone, Copy, Debug, Drop, PartialEq, Eq, Error)]
pub enum FlushError {
    /// The device failed in this turn.
    #[error("E1 Fault")]
    Fault,
    /// The device did not fail in this turn: the journal was halted before, or the kernel gave answers that no kernel
    /// gives to its only flusher.
    #[error("E4 Halted")]
    Halted,
}

/// So many blocks are left before the flusher is woken to file them while it waits for more.
const TOGETHER: u64 = 8;

/// What the flusher does for the sessions between its batches.
pub trait Filing {
    /// Has the kernel answer the blocks that sessions have left, and answers how many it answered.
    fn file_left(&self) -> u64;

    /// Whether a batch should wait for the callers whose replies the last one has released.
    fn is_wait_worth(&self) -> bool;

    /// The callers that a batch waited for have come, or it waits for them no longer.
    fn note_round(&self);

    /// A batch is durable, and the kernel was told so: what copies blocks gets these.
    fn copy_batch(&self, batch: &BatchBuf);

    /// There was no batch: what copies blocks goes on.
    fn copy_on(&self);
}

/// What the flusher shares with the threads of the sessions.
#[derive(Clone, Copy)]
struct Shared<'a, K: Kern, H: Hooks> {
    kern: &'a K,
    mark: &'a Mark,
    hooks: &'a H,
}

/// Makes one turn: takes the dirty blocks as a batch and writes them to the device. Once the batch is committed, the
/// kernel learns of it, and then the mark is raised. `None` if nothing was taken. `Fault` (E1) exactly if the device
/// failed in this turn, otherwise `Halted` (E4); a refusal has halted the kernel and stopped the mark.
pub fn flush_turn<R: Wait, D: Disk, K: Kern, H: Hooks>(
    rt: &R,
    journal: &mut Journal<D>,
    kern: &K,
    mark: &Mark,
    seat: &mut TurnSeat,
    batch: &mut BatchBuf,
    hooks: &H,
) -> Result<Option<u64>, FlushError>
    // No batch is in flight, and the seat is that of the mark.
    requires idle { IsIdle journal.old }
    requires seat { seat.old.mark ≡ mark.now }

    // Which number was raised, and what a crash leaves then.
    ensures turn { Turns D.device journal.old journal.new seat.old.raised seat.new.raised batch.new }
    ensures some { IfOk result (λ raised. IfSome raised (λ n. seat.new.raised ≡ seat.old.raised ++ n ∷ [])) }
    ensures none { IfOk result (λ raised. IfNone raised (seat.new.raised ≡ seat.old.raised)) }

    // Whether the mark is stopped, and whether the device failed.
    ensures running { OnOk result (seat.new.stopped ≡ seat.old.stopped) }
    ensures stopped { OnErr result (seat.new.stopped ≡ true) }
    ensures fault { IfErr result (λ error. error ≡ FlushError.Fault → Failed D.device journal.old journal.new) }
    ensures halted { IfErr result (λ error. error ≡ FlushError.Halted → HasNotFailed D.device journal.old journal.new) }
    ensures good { OnOk result (HasNotFailed D.device journal.old journal.new) }

    // What the next turn needs.
    ensures idle { OnOk result (IsIdle journal.new) }
    ensures mark { seat.new.mark ≡ seat.old.mark }
{
    let shared = Shared { kern, mark, hooks };
    match take_and_carry(rt, &shared, journal, seat, batch) {
        Ok(raised) => Ok(raised),
        Err(error) => {
            seat.stop(mark, halt(rt, kern));
            Err(error)
        }
    }
}

// `flush_turn` without its clean-up after a refusal.
fn take_and_carry<R: Wait, D: Disk, K: Kern, H: Hooks>(
    rt: &R,
    shared: &Shared<'_, K, H>,
    journal: &mut Journal<D>,
    seat: &mut TurnSeat,
    batch: &mut BatchBuf,
) -> Result<Option<u64>, FlushError>
    // No batch is in flight, and the seat is that of the mark.
    requires idle { IsIdle journal.old }
    requires seat { seat.old.mark ≡ shared.now.mark.now }

    // Which number was raised, and what a crash leaves then.
    ensures turn { Turns D.device journal.old journal.new seat.old.raised seat.new.raised batch.new }
    ensures some { IfOk result (λ raised. IfSome raised (λ n. seat.new.raised ≡ seat.old.raised ++ n ∷ [])) }
    ensures none { IfOk result (λ raised. IfNone raised (seat.new.raised ≡ seat.old.raised)) }

    // Whether the device failed.
    ensures fault { IfErr result (λ error. error ≡ FlushError.Fault → Failed D.device journal.old journal.new) }
    ensures halted { IfErr result (λ error. error ≡ FlushError.Halted → HasNotFailed D.device journal.old journal.new) }
    ensures good { OnOk result (HasNotFailed D.device journal.old journal.new) }

    // What stays of the seat, and what the next turn needs.
    ensures stopped { seat.new.stopped ≡ seat.old.stopped }
    ensures idle { OnOk result (IsIdle journal.new) }
    ensures mark { seat.new.mark ≡ seat.old.mark }
{
    let Some(ticket) = shared.kern.take_batch(rt, batch) else {
        return Ok(None);
    };
    carry(rt, shared, journal, seat, batch, ticket)?;
    Ok(Some(ticket.last()))
}

// Writes the batch that the kernel handed out with this ticket to the device, and raises the ticket's number.
fn carry<R: Wait, D: Disk, K: Kern, H: Hooks>(
    rt: &R,
    shared: &Shared<'_, K, H>,
    journal: &mut Journal<D>,
    seat: &mut TurnSeat,
    batch: &BatchBuf,
    ticket: Ticket,
) -> Result<(), FlushError>
    // No batch is in flight, and the seat is that of the mark.
    requires idle { IsIdle journal.old }
    requires seat { seat.old.mark ≡ shared.now.mark.now }

    // Whether the number was raised, and what a crash leaves then.
    ensures turn { Carries D.device journal.old journal.new seat.old.raised seat.new.raised batch.now ticket.last }
    ensures raised { OnOk result (seat.new.raised ≡ seat.old.raised ++ ticket.last ∷ []) }

    // Whether the device failed.
    ensures fault { IfErr result (λ error. error ≡ FlushError.Fault → Failed D.device journal.old journal.new) }
    ensures halted { IfErr result (λ error. error ≡ FlushError.Halted → HasNotFailed D.device journal.old journal.new) }
    ensures good { OnOk result (HasNotFailed D.device journal.old journal.new) }

    // What stays of the seat, and what the next turn needs.
    ensures stopped { seat.new.stopped ≡ seat.old.stopped }
    ensures idle { OnOk result (IsIdle journal.new) }
    ensures mark { seat.new.mark ≡ seat.old.mark }
{
    shared.hooks.before_flush();
    let receipt = commit_batch(rt, journal, batch, ticket.last())?;
    let Ok(told) = tell(rt, shared.kern, ticket, receipt) else {
        return Err(FlushError::Halted);
    };
    seat.raise(shared.mark, told);
    shared.hooks.after_flush();
    settle(rt, journal)
}

/// Writes a batch to the device, up to the sync that commits it, and answers the receipt. A call that is refused for memory
/// is made again. `Fault` (E1) exactly if the device failed in this call. `Halted` (E4) if the journal is halted, or the
/// batch is none that a journal can begin: no block, more than `BATCH_BLOCKS`, one twice, one that the device lacks, or other
/// octets than those of its blocks; then nothing has changed.
pub fn commit_batch<R: Wait, D: Disk>(
    rt: &R,
    journal: &mut Journal<D>,
    batch: &BatchBuf,
    last: u64,
) -> Result<Receipt, FlushError>
    requires { IsIdle journal.old }
    ensures receipt { IfOk result (λ receipt. receipt.last ≡ last) }
    ensures ok { OnOk result (Commits D.device (begun journal.old batch.now last) journal.new) }
    ensures begins { OnOk result (MayBegin journal.old batch.now.numbers batch.now.images) }
    ensures fault { IfErr result (λ error. error ≡ FlushError.Fault → Failed D.device journal.old journal.new) }
    ensures halted { IfErr result (λ error. error ≡ FlushError.Halted → journal.new ≡ journal.old) }
{
    if !may_begin(journal, batch) {
        return Err(FlushError::Halted);
    }
    journal.begin(last, batch.numbers(), batch.images());
    commit(rt, journal)?;
    Ok(Receipt::of(journal, last))
}

/// Whether the journal can begin this batch.
fn may_begin<D: Disk>(journal: &Journal<D>, batch: &BatchBuf) -> bool
    ensures { IsTrue result → MayBegin journal.now batch.now.numbers batch.now.images }
{
    let numbers = batch.numbers();
    let count = numbers.len();
    if !journal.is_idle() || count == 0 || count > BATCH_BLOCKS {
        return false;
    }
    batch.images().len() == BLOCK_SIZE * count
        && are_below(numbers, journal.blocks())
        && are_distinct(numbers)
}

/// Makes the device calls of a batch up to the one that commits it. A call that is refused for memory is made again.
fn commit<R: Wait, D: Disk>(rt: &R, journal: &mut Journal<D>) -> Result<(), FlushError>
    requires begun { HasBegun D.device journal.old }
    requires now { LeavesAdmitted D.device journal.old }
    ensures ok { OnOk result (Commits D.device journal.old journal.new) }
    ensures err { IfErr result (λ error. (error ≡ FlushError.Fault) × Failed D.device journal.old journal.new) }
{
    'calls: for _ in rt.forever() {
        match journal.step() {
            Ok(Progress::Committed(_)) => return Ok(()),
            Ok(_) => {}
            Err(JournalError::Memory) => thread::yield_now(),
            Err(_) => return Err(FlushError::Fault),
        }
    }
    unreachable!()
}

/// Makes the device calls after the commit, to the end of the batch.
fn settle<R: Wait, D: Disk>(rt: &R, journal: &mut Journal<D>) -> Result<(), FlushError>
    requires next { journal.old.next ≡ following (length journal.old.numbers) (sizes journal.old) Next.Commit }
    requires running { journal.old.halted ≡ false }
    requires now { LeavesAdmitted D.device journal.old }
    ensures during { IsDuring D.device journal.old journal.new }
    ensures ok { OnOk result (IsReady journal.new) }
    ensures good { OnOk result (HasNotFailed D.device journal.old journal.new) }
    ensures err { IfErr result (λ error. (error ≡ FlushError.Fault) × Failed D.device journal.old journal.new) }
{
    'calls: for _ in rt.forever() {
        if journal.is_idle() {
            return Ok(());
        }
        if has_failed(journal.step()) {
            return Err(FlushError::Fault);
        }
    }
    unreachable!()
}

/// Whether a call failed. One that was refused for memory did not: it is made again, after other threads have had their
/// turn.
fn has_failed(answer: Result<Progress, JournalError>) -> bool
    ensures { result ≡ has_failed answer }
{
    match answer {
        Ok(_) => false,
        Err(JournalError::Memory) => {
            thread::yield_now();
            false
        }
        Err(_) => true,
    }
}

/// The number of changes in the batch that raised the mark to `raised`; 0 for the first batch, as nothing before it is known.
fn batch_len(last: Option<u64>, raised: u64) -> u64 {
    match last {
        Some(last) => raised.saturating_sub(last),
        None => 0,
    }
}

/// What the flusher has.
#[derive(Drop)]
pub struct Flusher<'a, D: Disk> {
    pub journal: Journal<D>,
    pub mark: &'a Mark,
    pub seat: TurnSeat,
    pub batch: BatchBuf,
    /// The marks of used blocks on the device.
    pub marks: BitmapMarks,
    pub tally: &'a Tally,
    ghost idle: { IsIdle journal },
    ghost flushes: { seat.mark ≡ mark.now },
}

/// How the flusher ended.
#[derive(Clone, Copy, Debug, Drop, PartialEq, Eq)]
pub enum FlusherEnd {
    /// It was asked to stop: every accepted change is durable, and the kernel is halted.
    Stopped,
    /// A turn was refused.
    Failed(FlushError),
}

/// The parts of a flusher that change.
#[derive(Drop)]
struct Work<D: Disk> {
    journal: Journal<D>,
    seat: TurnSeat,
    batch: BatchBuf,
    marks: BitmapMarks,
}

/// How the flusher informs others.
#[derive(Clone, Copy)]
struct Around<'a, K: Kern, H: Hooks + Filing> {
    kern: &'a K,
    mark: &'a Mark,
    hooks: &'a H,
    bells: &'a Bells,
    tally: &'a Tally,
}

/// Flushes whenever there is something to flush, until a turn is refused, or until a stop was asked for and every
/// accepted change is durable. Each turn begins with the blocks that sessions have left. After a batch it waits a little
/// for the callers whose replies that batch has released, where that pays.
pub fn flush_all<R: Wait, D: Disk + Drop, K: Kern, H: Hooks + Filing>(
    rt: &R,
    flusher: Flusher<'_, D>,
    kern: &K,
    hooks: &H,
    bells: &Bells,
) -> FlusherEnd {
    let Flusher {
        journal,
        mark,
        seat,
        batch,
        marks,
        tally,
    } = flusher;
    let mut work = Work {
        journal,
        seat,
        batch,
        marks,
    };
    let around = Around {
        kern,
        mark,
        hooks,
        bells,
        tally,
    };
    flush_to_end(rt, &around, &mut work)
}

/// Flushes until the end that `flush_all` describes. `Fault` (E1) exactly if the device failed in the last turn.
fn flush_to_end<R: Wait, D: Disk, K: Kern, H: Hooks + Filing>(
    rt: &R,
    around: &Around<'_, K, H>,
    work: &mut Work<D>,
) -> FlusherEnd
    requires idle { IsIdle work.old.journal }
    requires seat { work.old.seat.mark ≡ around.now.mark.now }
    ensures stopped { work.new.seat.stopped ≡ true }
    ensures in_order { result ≡ FlusherEnd.Stopped → IsIdle work.new.journal × HasNotFailed D.device work.old.journal work.new.journal }
    ensures fault { result ≡ FlusherEnd.Failed FlushError.Fault → Failed D.device work.old.journal work.new.journal }
    ensures halted { result ≡ FlusherEnd.Failed FlushError.Halted → HasNotFailed D.device work.old.journal work.new.journal }
{
    let Around {
        kern,
        mark,
        hooks,
        bells,
        ..
    } = around;
    let mut last = None;
    'turns: for _ in rt.forever() {
        bells.arrivals.begin_turn();
        hooks.file_left();
        match flush_turn(
            rt,
            &mut work.journal,
            *kern,
            *mark,
            &mut work.seat,
            &mut work.batch,
            *hooks,
        ) {
            Ok(Some(raised)) => {
                hooks.copy_batch(&work.batch);
                work.marks = work.marks.after(&work.batch);
                follow(rt, around, work.marks.all(), batch_len(last, raised));
                last = Some(raised);
            }
            Ok(None) => {
                if let Some(halted) = ends(rt, around) {
                    work.seat.stop(*mark, halted);
                    return FlusherEnd::Stopped;
                }
                hooks.copy_on();
                bells.flusher.park(rt);
            }
            Err(error) => return FlusherEnd::Failed(error),
        }
    }
    unreachable!()
}

/// Counts a batch, and waits a little for the callers whose replies it has released, where that pays, unless a stop was
/// asked for.
fn follow<R: Wait, K: Kern, H: Hooks + Filing>(
    rt: &R,
    around: &Around<'_, K, H>,
    used_blocks: u64,
    released: u64,
) {
    let Around {
        hooks,
        bells,
        tally,
        ..
    } = around;
    tally.note_batch(used_blocks);
    hooks.after_batch();
    // for a batch of one change nothing is gained: the next block wakes the flusher anyway
    if released > 1 && !bells.is_stopping() && hooks.is_wait_worth() {
        gather(rt, around, released);
        hooks.note_round();
    }
}

/// Waits until as many blocks came after the last commit as that batch had changes (`Arrivals::gather`), in steps, and
/// files those that were left in each. A step ends with no block awaited, so a thread that told nobody of its block, since
/// a later one was awaited, left it before the filing that follows.
fn gather<R: Wait, K: Kern, H: Hooks + Filing>(rt: &R, around: &Around<'_, K, H>, released: u64) {
    let Around { hooks, bells, .. } = around;
    let mut awaited = 0u64;
    for _ in rt.forever() {
        awaited = awaited.saturating_add(TOGETHER).min(released);
        bells.arrivals.gather(rt, &bells.flusher, awaited);
        let is_last = awaited >= released;
        if hooks.file_left() == 0 && !is_last {
            // no session has left a block: those that come are answered by their own threads
            awaited = released;
            bells.arrivals.gather(rt, &bells.flusher, awaited);
            hooks.file_left();
        }
        if awaited >= released || bells.is_stopping() {
            return;
        }
    }
    unreachable!()
}

/// Halts the kernel if a stop was asked for and every accepted change is durable: then the flusher ends.
fn ends<R: Wait, K: Kern, H: Hooks + Filing>(rt: &R, around: &Around<'_, K, H>) -> Option<Halted> {
    let Around { kern, bells, .. } = around;
    if !bells.is_stopping() {
        return None;
    }
    let halted = halt_if_clean(rt, *kern)?;
    bells.note_stop();
    Some(halted)
}
