//! How the system comes to rest by itself.

ghost use Rattle.std.specs.Prelude.{◌≡◌, ◌≢◌, ◌⊎◌, ◌↔◌, ◌||◌, Err, IfErr, IsTrue, OnOk, true};
ghost use Rattle.journal.specs.Journal.{IsReady};
ghost use Rattle.kernel_trace.specs.Events.{with_kernel};
ghost use Rattle.world.specs.Draining.{AsksNothing, CarriesOut, CostsToSettle, FinishesBatch, IsHindered, IsSettled, IsStill};
ghost use Rattle.world.specs.Draining.{ReleasesSome, RunsInner, SendsAll, with_progress};
ghost use Rattle.world.specs.Images.{EachNow, Fits};
ghost use Rattle.world.specs.Tied.{IsWorld};
ghost use Rattle.world.specs.World.{kernel_of};

use crate::{Event, StepError, World};
use disk::Disk;
use std::alloc::Global;

impl<D: Disk> World<D> {
    /// Makes all accepted changes durable: the batch in flight is carried to its end, and then one of the blocks that
    /// are dirty. Only events that the system makes by itself happen, so nothing is served meanwhile, and what is
    /// released stays as it is.
    ///
    /// `Fault` (E1) exactly if the device failed in this call. `Halted` (E4) exactly if an earlier fault had halted the
    /// system; then nothing changes. `Memory` (E2) only over a device whose writes or syncs take memory; the call may
    /// be repeated.
    pub fn settle(&mut self, alloc: Global) -> Result<(), StepError>
        ensures inner { RunsInner D.device D.write_grows D.sync_grows self.old result self.new }
        ensures served { self.new.served ≡ with_kernel self.old.served (with_progress (kernel_of self.old) (kernel_of self.new)) }
        ensures ok { OnOk result (IsSettled D.device (kernel_of self.old).halted self.new) }
        ensures still { OnOk result (IsStill D.device self.old self.new) }
        ensures cost { OnOk result (CostsToSettle D.device self.old (D.device self.new.journal.disk)) }
        ensures hindered { IfErr result (IsHindered D.device self.old self.new (IsTrue (D.write_grows || D.sync_grows))) }
        ensures now { EachNow (D.device self.new.journal.disk) (Fits self.new) }
        ensures keeps { IsWorld D.device self.new }
    {
        self.finish_batch(alloc)?;
        let _ = self.step(alloc, &Event::Take);
        self.finish_batch(alloc)
    }

    /// Makes all accepted changes durable, as `settle` does, and hands out all replies. What a session is handed is then
    /// all that it is ever sent for what it asked.
    ///
    /// `Fault` (E1) exactly if the device failed in this call. `Halted` (E4) exactly if an earlier fault had halted the
    /// system; then nothing changes. `Memory` (E2) only over a device whose writes or syncs take memory, or for what is
    /// handed out; the call may be repeated.
    pub fn drain(&mut self, alloc: Global) -> Result<(), StepError>
        ensures inner { RunsInner D.device D.write_grows D.sync_grows self.old result self.new }
        ensures now { EachNow (D.device self.new.journal.disk) (Fits self.new) }
        ensures keeps { IsWorld D.device self.new }
        ensures asked { AsksNothing self.old.served self.new.served }
        ensures ok { OnOk result (IsSettled D.device (kernel_of self.old).halted self.new) }
        ensures all { IsTrue (D.device self.old.journal.disk).tells → OnOk result (SendsAll self.old.served self.new.served) }
        ensures cost { OnOk result (CostsToSettle D.device self.old (D.device self.new.journal.disk)) }
        ensures fault { (result ≡ Err StepError.Fault)
            ↔ ((D.device self.new.journal.disk).failures ≢ (D.device self.old.journal.disk).failures) }
        ensures halted { (result ≡ Err StepError.Halted) ↔ (self.old.journal.halted ≡ true) }
        ensures stays { result ≡ Err StepError.Halted → self.new ≡ self.old }
        ensures memory { result ≡ Err StepError.Memory
            → IsTrue (D.write_grows || D.sync_grows) ⊎ IsSettled D.device (kernel_of self.old).halted self.new }
    {
        self.settle(alloc)?;
        let mut gives = true;
        'releases: while gives {
            gives = self.release_some(alloc)?;
        }
        Ok(())
    }

    /// Makes the device calls of the batch in flight, to its end, and lets the kernel learn of it. Refused as `settle`.
    fn finish_batch(&mut self, alloc: Global) -> Result<(), StepError>
        ensures { FinishesBatch D.device D.write_grows D.sync_grows self.old result self.new }
    {
        self.carry_out(alloc)?;
        let _ = self.step(alloc, &Event::Told);
        Ok(())
    }

    /// Makes the device calls of the batch in flight, to its end. Refused as `settle`.
    fn carry_out(&mut self, alloc: Global) -> Result<(), StepError>
        ensures { CarriesOut D.device D.write_grows D.sync_grows self.old result self.new }
    {
        self.kept();
        'calls: while !self.rests() {
            self.step(alloc, &Event::Dev)?;
        }
        Ok(())
    }

    /// Hands out what is ready, and answers whether that was anything. Refused only for want of memory, with nothing
    /// changed.
    fn release_some(&mut self, alloc: Global) -> Result<bool, StepError>
        ensures { ReleasesSome D.device D.write_grows D.sync_grows self.old result self.new }
    {
        self.step(alloc, &Event::Release)?;
        Ok(!self.ready().is_empty())
    }

    /// Whether no batch is in flight, and no fault has halted the journal.
    fn rests(&self) -> bool
        ensures { IsTrue result ↔ IsReady self.now.journal }
    {
        self.journal.is_idle()
    }
}
