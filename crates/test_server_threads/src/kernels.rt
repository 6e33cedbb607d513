//! A kernel that watches the mark at each commit, and that can be made to end the server.

ghost use Rattle.std.specs.Prelude.{◌≡◌};

use crate::hooks::Flags;
use server_mark::{Mark, Seat};
use std::sync::atomic::Ordering;
use std::sync::{Mutex, Wait};
use test_support_server::Hooks;

/// A mark with a seat of its own.
#[derive(Drop)]
pub(crate) struct Watch<'a> {
    mark: &'a Mark,
    seat: Seat,
    ghost own: { seat.mark ≡ mark.now },
}

impl<'a> Watch<'a> {
    pub(crate) fn new(mark: &'a Mark, seat: Seat) -> Watch<'a>
        requires { seat.mark ≡ mark.now }
    {
        Watch { mark, seat }
    }

    /// How many changes its seat sees as durable.
    pub(crate) fn durable(&mut self) -> u64 {
        self.mark.durable(&mut self.seat)
    }
}

/// The hooks of a kernel that learns of no commit that a seat already shows, and of none once the server is to end.
#[derive(Drop)]
pub(crate) struct Watching<'a> {
    watch: Mutex<Watch<'a>>,
    flags: &'a Flags,
}

impl<'a> Watching<'a> {
    pub(crate) fn new(watch: Watch<'a>, flags: &'a Flags) -> Watching<'a> {
        Watching {
            watch: Mutex::new(watch),
            flags,
        }
    }
}

impl<'a> Hooks for Watching<'a> {
    fn lets_commit<R: Wait>(&self, rt: &R, last: u64) -> bool {
        let durable = self.watch.lock(rt).durable();
        if durable >= last {
            self.flags.failed.store(true, Ordering::SeqCst);
            return false;
        }
        !self.flags.over.load(Ordering::SeqCst)
    }
}
