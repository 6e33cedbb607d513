//! What the threads of a server share.

use crate::Writers;
use kernel_shared::{Asking, Bells, Closing, Hooks, Kern};
use server_delivering::Limits;
use server_metrics::LongestTime;
use server_outgoing::{Outgoing, Patience};
use std::alloc::Global;
use std::sync::Wait;
use std::time::{Clock, Instant};

/// What each thread knows of the server.
pub struct Shared<'a, R, K, H> {
    pub rt: &'a R,
    pub alloc: Global,
    pub kern: &'a K,
    pub hooks: &'a H,
    pub bells: &'a Bells,
    /// One for each session's thread that was started.
    pub writers: &'a Writers,
    pub closing: &'a Closing,
    pub asking: &'a Asking,
    pub limits: Limits,
    /// The longest that a message waited for its answer.
    pub longest: &'a LongestTime,
}

impl<'a, R, K, H> Drop for Shared<'a, R, K, H> {
    fn drop(self) {
        let Shared {
            rt: _,
            alloc: _,
            kern: _,
            hooks: _,
            bells: _,
            writers: _,
            closing: _,
            asking: _,
            limits: _,
            longest: _,
        } = self;
    }
}

impl<'a, R, K, H> Shared<'a, R, K, H> {
    /// Begins the server's end, and wakes every thread that waits for something that will no longer happen. The
    /// releaser then disconnects the callers, and their threads end.
    pub fn close(&self) {
        self.closing.begin();
        self.bells.later.ring();
        self.bells.releaser.unpark();
        for place in 0..self.writers.len() {
            if let Some(writer) = self.writers.get(place) {
                writer.wake_all();
            }
        }
    }
}

impl<'a, R: Clock, K, H> Shared<'a, R, K, H> {
    /// Notes that a message was answered that was asked at this time. Without a clock nothing is noted.
    pub(crate) fn note_answered(&self, since: Option<Instant>) {
        let Some(since) = since else {
            return;
        };
        if let Ok(took) = since.elapsed(self.rt) {
            self.longest.note(took);
        }
    }
}

impl<'a, R: Wait + Clock, K: Kern, H: Hooks> Shared<'a, R, K, H> {
    /// Writes what was taken of a session, as `Outgoing::write` says.
    pub(crate) fn write(&self, outgoing: &mut Outgoing, patience: Patience) {
        outgoing.write(self.rt, self.kern, self.hooks, self.limits.stall, patience);
    }
}
