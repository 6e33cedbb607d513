//! The copies that were asked for. One is made at a time, in the order in which they were asked for.

use crate::copy_job::CopyJob;
use crossbeam_channel::Receiver;
use journal_volume::BatchBuf;
use kernel_shared::Kern;
use std::sync::{Mutex, Wait};

/// The copies that the flusher makes.
#[derive(Drop)]
pub struct Copies {
    /// `None` once the flusher has ended.
    desk: Mutex<Option<Desk>>,
}

/// Where copies are asked for, and the one that is under way.
#[derive(Drop)]
struct Desk {
    asked: Receiver<CopyJob>,
    job: Option<CopyJob>,
}

impl Copies {
    /// Those that come from here.
    pub fn new(asked: Receiver<CopyJob>) -> Copies {
        Copies {
            desk: Mutex::new(Some(Desk { asked, job: None })),
        }
    }

    /// A batch is durable, and the kernel was told so: the copy that is under way gets its blocks, and others.
    pub fn after_batch<R: Wait, K: Kern>(&self, rt: &R, kern: &K, batch: &BatchBuf) {
        self.go_on(rt, kern, Some(batch));
    }

    /// No batch is in flight, and none was made since the last call: the copy that is under way, or that was asked for, goes on.
    pub fn between<R: Wait, K: Kern>(&self, rt: &R, kern: &K) {
        self.go_on(rt, kern, None);
    }

    /// No more batch comes: the copies end, and whoever waits for them is told so.
    pub fn end<R: Wait>(&self, rt: &R) {
        let mut desk = self.desk.lock(rt);
        *desk = None;
    }

    fn go_on<R: Wait, K: Kern>(&self, rt: &R, kern: &K, batch: Option<&BatchBuf>) {
        let mut desk = self.desk.lock(rt);
        if let Some(desk) = desk.as_mut() {
            desk.go_on(rt, kern, batch);
        }
    }
}

impl Desk {
    /// Goes on with the copy that is under way. Where one ends, the next one that was asked for begins.
    fn go_on<R: Wait, K: Kern>(&mut self, rt: &R, kern: &K, batch: Option<&BatchBuf>) {
        for _ in rt.forever() {
            if self.job.is_none() {
                // it lacks all blocks yet, so also those of the batch
                self.job = self.asked.try_recv(rt).ok();
            }
            let goes_on = match &mut self.job {
                Some(job) => job.go_on(rt, kern, batch),
                None => return,
            };
            if goes_on {
                return;
            }
            self.job = None;
        }
        unreachable!()
    }
}
