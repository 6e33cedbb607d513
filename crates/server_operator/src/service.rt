//! What a line of the operator is carried out with.

use crossbeam_channel::Sender;
use kernel_shared::{Asking, Bells};
use server_copying::CopyJob;
use server_mark::Mark;
use server_releasing::Writers;
use std::alloc::Global;
use std::sync::Wait;
use volume_usage::{Tally, VolumeFacts};

/// What the lines are carried out with: the kernel, the mark that says what is durable, the bells of the server's
/// threads, what is known and counted about the volume, the sessions, and those whose messages are about to be answered.
#[derive(Drop)]
pub struct OperatorService<'a, R, K> {
    pub rt: &'a R,
    pub alloc: Global,
    pub kern: &'a K,
    pub mark: &'a Mark,
    pub bells: &'a Bells,
    pub tally: &'a Tally,
    pub facts: VolumeFacts<'a>,
    pub writers: &'a Writers,
    pub asking: &'a Asking,
    /// Where copies of the volume's blocks are asked for.
    pub copies: &'a Sender<CopyJob>,
}

impl<'a, R: Wait, K> OperatorService<'a, R, K> {
    /// Has the flusher copy blocks. If it has ended, whoever waits for them is told so.
    pub fn copy(&self, job: CopyJob) {
        let _ = self.copies.send(self.rt, job);
        self.bells.flusher.unpark();
    }
}
