//! A caller whose address had many articles read waits before its next one is read.

use crate::answering::SessionThread;
use kernel_shared::{Hooks, Kern};
use model::Mode;
use std::net::IpAddr;
use std::sync::Wait;
use std::time::{Clock, Instant};

impl<'a, 'b, R: Wait + Clock, K: Kern, H: Hooks> SessionThread<'a, 'b, R, K, H> {
    /// Before an article is read, waits until one more of this address may be. What was taken for the caller is sent first. Nothing is
    /// refused: the caller's octets stay in its socket meanwhile.
    pub(crate) fn keep_pace(&mut self, mode: Mode, caller: IpAddr) {
        let (Mode::Block, Some(pace)) = (mode, self.pace) else {
            return;
        };
        if let Some(due) = pace.reserve(self.shared.rt, caller) {
            self.writer.send(self.shared, &mut self.hand);
            self.wait_until(due);
        }
    }

    /// Waits until this moment, or until nothing more is read from the caller.
    fn wait_until(&mut self, due: Instant) {
        let rt = self.shared.rt;
        for _ in rt.forever() {
            if self.is_ending() || self.writer.is_over(rt, &mut self.hand) {
                return;
            }
            let Ok(now) = Instant::now(rt) else {
                return;
            };
            let left = due.duration_since(now);
            if left.is_zero() {
                return;
            }
            self.writer.wait_at_most(rt, &mut self.hand, left);
        }
    }
}
