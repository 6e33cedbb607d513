//! Where a play holds a session's thread.

use crate::props::{Callers, Props};
use kernel_shared::Hooks;
use std::sync::Wait;
use std::sync::atomic::Ordering;
use std::time::Clock;

/// Hooks that hold a caller's first reply until the operator was told that the server has stopped, if the play is about
/// that.
pub(crate) struct Holding<'a, R> {
    pub(crate) rt: &'a R,
    pub(crate) props: &'a Props,
    pub(crate) callers: Callers,
}

impl<'a, R> Drop for Holding<'a, R> {
    fn drop(self) {
        let Holding {
            rt: _,
            props: _,
            callers: _,
        } = self;
    }
}

impl<'a, R: Wait + Clock> Hooks for Holding<'a, R> {
    fn before_flush(&self) {}

    fn after_flush(&self) {}

    fn before_release(&self, _sid: u64) {
        let before = self.props.releases.fetch_add(1, Ordering::SeqCst);
        // the first release is the greeting
        if self.callers == Callers::Ask && before == 1 {
            self.props.is_held.store(true, Ordering::SeqCst);
            self.props.answers.have(self.rt, "stopped");
        }
    }

    fn after_release(&self, _sid: u64) {}
}
