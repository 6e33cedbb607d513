//! What a play shares with its server.

use disk_memory::MemDisk;
use std::alloc::{AllocError, Global};
use std::sync::atomic::{AtomicBool, AtomicU64};
use std::sync::{Arc, Mutex};
use test_support_server::Lines;

/// What the callers of a play do.
#[derive(Clone, Copy, PartialEq, Eq)]
pub(crate) enum Callers {
    /// None comes, and the operator's last lines come at once.
    None,
    /// None comes, and the last lines come once the first were answered.
    Late,
    /// Four post one article after another until the server ends. The last lines come once some are acknowledged.
    Post,
    /// One asks twice. The reply to its first question is held until the server has stopped, so the second is not read.
    Ask,
}

/// What the threads of a play share.
#[derive(Drop)]
pub(crate) struct Props {
    /// The number of articles that were acknowledged to their callers.
    pub(crate) posted: AtomicU64,
    /// The number of posting callers that were greeted.
    pub(crate) greeted: AtomicU64,
    /// The operator's last lines are due.
    pub(crate) is_due: Arc<AtomicBool, Global>,
    /// The number of releases that have begun.
    pub(crate) releases: AtomicU64,
    /// A session's thread is held.
    pub(crate) is_held: AtomicBool,
    /// What the operator was answered.
    pub(crate) answers: Lines,
    /// The device, once the server has ended.
    pub(crate) place: Mutex<Option<MemDisk>>,
}

impl Props {
    pub(crate) fn new(alloc: Global) -> Result<Props, AllocError> {
        Ok(Props {
            posted: AtomicU64::new(0),
            greeted: AtomicU64::new(0),
            is_due: Arc::new(alloc, AtomicBool::new(false))?,
            releases: AtomicU64::new(0),
            is_held: AtomicBool::new(false),
            answers: Lines::new(alloc)?,
            place: Mutex::new(None),
        })
    }
}
