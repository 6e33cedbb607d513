//! Posts and transfers that were taken, and that the log doesn't tell of before they are durable.

ghost use Rattle.std.specs.Prelude.{◌≡◌, ◌≤◌, IfSome};

use crate::{LogEntry, LogEvent, TakenPost};
use model::Moment;
use std::alloc::Global;
use std::collections::VecDeque;
use std::sync::atomic::{AtomicBool, AtomicU64, Ordering};

/// The most of them at a time. Those beyond count as lost lines.
const POSTS: usize = 4_096;

/// A post or a transfer that was taken at this moment.
#[derive(Drop)]
pub(crate) struct WaitingPost {
    pub(crate) moment: Moment,
    pub(crate) post: TakenPost,
}

impl WaitingPost {
    pub(crate) fn into_entry(self) -> LogEntry {
        LogEntry {
            moment: self.moment,
            event: LogEvent::Post(self.post),
        }
    }
}

/// Those that wait, in the order in which they came.
#[derive(Drop)]
pub(crate) struct Waiting {
    posts: VecDeque<WaitingPost>,
}

impl Waiting {
    /// None waits.
    pub(crate) fn new(alloc: Global) -> Waiting {
        Waiting {
            posts: VecDeque::new(alloc),
        }
    }

    pub(crate) fn is_empty(&self) -> bool {
        self.posts.is_empty()
    }

    /// Has one more wait. Answers false, and forgets it, if there is no room.
    pub(crate) fn push(&mut self, post: WaitingPost) -> bool {
        self.posts.len() < POSTS && self.posts.push_back(post).is_ok()
    }

    /// Takes the first one, if so many changes are durable that it is.
    pub(crate) fn take(&mut self, durable: u64) -> Option<WaitingPost>
        ensures { IfSome result (λ waiting. waiting.post.serial ≤ durable) }
    {
        let waiting = self.posts.pop_front()?;
        if waiting.post.serial <= durable {
            return Some(waiting);
        }
        // its place was free a moment ago
        let _ = self.posts.push_front(waiting);
        None
    }

    /// Takes the first one whose change is among so many durable ones, and forgets those before it.
    pub(crate) fn take_any(&mut self, durable: u64) -> Option<WaitingPost>
        ensures { IfSome result (λ waiting. waiting.post.serial ≤ durable) }
    {
        for _ in 0..self.posts.len() {
            let waiting = self.posts.pop_front()?;
            if waiting.post.serial <= durable {
                return Some(waiting);
            }
        }
        None
    }
}

/// How many changes are durable, and what the thread that writes knows of that.
#[derive(Drop)]
pub(crate) struct Durable {
    changes: AtomicU64,
    /// It is to be woken once more are.
    is_awaited: AtomicBool,
    /// It was woken, and has not looked since.
    is_woken: AtomicBool,
}

impl Durable {
    /// No change is known to be durable.
    pub(crate) fn new() -> Durable {
        Durable {
            changes: AtomicU64::new(0),
            is_awaited: AtomicBool::new(false),
            is_woken: AtomicBool::new(false),
        }
    }

    /// How many changes are durable.
    pub(crate) fn changes(&self) -> u64 {
        self.changes.load(Ordering::SeqCst)
    }

    /// Notes that so many changes are durable. Answers whether the thread that writes is to be woken for that.
    pub(crate) fn note(&self, changes: u64) -> bool {
        self.changes.store(changes, Ordering::SeqCst);
        self.is_awaited.swap(false, Ordering::SeqCst)
    }

    /// Notes that the thread that writes waits for more. Answers whether that was known already: otherwise more may have become
    /// durable since it looked.
    pub(crate) fn is_awaited_already(&self) -> bool {
        self.is_awaited.swap(true, Ordering::SeqCst)
    }

    /// Has the thread that writes be woken once more changes are durable. Answers whether this one is among those that are, for which
    /// nobody wakes it then.
    pub(crate) fn await_more(&self, serial: u64) -> bool {
        self.is_awaited.store(true, Ordering::SeqCst);
        serial <= self.changes()
    }

    /// Notes that the thread that writes is woken. Answers whether it was, and has not looked since.
    pub(crate) fn is_woken_already(&self) -> bool {
        self.is_woken.swap(true, Ordering::SeqCst)
    }

    /// Notes that the thread that writes is going to look.
    pub(crate) fn note_looking(&self) {
        self.is_woken.store(false, Ordering::SeqCst);
    }
}
