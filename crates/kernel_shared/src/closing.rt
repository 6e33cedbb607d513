//! Whether the server's end has begun.

use std::sync::atomic::{AtomicBool, Ordering};

/// Whether the server's end has begun. It begins once no more callers are accepted and nothing more is flushed.
#[derive(Drop)]
pub struct Closing {
    has_begun: AtomicBool,
}

impl Closing {
    /// The server's end has not begun.
    pub fn new() -> Closing {
        Closing {
            has_begun: AtomicBool::new(false),
        }
    }

    /// Whether the server's end has begun.
    pub fn has_begun(&self) -> bool {
        self.has_begun.load(Ordering::SeqCst)
    }

    /// A look at that, for a pass that releases what is ready.
    pub fn look(&self) -> Look {
        Look {
            has_begun: self.has_begun(),
        }
    }

    /// Begins the server's end.
    pub fn begin(&self) {
        self.has_begun.store(true, Ordering::SeqCst);
    }
}

/// What a thread saw of the server's end before a pass that releases what is ready. Nothing becomes ready once the end has
/// begun, so a pass that begins after that is the last one.
pub struct Look {
    has_begun: bool,
}

impl Look {
    /// Whether the pass that was made after this look is the last one.
    pub fn was_last(self) -> bool {
        let Look { has_begun } = self;
        has_begun
    }
}
