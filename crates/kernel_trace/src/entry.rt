//! The entries of the trace.

use model::{Change, Mark, Moment};
use std::marker::Model;

/// What happened, as an entry of the trace records it.
#[derive(Drop)]
pub enum Happened {
    /// A session's message was served: the session, the moment, and the mark.
    Command(u64, Moment, Mark),
    /// The operator made a change.
    Admin(Change),
}

/// An entry of the trace.
#[derive(Drop)]
pub struct Entry {
    happened: Happened,
}

impl Model for Entry {
    ghost use Rattle.model.specs.declared.change.Change.{Change};
    ghost use Rattle.model.specs.declared.message.Mark.{Mark};
    ghost use Rattle.synchrony.specs.Server.{Entry as TraceEntry};

    ghost Value = { TraceEntry Change Mark };

    ghost use Rattle.kernel_trace.specs.Fields.{entry_of};

    ghost view = { λ e. entry_of e.happened };
}

impl Entry {
    ghost use Rattle.kernel_trace.specs.Fields.{entry_of};
    ghost use Rattle.std.specs.Prelude.{◌≡◌};

    /// The entry that records this.
    pub fn new(happened: Happened) -> Entry
        ensures { result ≡ entry_of happened }
    {
        Entry { happened }
    }

    /// What the entry records.
    pub fn happened(&self) -> &Happened
        ensures { entry_of result.now ≡ self.now }
    {
        &self.happened
    }
}
