//! A volume that no server serves: it is opened, changes and texts are added to it, and what was added is made durable.
//! `specs/Adding.antt` says what becomes of a change, `specs/Filing.antt` of a text, `specs/Room.antt` what a volume lacks
//! for one, `specs/Saved.antt` what a crash leaves.
#![tactic(auto)]

mod adding;
mod batch_writing;
mod carrying;
mod missing_room;
mod outcome;
mod store;
mod transfer;

pub use outcome::{CAUSES, FULL_GROUP, Lack, TextOutcome, TextRefusal, words_at};
pub use store::Store;
pub use transfer::file_text;
