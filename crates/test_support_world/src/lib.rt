//! The whole system over a device in memory, as text in and text out, for tests, and a script of eight batches for it. It
//! has no contracts, so that the proof of a caller carries no fact about the system.
#![tactic(auto)]

mod copying;
mod errors;
mod events;
mod script;
mod sealed;

pub use disk::DiskCall;
pub use disk_memory::Pick;
pub use errors::SimError;
pub use events::Row;
pub use script::{
    Calls, Part, batches, claims_all, claims_committed, claims_no_more, play, settling, shows,
    with_open_segments,
};
pub use sealed::{Device, NotOpened, Sim};
pub use world::OpenError;
