//! The sessions of a server while they last, as the operator sees them and ends them. Each session's thread has a `Place`, in
//! which it notes what it does; any thread may look at it, or shut the caller's socket down.
#![tactic(auto)]

mod chosen;
mod listed;
mod place;

pub use chosen::Chosen;
pub use listed::{ListedSession, SessionState};
pub use place::{Guest, Place};
