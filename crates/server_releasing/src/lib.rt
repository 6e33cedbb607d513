//! How replies leave the server. Each session's thread has a `ReplyWriter` with the session's socket, and one releaser
//! calls all of them after each commit. docs/ARCHITECTURE.md, "The threads of serve", says which thread wakes which.
#![tactic(auto)]

mod answerable;
mod leaving;
mod releaser;
mod shared;
mod writer;
mod writers;

pub use kernel_shared::Hand;
pub use leaving::{FiledBlock, TakenBack, Untold};
pub use releaser::{release_all, release_committed};
pub use server_delivering::{Limits, give_short_writes};
pub use server_outgoing::{Cut, Delivery};
pub use shared::Shared;
pub use writer::{Released, ReplyWriter, Unanswered};
pub use writers::Writers;
