//! The calls of a kernel that threads share, with their refusals, and how the threads of a server wake one another.
//! Nothing here knows the kernel: `kernel_locked` makes these calls of a kernel under its lock.
#![tactic(auto)]

mod accepted;
mod arrivals;
mod asking;
mod bells;
mod closing;
mod errors;
mod hands;
mod hooks;
mod kern;
mod receipts;
mod ticket;

pub use accepted::{Admitted, Expired};
pub use arrivals::Arrivals;
pub use asking::Asking;
pub use bells::{Bell, Bells, Ringing};
pub use closing::{Closing, Look};
pub use errors::{AdminError, ExecError, ExpireError, JoinError, Stale};
pub use hands::Hand;
pub use hooks::{Hooks, NoHooks};
pub use kern::{ExecOutcome, Kern, KernelCounts, MOST_SESSIONS, SESSIONS};
pub use receipts::{Halted, Receipt, Told, halt, halt_if_clean, tell};
pub use ticket::Ticket;
