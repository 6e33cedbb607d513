//! What the program prints: a spool, what is released, a refusal, and why it ends before its input does, with its
//! status.
#![tactic(auto)]

mod accepted;
mod errors;
mod failure;
mod released;

pub use accepted::print_spool;
pub use errors::CommandError;
pub use failure::Failure;
pub use released::{print_refusal, print_released};

/// The status of a run that succeeded.
pub const DONE: u8 = 0;

/// The status of a refusal.
pub const REFUSED: u8 = 1;

/// The status if words or an event were not understood.
pub const NOT_UNDERSTOOD: u8 = 2;
