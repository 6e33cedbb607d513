//! Renews a volume: copies its changes into a new one, in which of each article that is gone only the husk is left.
//! `specs/Renewed.antt` of the crate `model_renewed` says what is left of each change, and `specs/Renewing.antt` here what a
//! crash during the copy leaves.
#![tactic(auto)]

mod change_copying;
mod errors;
mod left;

pub use change_copying::{RenewalCounts, Watcher, renew};
pub use errors::{RenewalError, Shortage, shortage_for};
