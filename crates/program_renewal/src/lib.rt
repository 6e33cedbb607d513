//! Renews a volume in a file: copies its changes into a new volume, in which of each article that is gone only the husk is
//! left. The new volume is made beside its place, and put there at the end.
#![tactic(auto)]

mod progress;
mod refusal;
mod renewal;
mod renewal_copy;
mod report;
mod target;

pub use refusal::Refusal;
pub use renewal::{Order, renew};
pub use report::{Amount, Report, Usage, json_text};
