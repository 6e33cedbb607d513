//! Writes the articles that are in a spool's groups as a batch for `rnews`.
#![tactic(auto)]

mod exported_batches;
mod serials;

pub use exported_batches::{LineEnds, entry_of, export};
pub use serials::{all_serials, serials_of};
