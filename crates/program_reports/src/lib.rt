//! What the program prints of a volume in a file: its spool, its articles, its state.
#![tactic(auto)]

mod dumping;
mod telling;
mod written_batches;

pub use dumping::dump;
pub use telling::status;
pub use written_batches::export;
