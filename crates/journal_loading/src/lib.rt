//! Loads the logical blocks of a journal into memory.
#![tactic(auto)]

mod errors;
mod loading;

pub use errors::LoadError;
pub use loading::open;
