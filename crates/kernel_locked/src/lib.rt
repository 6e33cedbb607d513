//! A kernel under its lock, as threads share it.
#![tactic(auto)]

mod few;
mod locked;
mod turns;

pub use locked::Locked;
