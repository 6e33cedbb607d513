//! When the articles of an address are read, where one address may post a limited number in a minute.
#![tactic(auto)]

mod pace;
mod table;

pub use pace::Pace;
pub use table::Table;
