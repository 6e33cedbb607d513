//! The places of sessions that hold a large reply: how many there are, who has one, and who waits for one.
#![tactic(auto)]

mod needs;
mod places;
mod table;

pub use needs::needs_place;
pub use places::Places;
pub use table::{Held, NoPlace, Table};
