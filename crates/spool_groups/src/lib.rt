//! The groups of the index of a spool: each with its articles by number, and found by its name. Articles are filed in
//! them, expiries remove articles from them, and those in the groups that a wildmat matches are marked.
#![tactic(auto)]

mod group;
mod group_filing;
mod keys;
mod marking;
mod views;

pub use group::Group;
pub use group_filing::{expire_one, place_of, push_lines, reserve_lines};
pub use keys::Keys;
pub use marking::{mark_groups, matching_from};
