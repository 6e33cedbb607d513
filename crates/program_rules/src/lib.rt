//! Rules that say how long articles stay in their groups, read from a text (docs/FORMATS.md), and what they take out of a group.
//! `specs/Rules.antt` says what each line of the text means, and `specs/Ruled.antt` what goes by the rules.
#![tactic(auto)]

mod reading;
mod ruled;

pub use reading::{Rule, RulesError, read_rules};
pub use ruled::ruled_group;
