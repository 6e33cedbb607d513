//! Whether a change may follow the changes before it, decided by their index. `model/specs/Lawful.antt` has the rule.
#![tactic(auto)]

mod article_admission;
mod group_admission;

pub use article_admission::{id_of, lengths_of, may_file};
pub use group_admission::{find_group, groups_here, may_expire, may_make};
