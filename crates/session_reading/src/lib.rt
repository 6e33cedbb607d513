//! The commands on the selected group and on articles (RFC 3977, sections 6 and 8.3). `specs/Answer.antt` of the crate
//! `model` says what each answers, and `specs/Reads.antt` what it reads. Each is refused only for want of memory.
#![tactic(auto)]

mod article_commands;
mod article_parts;
mod group_commands;
mod moves;
mod overviews;
mod ranges;

pub use article_commands::fetch;
pub use group_commands::{group, list_group};
pub use moves::{last, next};
pub use overviews::over;
