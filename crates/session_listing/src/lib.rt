//! The commands that list groups and new articles (RFC 3977, sections 7.3, 7.4 and 7.6). `specs/Answer.antt` of the
//! crate `model` says what each answers, and `specs/Reads.antt` what it reads. Each is refused only for want of memory.
#![tactic(auto)]

mod listed_groups;
mod lists;
mod news;

pub use lists::{list, newgroups};
pub use news::newnews;
