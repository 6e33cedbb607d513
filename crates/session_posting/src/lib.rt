//! POST and IHAVE (RFC 3977, section 6.3): the commands, and the articles that follow them. `specs/Answer.antt` of the
//! crate `model` says what each answers, and `specs/Reads.antt` what it reads. Each is refused only for want of memory.
#![tactic(auto)]

mod accepted;
mod filed_groups;
mod offers;
mod posts;
mod refusals;

pub use accepted::{Accepted, Stored};
pub use offers::{ihave, post};
pub use posts::{Step, ihave_block, post_block};
pub use refusals::Refusal;
