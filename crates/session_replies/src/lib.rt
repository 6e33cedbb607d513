//! The texts of the replies, how they are written, and the answers made from them. The answers that no accepted change decides
//! (DATE, QUIT, MODE READER, a volume that is full, a service that stops) are made here whole.
#![tactic(auto)]

mod blocks;
mod plain;
mod reply_parts;
mod sessions;
mod stuffing;
mod texts;

pub use blocks::push_block;
pub use plain::{date, ends, full, mode_reader, quit, stopped};
pub use reply_parts::{
    push_end, push_greeting, push_heading, push_line, push_number, push_reply, push_spaced,
    push_stuffed,
};
pub use sessions::{
    Answered, answer, at_number, awaiting, copy, outgoing, says, says_block, says_line, selecting,
};
pub use stuffing::{Stuffing, pieces_make_the_text};
pub use texts::{FixedBlock, Heading, Reply};
