//! A running server asked at its control socket (docs/FORMATS.md, "The control socket").
#![tactic(auto)]

mod answers;
mod asking;

pub use answers::{Verdict, is_refusal, line_of, read_answer};
pub use asking::{NOT_ANSWERED, NoAnswer, ask};
