//! What a line of the operator asks for (docs/OPERATING.md), and how the next line is read in bounded memory. A line asks for
//! a change, for an expiry by age, for the server's status or its sessions, for the end of some sessions, or for the server's end.
//! `specs/Changes.antt` says what each line means, `specs/Ages.antt` the lines about ages, and `specs/Lines.antt` what a line is.
#![tactic(auto)]

mod ages;
mod line_changes;
mod line_reader;
mod requests;

pub use ages::AgeRequest;
pub use line_changes::{Change, has_long_name};
pub use line_reader::{ANSWER_END, LINE_OCTETS, Next, next_line};
pub use requests::{Request, request_of};
