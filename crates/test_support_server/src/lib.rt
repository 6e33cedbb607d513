//! What the tests of a running server share: a server over a volume in memory, its callers, its operator, and the lines
//! that it writes. Both ends of each socket are in one process, and every wait is bounded.
#![tactic(auto)]

mod callers;
mod kernels;
mod lines;
mod operators;
mod stages;
mod volumes;
mod waits;

pub use callers::{Caller, GREETING, POST, SERVICE_ENDS, listen};
pub use kernels::{Hooked, Hooks};
pub use lines::{Lines, Writer};
pub use operators::Operator;
pub use stages::{Served, Setting, Stage, silent_log};
pub use volumes::{BLOCKS, add_group, new_device, open, open_new};
pub use waits::{TURNS, sleep_until, turn_until};
