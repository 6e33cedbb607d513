//! The operator's consoles: the streams with which the server was started, and others. Here are the threads that read the lines,
//! have them carried out by `server_operator`, and write the answers.
#![tactic(auto)]

mod consoles;
mod desk;

pub use consoles::{Console, write_end};
pub use desk::{CONSOLES, Kept, Operator};
