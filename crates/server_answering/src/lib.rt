//! The sessions' threads: each reads the octets of one caller after another, and has each whole message answered. They call
//! the kernel only under its lock, and read and write sockets without it.
#![tactic(auto)]

mod answering;
mod caller_reading;
mod counts;
mod http;
mod leaving;
mod pacing;

pub use answering::SessionThread;
