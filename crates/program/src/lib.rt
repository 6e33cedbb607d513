//! The program `newsd` over a reader and two writers: what each of its commands does.
#![tactic(auto)]

mod operating;
mod running;
mod version;

pub use program_command_line::{Question, Renewal, ServeOptions};
pub use program_printing::Failure;
pub use program_server::Streams;
pub use running::{AfterRun, ask, fail, import, renew, run, serve};
