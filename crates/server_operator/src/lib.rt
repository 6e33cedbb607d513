//! What the operator's lines do: they make a group, expire articles by number or by age, tell the status or the sessions, end
//! sessions or stop the server. A change is answered with its serial once it is durable. The crate `server_operator_lines` says
//! what a line asks for, and the crate `server_consoles` has the threads that read the lines and write the answers.
#![tactic(auto)]

mod ages;
mod carrying_out;
mod change_calls;
mod durable;
mod line_answer;
mod replies;
mod service;
mod sessions;
mod status;
mod treated;

pub use carrying_out::answer;
pub use line_answer::{Answer, Refused, Told, write_answer};
pub use replies::{Reply, hand_on};
pub use service::OperatorService;
pub use sessions::Listing;
pub use status::Status;
