//! The control socket of a server: a Unix socket at which each connection is a console of the operator (docs/FORMATS.md, "The control
//! socket"). `control_socket` makes it in place of one that nobody answers, and takes it away; `connections` has the threads.
#![tactic(auto)]

mod connections;
mod control_socket;

pub use connections::start;
pub use control_socket::{ControlSocket, NoControl, may_be_put};
