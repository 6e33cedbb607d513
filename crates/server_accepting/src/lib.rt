//! How callers come and go: acceptors let them in and join their sessions, or tell them why not; a proxy's line says for
//! whom it connects; when a session is over, its socket is read to its end. All of it consists of calls to sockets and to
//! the shared kernel, so it is only tested.
#![tactic(auto)]

mod acceptor;
mod call;
mod lingering;
mod proxied;

pub use acceptor::{Acceptor, Crew, Doors};
pub use call::{Caller, Way};
pub use lingering::{FAREWELLS, Parting, linger_all, part, see_off};
pub use proxied::identify;
