//! A spool in files over a volume in memory, for tests: its calls and their answers as data. Each call checks its own
//! preconditions, and has no contract.
#![tactic(auto)]

mod calls;
mod changes;
mod changing;
mod finding;
mod sent;
mod stored;

pub use calls::{Answer, Call, make};
pub use changes::Wanted;
pub use changing::Filed;
pub use finding::{Asked, Sought, find, text_of};
pub use sent::Sent;
pub use stored::{Octet, Stored};
