//! What the tests of the orders of threads share: a session without its server, whose reply a test holds and releases at chosen
//! points. Both ends of each socket are in one process, and every wait is bounded.
#![tactic(auto)]

mod callers;
mod sides;
mod stages;
mod stops;

pub use callers::{Caller, fill};
pub use sides::Side;
pub use stages::{GREETING, REPLIES, Session, Stage, Store, make_store, moment};
pub use stops::{PAUSE_MILLIS, Point, Stop, StopHooks, pause, wait_for};
