//! A caller on the way to its session's thread.

use std::alloc::Global;
use std::net::TcpStream;
use std::sync::Arc;
use text_networks::Admitted;

/// How the callers of a listener come.
#[derive(Clone, Copy, PartialEq, Eq)]
pub enum Way {
    /// By themselves.
    Direct,
    /// By a proxy, which begins with a line that says for whom it connects.
    Proxied,
}

/// A caller whose session was joined.
#[derive(Drop)]
pub struct Caller {
    pub sid: u64,
    /// Its seat among the guests. It is free once its session's thread is.
    pub seat: usize,
    pub way: Way,
    /// Its address. Of one that comes by a proxy it is the proxy's until the proxy has said for whom it connects.
    pub peer: Admitted,
    pub stream: Arc<TcpStream, Global>,
}
