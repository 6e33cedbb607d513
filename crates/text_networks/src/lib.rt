//! Networks by address and prefix length, which callers they hold, the seats that callers of one address may have, the
//! endpoints that a server listens on (RFC 4632, 3.1; RFC 4291, 2.3), and for whom a proxy connects.
#![tactic(auto)]

mod bits;
mod callers;
mod endpoints;
mod guests;
mod numerals;
mod prefixes;
mod proxies;

pub use callers::{Admitted, admit, admit_proxied, is_loopback};
pub use endpoints::read_endpoint;
pub use guests::{Guest, Guests, NoSeat, same_home};
pub use prefixes::Network;
pub use proxies::{PROXY_LINE, Proxied, read_proxy_line};
