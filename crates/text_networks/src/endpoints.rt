//! Reads the endpoints that a server listens on.

ghost use Rattle.std.specs.Prelude.{◌≡◌, ◌↔◌, IsTrue, IfSome, IfNone};
ghost use Rattle.std.specs.declared.net.socket_addr.SocketAddr.{SocketAddr};
ghost use Rattle.text_networks.specs.Texts.{HasNoZone, IsEndpointText};

use std::net::SocketAddr;

/// The endpoint that a text names, `ADDRESS:PORT` or `[IPV6]:PORT`, with a port from 1 to 65,535 and without a zone,
/// also without the zone 0 of std's grammar. `None` for any other text.
pub fn read_endpoint(text: &str) -> Option<SocketAddr>
    ensures found { IfSome result (IsEndpointText text.now) }
    ensures none { IfNone result ((endpoint : SocketAddr) → ¬ (IsEndpointText text.now endpoint)) }
{
    let Ok(endpoint) = text.parse::<SocketAddr>() else {
        return None;
    };
    if endpoint.port() != 0 && has_no_zone(text) {
        Some(endpoint)
    } else {
        None
    }
}

/// Whether a text names no zone of this machine, as that of a link-local address may (RFC 4007, 11): it has no `%`.
fn has_no_zone(text: &str) -> bool
    ensures { IsTrue result ↔ HasNoZone text.now }
{
    !text.as_bytes().contains(&b'%')
}
