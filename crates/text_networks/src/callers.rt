//! Who may call a server.

ghost use Rattle.std.specs.Prelude.{◌≡◌, ◌↔◌, IfErr, IfOk, IfNone, IfSome, IsTrue};
ghost use Rattle.std.specs.Net.Socket.{socket_ip};
ghost use Rattle.text_networks.specs.Networks.{AnyHolds, IsAdmitted, IsLoopback, MayCall};
ghost use Rattle.text_networks.specs.Proxies.{IsOfProxy};

use crate::prefixes::Network;
use crate::proxies::Proxied;
use std::net::{IpAddr, SocketAddr};

/// A caller that is let in, by its address and port. Only `admit` makes one.
#[derive(Clone, Copy)]
pub struct Admitted {
    peer: SocketAddr,
}

impl Admitted {
    /// The address and port.
    pub fn peer(&self) -> SocketAddr
        ensures { result ≡ self.now.peer }
    {
        self.peer
    }
}

/// Lets the caller of this address and port in, if it may call these networks' server (`may_call`). `None` if it may not.
pub fn admit(networks: &[Network], peer: SocketAddr) -> Option<Admitted>
    ensures some { IfSome result (IsAdmitted networks.now peer) }
    ensures none { IfNone result (¬ (MayCall networks.now (socket_ip peer))) }
{
    if may_call(networks, peer.ip()) {
        Some(Admitted { peer })
    } else {
        None
    }
}

/// Lets the caller in for whom a proxy connects: the one that the proxy names, or the proxy itself where it names none. If
/// that caller may not call, the answer is its address and port.
pub fn admit_proxied(
    networks: &[Network],
    proxy: Admitted,
    named: Proxied,
) -> Result<Admitted, SocketAddr>
    ensures ok { IfOk result (λ caller. IsOfProxy proxy.peer named caller.peer × MayCall networks.now (socket_ip caller.peer)) }
    ensures err { IfErr result (λ peer. IsOfProxy proxy.peer named peer × (¬ (MayCall networks.now (socket_ip peer)))) }
{
    let peer = named_by(proxy.peer, named);
    match admit(networks, peer) {
        Some(caller) => Ok(caller),
        None => Err(peer),
    }
}

/// The address and port of the caller for whom a proxy connects.
fn named_by(proxy: SocketAddr, named: Proxied) -> SocketAddr
    ensures { IsOfProxy proxy named result }
{
    match named {
        Proxied::From(address, port) => SocketAddr::new(address, port),
        Proxied::Unknown => proxy,
    }
}

/// Whether a caller from an address is let in: from the loopback networks 127.0.0.0/8 and ::1 always, from elsewhere if
/// one of the networks holds the address. An IPv4-mapped address counts as the IPv4 address.
fn may_call(networks: &[Network], address: IpAddr) -> bool
    ensures { IsTrue result ↔ MayCall networks.now address }
{
    is_loopback(address) || any_holds(networks, address)
}

/// Whether an address is in a loopback network, 127.0.0.0/8 or ::1. An IPv4-mapped address counts as the IPv4 address.
pub fn is_loopback(address: IpAddr) -> bool
    ensures { IsTrue result ↔ IsLoopback address }
{
    address.to_canonical().is_loopback()
}

/// Whether one of the networks holds an address.
fn any_holds(networks: &[Network], address: IpAddr) -> bool
    ensures { IsTrue result ↔ AnyHolds networks.now address }
{
    for network in networks {
        if network.contains(address) {
            return true;
        }
    }
    false
}
