//! What the service manager is told of a server: a datagram to the Unix socket that it names, as sd_notify(3) describes it. `std` has no
//! datagrams of Unix sockets, so this crate calls the C library.
#![tactic(auto)]

ghost use Rattle.std.specs.Prelude.{◌≡◌, ◌≤◌, ◌<◌, ◌+◌, ◌⊎◌, [], IfSome, IfNone, length, take};
ghost use Rattle.server_notify.specs.Address.{address_of};

use libc::net::{AF_UNIX, MSG_NOSIGNAL, SOCK_CLOEXEC, SOCK_DGRAM, SOCK_NONBLOCK, sendto, socket};

/// The octets of an address that the C library reads at most.
const ADDRESS_OCTETS: usize = 128;

/// The octets of the family, in front of the name.
const FAMILY_OCTETS: usize = 2;

/// The most octets of a name: `sun_path` of unix(7) has room for them.
const NAME_OCTETS: usize = 108;

/// What a service manager is told.
#[derive(Clone, Copy)]
pub enum Notice {
    /// The server listens.
    Ready,
    /// The server begins to end.
    Stopping,
}

/// Where a service manager listens.
#[derive(Clone, Copy)]
pub struct Manager {
    address: [u8; 128],
    /// So many octets of the address count.
    octets: usize,
    ghost fits: { octets ≤ 110 },
}

impl Manager {
    /// The one with a socket of this name: a path, or `@` and a name of the abstract namespace. `None` if the name is empty, or too long
    /// for an address.
    pub fn at(name: &[u8]) -> Option<Manager>
        ensures some { IfSome result (λ manager. take manager.octets manager.address ≡ address_of name.now) }
        ensures none { IfNone result ((name.now ≡ []) ⊎ (108 < length name.now)) }
    {
        if name.len() > NAME_OCTETS {
            return None;
        }
        let (first, more) = name.split_first()?;
        let mut address = [0u8; ADDRESS_OCTETS];
        address[0] = AF_UNIX as u8;
        address[FAMILY_OCTETS] = if *first == b'@' { 0 } else { *first };
        let octets = FAMILY_OCTETS + name.len();
        address[FAMILY_OCTETS + 1..octets].copy_from_slice(more);
        Some(Manager { address, octets })
    }

    /// Sends a notice. It waits for nothing. Answers whether the notice was sent: nobody may listen there.
    pub fn tell(&self, notice: Notice) -> bool {
        let text = match notice {
            Notice::Ready => b"READY=1".as_slice(),
            Notice::Stopping => b"STOPPING=1".as_slice(),
        };
        // SAFETY: the family, the kind and the protocol are those that the contract of `socket` names
        let descriptor = unsafe { socket(AF_UNIX, SOCK_DGRAM | SOCK_CLOEXEC | SOCK_NONBLOCK, 0) };
        if descriptor < 0 {
            return false;
        }
        // SAFETY: the address has room for the octets that count
        let sent = unsafe {
            sendto(
                descriptor,
                text,
                MSG_NOSIGNAL,
                &self.address,
                self.octets as u32,
            )
        };
        let _ = libc::close(descriptor);
        sent >= 0
    }
}
