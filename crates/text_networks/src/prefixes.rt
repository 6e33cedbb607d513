//! Networks.

ghost use Rattle.std.specs.Prelude.{◌≡◌, ◌≤◌, ◌↔◌, ℕ, IsTrue, IfSome, IfNone};
ghost use Rattle.std.specs.declared.net.ip_addr.IpAddr.{IpAddr};
ghost use Rattle.text_networks.specs.Addresses.{width_of};

use crate::bits::{same_first_bits, width};
use crate::numerals::read_number;
use std::net::IpAddr;

/// How many bits stand before the IPv4 address in an IPv4-mapped address `::ffff:a.b.c.d` (RFC 4291, 2.5.5.2).
const MAPPED_BITS: u32 = 96;

/// A network: the addresses of a family that have the same first bits (RFC 4632, 3.1; RFC 4291, 2.3). The bits after
/// these are ignored.
#[derive(Clone, Copy)]
pub struct Network {
    address: IpAddr,
    length: u32,
    ghost within: { length ≤ width_of address },
}

impl Network {
    ghost use Rattle.text_networks.specs.Networks.{Holds, parts_of, parts_from};
    ghost use Rattle.text_networks.specs.Texts.{IsNetworkText};

    /// The network that a text names: `ADDRESS` alone, or `ADDRESS/LENGTH`, where the length is a decimal number from 0
    /// to 32 or 128, with no sign and no leading zero. `None` for any other text.
    ///
    /// A prefix of an IPv4-mapped address counts as one of the IPv4 address: `::ffff:192.0.2.0/120` is `192.0.2.0/24`.
    /// One that is shorter than 96 bits is a network of IPv6 addresses, and holds no IPv4 address.
    pub fn read(text: &str) -> Option<Network>
        ensures found { IfSome result (λ n. (a : IpAddr) × (bits : ℕ) × IsNetworkText text.now a bits × (parts_of n ≡ parts_from a bits)) }
        ensures none { IfNone result ((a : IpAddr) (bits : ℕ) → ¬ (IsNetworkText text.now a bits)) }
    {
        let octets = text.as_bytes();
        if let Ok(address) = IpAddr::parse_ascii(octets) {
            return Some(Network::of(address, width(&address)));
        }
        let Some(slash) = text.rfind('/') else {
            return None;
        };
        let Ok(address) = IpAddr::parse_ascii(&octets[..slash]) else {
            return None;
        };
        match read_number(&octets[slash + 1..], width(&address)) {
            Some(length) => Some(Network::of(address, length)),
            None => None,
        }
    }

    /// Whether the network holds an address. An IPv4-mapped address counts as the IPv4 address.
    pub fn contains(&self, address: IpAddr) -> bool
        ensures { IsTrue result ↔ Holds self.now address }
    {
        match (self.address, address.to_canonical()) {
            (IpAddr::V4(own), IpAddr::V4(caller)) => {
                same_first_bits(&caller.octets(), &own.octets(), self.length)
            }
            (IpAddr::V6(own), IpAddr::V6(caller)) => {
                same_first_bits(&caller.octets(), &own.octets(), self.length)
            }
            _ => false,
        }
    }

    // The network of the first bits of an address.
    fn of(address: IpAddr, length: u32) -> Network
        requires { length ≤ width_of address }
        ensures { parts_of result ≡ parts_from address length }
    {
        if let IpAddr::V6(mapped) = address
            && length >= MAPPED_BITS
            && let Some(inner) = mapped.to_ipv4_mapped()
        {
            return Network {
                address: IpAddr::V4(inner),
                length: length - MAPPED_BITS,
            };
        }
        Network { address, length }
    }
}
