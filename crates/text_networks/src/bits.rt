//! The bits of addresses.

ghost use Rattle.std.specs.Prelude.{◌≡◌, ◌≤◌, ◌*◌, ◌↔◌, length, take, IsTrue};
ghost use Rattle.text_networks.specs.Addresses.{width_of, bits_of};

use std::net::IpAddr;

/// How many bits an address has.
pub(crate) fn width(address: &IpAddr) -> u32
    ensures { result ≡ width_of address.now }
{
    match address {
        IpAddr::V4(_) => 32,
        IpAddr::V6(_) => 128,
    }
}

/// Whether the first `count` bits of two addresses of a family are the same.
pub(crate) fn same_first_bits(a: &[u8], b: &[u8], count: u32) -> bool
    requires same_family { length a.now ≡ length b.now }
    requires within { count ≤ 8 * length a.now }
    ensures { IsTrue result ↔ (take count (bits_of a.now) ≡ take count (bits_of b.now)) }
{
    let whole = (count / 8) as usize;
    let left = count % 8;
    a[..whole] == b[..whole] && (left == 0 || a[whole] >> (8 - left) == b[whole] >> (8 - left))
}
