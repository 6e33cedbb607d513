//! Little-endian numbers in octets: the superblock, the journal, inodes, pointers and records have them. And octets of
//! zeros.
#![tactic(auto)]

ghost use Rattle.std.specs.Prelude.{◌≡◌, ◌≤◌, ◌+◌, length, IfOk};
ghost use Rattle.std.specs.List.{All};
ghost use Rattle.byteorder.specs.Endian.{little_bytes};
ghost use Rattle.disk.specs.Image.{overwritten};
ghost use Rattle.model.specs.Volume.{number_at};

use byteorder::{ByteOrder, LittleEndian};
use std::alloc::{AllocError, Global};

/// The number in the four octets from a place on.
#[tactic(auto, unfolding(model::specs::Volume::number_at))]
pub fn number32(octets: &[u8], at: usize) -> u32
    requires { at + 4 ≤ length octets.now }
    ensures { result ≡ number_at at 4 octets.now }
{
    LittleEndian::read_u32(&octets[at..])
}

/// The number in the eight octets from a place on.
#[tactic(auto, unfolding(model::specs::Volume::number_at))]
pub fn number64(octets: &[u8], at: usize) -> u64
    requires { at + 8 ≤ length octets.now }
    ensures { result ≡ number_at at 8 octets.now }
{
    LittleEndian::read_u64(&octets[at..])
}

/// Puts a number into the eight octets from a place on.
pub fn put64(octets: &mut [u8], at: usize, n: u64)
    requires { at + 8 ≤ length octets.old }
    ensures { octets.new ≡ overwritten at (little_bytes 8 n) octets.old }
{
    let end = at + 8;
    LittleEndian::write_u64(&mut octets[at..end], n);
}

/// Puts a number into the four octets from a place on.
pub fn put32(octets: &mut [u8], at: usize, n: u32)
    requires { at + 4 ≤ length octets.old }
    ensures { octets.new ≡ overwritten at (little_bytes 4 n) octets.old }
{
    let end = at + 4;
    LittleEndian::write_u32(&mut octets[at..end], n);
}

/// This many zeros.
pub fn zeros(alloc: Global, size: usize) -> Result<Vec<u8>, AllocError>
    ensures size { IfOk result (λ octets. length octets.items ≡ size) }
    ensures zero { IfOk result (λ octets. All (λ octet. octet ≡ 0) octets.items) }
{
    vec![in alloc; 0; size]
}
