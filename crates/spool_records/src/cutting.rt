//! Octets cut into numbers and names, from the start.

ghost use Rattle.std.specs.Prelude.{◌≡◌, ◌^◌, ◌<◌, ◌∷◌, ◌++◌, ℕ, List, length, MatchOption};
ghost use Rattle.byteorder.specs.Endian.{little_bytes};

use byteorder::{ByteOrder, LittleEndian};

/// The most octets of a group's name in a record, with its length.
pub(crate) const NAME_SIZE: usize = 256;

/// The first octet, and the rest.
pub(crate) fn cut8(octets: &[u8]) -> Option<(u8, &[u8])>
    ensures { MatchOption result (length octets.now < 1) (λ p. octets.now ≡ p.0 ∷ p.1.now) }
{
    if octets.is_empty() {
        return None;
    }
    let (front, rest) = octets.split_at(1);
    Some((front[0], rest))
}

/// The number in the first 4 octets, and the rest.
pub(crate) fn cut32(octets: &[u8]) -> Option<(u32, &[u8])>
    ensures { MatchOption result (length octets.now < 4) (λ p. (p.0 < 2 ^ 32) × (octets.now ≡ little_bytes 4 p.0 ++ p.1.now)) }
{
    if octets.len() < 4 {
        return None;
    }
    let (front, rest) = octets.split_at(4);
    Some((LittleEndian::read_u32(front), rest))
}

/// The number in the first 8 octets, and the rest.
pub(crate) fn cut64(octets: &[u8]) -> Option<(u64, &[u8])>
    ensures { MatchOption result (length octets.now < 8) (λ p. octets.now ≡ little_bytes 8 p.0 ++ p.1.now) }
{
    if octets.len() < 8 {
        return None;
    }
    let (front, rest) = octets.split_at(8);
    Some((LittleEndian::read_u64(front), rest))
}

/// The name at the start, which follows its length, and the rest.
pub(crate) fn cut_name(octets: &[u8]) -> Option<(&[u8], &[u8])>
    ensures { MatchOption result
        ((name rest : List ℕ) → octets.now ≡ length name ∷ name ++ rest → ⊥)
        (λ p. octets.now ≡ length p.0.now ∷ p.0.now ++ p.1.now) }
{
    let (size, rest) = cut8(octets)?;
    if rest.len() < size as usize {
        return None;
    }
    Some(rest.split_at(size as usize))
}
