//! The bits of octets, the lowest of each octet first.

ghost use Rattle.std.specs.Prelude.{◌≡◌, ℕ, ◌-◌, ◌*◌, ◌/◌, ◌%◌, ◌^◌, ◌==◌, ◌<◌, ◌≤◌, length, true, false, count_by, not, MatchOption};
ghost use Rattle.std.specs.List.{All, range_with_len};
ghost use Rattle.fs_layout.specs.Bits.{bit_of, SetsBit, IsFront};
ghost use Rattle.fs_layout.specs.Marks.{IsLowestClear};

/// Whether a bit is set.
pub fn is_set(octets: &[u8], bit: usize) -> bool
    requires { bit / 8 < length octets.now }
    ensures { result ≡ bit_of octets.now bit }
{
    (octets[bit / 8] >> (bit % 8)) & 1 == 1
}

/// Sets a bit.
pub fn set(octets: &mut [u8], bit: usize)
    requires { bit / 8 < length octets.old }
    ensures { SetsBit bit true octets.old octets.new }
{
    octets[bit / 8] |= 1 << (bit % 8);
}

/// Sets the first `count` bits of octets in which no bit is set.
pub fn set_front(octets: &mut [u8], count: usize)
    requires room { count ≤ 8 * length octets.old }
    requires clear { All (λ octet. octet ≡ 0) octets.old }
    ensures { IsFront count octets.new }
{
    for bit in 0..count {
        set(octets, bit);
    }
}

/// The number of clear bits among the first `count`.
pub fn count_clear(octets: &[u8], count: usize) -> u32
    requires room { count ≤ 8 * length octets.now }
    requires few { count ≤ 65536 }
    ensures clear { result ≡ count_by (λ bit. not (bit_of octets.now bit)) (range_with_len 0 count) }
    ensures few { result ≤ count }
{
    let whole = count / 8;
    let mut clear = 0;
    for place in 0..whole {
        clear += clear_bits(octets[place]);
    }
    clear + clear_between(octets, 8 * whole, count)
}

/// The number of clear bits in an octet.
fn clear_bits(octet: u8) -> u32
    ensures clear { result ≡ count_by (λ bit. not (octet / 2 ^ bit % 2 == 1)) (range_with_len 0 8) }
    ensures few { result ≤ 8 }
{
    u8::BITS - octet.count_ones()
}

/// The number of clear bits from one place up to another.
fn clear_between(octets: &[u8], from: usize, to: usize) -> u32
    requires order { from ≤ to }
    requires room { to ≤ 8 * length octets.now }
    requires few { to ≤ 65536 }
    ensures clear { result ≡ count_by (λ bit. not (bit_of octets.now bit)) (range_with_len from (to - from)) }
    ensures few { result ≤ to - from }
{
    let mut clear = 0;
    for bit in from..to {
        if !is_set(octets, bit) {
            clear += 1;
        }
    }
    clear
}

/// Octets that a search skips in one step if all their bits are set.
const FULL: [u8; 64] = [u8::MAX; 64];

/// The octet that a search reaches in steps of this size. Each bit of the octets before `from` is set.
fn full_front(octets: &[u8], from: usize) -> usize
    requires few { length octets.now ≤ 4096 }
    requires within { from ≤ length octets.now }
    requires set { (b : ℕ) → b < 8 * from → bit_of octets.now b ≡ true }
    ensures room { result ≤ length octets.now }
    ensures set { (b : ℕ) → b < 8 * result → bit_of octets.now b ≡ true }
{
    let steps = (octets.len() - from) / FULL.len();
    for step in 0..steps {
        let start = from + step * FULL.len();
        let is_full = octets[start..start + FULL.len()] == FULL[..];
        if !is_full {
            return start;
        }
    }
    from + steps * FULL.len()
}

// The lowest clear bit among the first `count`. Each bit below `from` must be set.
pub(crate) fn lowest_clear(octets: &[u8], from: usize, count: usize) -> Option<usize>
    requires room { count ≤ 8 * length octets.now }
    requires few { length octets.now ≤ 4096 }
    requires within { from ≤ count }
    requires set { (b : ℕ) → b < from → bit_of octets.now b ≡ true }
    ensures { MatchOption result
        ((b : ℕ) → b < count → bit_of octets.now b ≡ true)
        (IsLowestClear octets.now count) }
{
    for place in full_front(octets, from / 8)..octets.len() {
        let octet = octets[place];
        if octet < u8::MAX {
            let bit = 8 * place + octet.trailing_ones() as usize;
            return if bit < count { Some(bit) } else { None };
        }
    }
    None
}

// Clears a bit.
pub(crate) fn unset(octets: &mut [u8], bit: usize)
    requires { bit / 8 < length octets.old }
    ensures { SetsBit bit false octets.old octets.new }
{
    octets[bit / 8] &= !(1 << (bit % 8));
}
