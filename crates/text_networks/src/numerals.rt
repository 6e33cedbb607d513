//! Numbers in texts: the length of a prefix, and ports.

ghost use Rattle.std.specs.Prelude.{◌≡◌, ◌≤◌, ℕ, decimal, IfSome, IfNone};

/// The most digits of such a number.
const MOST_DIGITS: usize = 5;

/// The number that a decimal numeral writes, if it has no sign and no leading zero and the number is at most `limit`.
pub(crate) fn read_number(numeral: &[u8], limit: u32) -> Option<u32>
    requires { limit ≤ 65535 }
    ensures found { IfSome result (λ n. (numeral.now ≡ decimal n) × (n ≤ limit)) }
    ensures none { IfNone result ((n : ℕ) → n ≤ limit → ¬ (numeral.now ≡ decimal n)) }
{
    if numeral.is_empty() || numeral.len() > MOST_DIGITS {
        return None;
    }
    if numeral[0] == b'0' && numeral.len() > 1 {
        return None;
    }
    let mut number = 0;
    for digit in numeral {
        if !digit.is_ascii_digit() {
            return None;
        }
        number = number * 10 + u32::from(*digit - b'0');
    }
    if number > limit { None } else { Some(number) }
}
