//! Large numbers in a form that is easy to read.

use std::fmt::{self, Display, Formatter};

/// The place values of the groups of three digits except the last, the highest first.
const GROUPS: [u64; 6] = [
    1_000_000_000_000_000_000,
    1_000_000_000_000_000,
    1_000_000_000_000,
    1_000_000_000,
    1_000_000,
    1_000,
];

/// A number with commas between its groups of three digits, as in 4,096,000.
#[derive(Clone, Copy)]
pub struct Grouped(pub u64);

impl Display for Grouped {
    fn fmt<W: fmt::Write>(&self, f: &mut Formatter<W>) -> fmt::Result {
        let Grouped(number) = *self;
        let mut is_begun = false;
        for value in GROUPS {
            let digits = number.checked_div(value).unwrap_or(0) % 1_000;
            if is_begun {
                write!(f, "{digits:03},")?;
            } else if digits > 0 {
                is_begun = true;
                write!(f, "{digits},")?;
            }
        }
        let digits = number % 1_000;
        if is_begun {
            write!(f, "{digits:03}")
        } else {
            write!(f, "{digits}")
        }
    }
}
