//! The words of a row.

/// The words that are left of a row.
#[derive(Drop)]
pub(crate) struct Words<'a> {
    rest: &'a str,
}

impl<'a> Words<'a> {
    pub(crate) fn of(row: &'a str) -> Words<'a> {
        Words { rest: row }
    }

    /// The next word; empty if there is none.
    pub(crate) fn next(&mut self) -> &'a str {
        match self.rest.split_once(' ') {
            Some((word, rest)) => {
                self.rest = rest;
                word
            }
            None => self.all(),
        }
    }

    /// All that is left.
    pub(crate) fn all(&mut self) -> &'a str {
        let word = self.rest;
        self.rest = "";
        word
    }

    /// The next word, a path. `-` is the empty one.
    pub(crate) fn path(&mut self) -> &'a str {
        match self.next() {
            "-" => "",
            path => path,
        }
    }

    /// The next word, a number.
    pub(crate) fn number(&mut self) -> Option<u64> {
        self.next().parse::<u64>().ok()
    }

    /// The next word, a number in hexadecimal.
    pub(crate) fn hexadecimal(&mut self) -> Option<u64> {
        u64::from_str_radix(self.next(), 16).ok()
    }

    /// The next word, a mode in octal.
    pub(crate) fn mode(&mut self) -> Option<u32> {
        u32::from_str_radix(self.next(), 8).ok()
    }
}
