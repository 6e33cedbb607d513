//! Lines of a text that others keep, and those who keep it.

ghost use Rattle.std.specs.Prelude.{◌≡◌, ◌+◌, ◌<◌, ◌≤◌, ◌++◌, [], List, ℕ, IfSome, IsSome, length, min, vec_len, vec_capacity};
ghost use Rattle.kernel_outbox.specs.Lines.{octets_of_lines};

/// Lines of the overview of a group that are still to be made, and then the line that ends a block.
#[derive(Clone, Copy)]
pub struct Lines {
    /// the place of the group among those of the source
    pub group: usize,
    /// the number of the next line
    pub next: u64,
    /// the number after that of the last line
    pub end: u64,
    /// how many octets they all have, with the line that ends the block
    pub octets: u64,
}

/// Who makes lines when they are handed out. What lines a source keeps say of their octets is true: `counted`.
pub trait Source {
    ghost use Rattle.kernel_outbox.specs.declared.made_lines.Lines.{Lines};

    /// What lines stand for: their octets, with the line that ends the block.
    ghost octets_of: { Self → Lines → List ℕ };

    /// Whether the source has these lines.
    ghost keeps: { Self → Lines → Type 0 };

    /// Appends the next of these lines, until there are more octets than a release hands out or no line is left. Answers
    /// those that are left. A line has at most `LONGEST_LINE` octets, so this takes no memory.
    fn make_some(&self, lines: Lines, octets: &mut Vec<u8>) -> Option<Lines>
        // Lines that the source has, and room for what is appended.
        requires kept { keeps self.now lines }
        requires short { vec_len octets.old ≤ 65_536 }
        requires room { min (vec_len octets.old + lines.octets) 73_729 ≤ vec_capacity octets.old }

        // The octets appended, and the lines left.
        ensures made { octets.new.items ++ octets_of_lines (octets_of self.now) result
            ≡ octets.old.items ++ octets_of self.now lines }
        ensures kept { IfSome result (λ rest. keeps self.now rest) }

        // How many octets there are then. No room is lost.
        ensures many { IsSome result → 65_536 < vec_len octets.new }
        ensures bound { vec_len octets.new ≤ 73_729 }
        ensures capacity { vec_capacity octets.old ≤ vec_capacity octets.new };

    /// Lines have as many octets as they say.
    ghost counted: { (s : Self) (lines : Lines) → keeps s lines → lines.octets ≡ length (octets_of s lines) };
}

/// A source of no lines, for replies that are of octets and numbers alone. It keeps only lines without octets.
#[derive(Clone, Copy)]
pub struct NoLines;

impl Source for NoLines {
    ghost octets_of = { λ s lines. [] };

    ghost keeps = { λ s lines. lines.octets ≡ 0 };

    fn make_some(&self, _lines: Lines, _octets: &mut Vec<u8>) -> Option<Lines> {
        None
    }

    ghost counted = { λ s lines kept. kept };
}
