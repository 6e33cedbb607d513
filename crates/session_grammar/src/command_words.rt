//! The words of a command line.

ghost use Rattle.std.specs.Prelude.{◌≡◌, [], ◌∷◌, MatchOption, ◌||◌, false};
ghost use Rattle.std.specs.List.{list_all};
ghost use Rattle.model.specs.Commands.{words};
ghost use Rattle.model.specs.Names as definitions;
ghost use Rattle.session_grammar.specs.Words.{Says};

use bstr::ByteSlice;
use memchr::memchr2;
use text_names::is_visible;

/// SP and TAB, which separate words (RFC 3977, 3.1).
const BLANKS: &[u8] = b" \t";

/// The words after a keyword.
#[derive(Clone, Copy)]
pub enum Arguments<'a> {
    None,
    One(&'a [u8]),
    Two(&'a [u8], &'a [u8]),
    Three(&'a [u8], &'a [u8], &'a [u8]),
    Four(&'a [u8], &'a [u8], &'a [u8], &'a [u8]),
    /// more words than any command has
    More,
}

/// Whether the line begins with SP or TAB.
pub fn begins_blank(line: &[u8]) -> bool
    ensures { result ≡ definitions.begins definitions.is_blank line.now }
{
    matches!(line, [b' ' | b'\t', ..])
}

/// Whether each octet may occur in a command line: SP, TAB and 33 to 126.
pub fn is_clean(line: &[u8]) -> bool
    ensures { result ≡ list_all (λ c. definitions.is_blank c || definitions.is_visible c) line.now }
{
    line.iter()
        .all(|octet| is_blank(*octet) || is_visible(*octet))
}

/// Whether the octet is SP or TAB.
fn is_blank(octet: u8) -> bool
    ensures { result ≡ definitions.is_blank octet }
{
    octet == b' ' || octet == b'\t'
}

/// The line without its leading blanks.
fn skip_blanks(line: &[u8]) -> &[u8]
    ensures same { words result.now ≡ words line.now }
    ensures begins { definitions.begins definitions.is_blank result.now ≡ false }
{
    match line.find_not_byteset(BLANKS) {
        Some(first) => &line[first..],
        None => &line[..0],
    }
}

/// The first word of a line, and what follows it.
pub fn next_word(line: &[u8]) -> Option<(&[u8], &[u8])>
    ensures { MatchOption result (words line.now ≡ []) (λ found. words line.now ≡ found.0.now ∷ words found.1.now) }
{
    let rest = skip_blanks(line);
    if rest.is_empty() {
        return None;
    }
    let end = memchr2(b' ', b'\t', rest).unwrap_or(rest.len());
    Some(rest.split_at(end))
}

/// The words after a keyword.
pub fn arguments_of(rest: &[u8]) -> Arguments<'_>
    ensures { Says result (words rest.now) }
{
    let Some((first, rest)) = next_word(rest) else {
        return Arguments::None;
    };
    let Some((second, rest)) = next_word(rest) else {
        return Arguments::One(first);
    };
    let Some((third, rest)) = next_word(rest) else {
        return Arguments::Two(first, second);
    };
    let Some((fourth, rest)) = next_word(rest) else {
        return Arguments::Three(first, second, third);
    };
    match next_word(rest) {
        Some(_) => Arguments::More,
        None => Arguments::Four(first, second, third, fourth),
    }
}
