//! The keywords of a line, by the tables of the crate `model`.

ghost use Rattle.std.specs.Prelude.{◌≡◌};
ghost use Rattle.std.specs.Str.{str_eq_ignore_ascii_case};
ghost use Rattle.model.specs.Commands as commands;

use model::{KEYWORDS, Keyword, LISTINGS, Listing};

/// Whether a word is this text, regardless of case.
pub fn is_word(text: &[u8], word: &[u8]) -> bool
    ensures { result ≡ str_eq_ignore_ascii_case text.now word.now }
{
    text.eq_ignore_ascii_case(word)
}

/// The keyword that a word is, regardless of case.
pub fn keyword_of(word: &[u8]) -> Option<Keyword>
    ensures { result ≡ commands.keyword_of word.now }
{
    KEYWORDS
        .iter()
        .copied()
        .find(|keyword| is_word(keyword.text(), word))
}

/// What LIST shows by this keyword of its own, regardless of case.
pub fn listing_of(word: &[u8]) -> Option<Listing>
    ensures { result ≡ commands.listing_of word.now }
{
    LISTINGS
        .iter()
        .copied()
        .find(|listing| is_word(listing.text(), word))
}
