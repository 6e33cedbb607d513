//! The lines of INN's files `active` and `newsgroups`.

ghost use Rattle.std.specs.Prelude.{◌≡◌, option_map};
ghost use Rattle.program_lists.specs.Lists.{about_of, active_of, without_tabs};

use program_script::{number, split_at, split_word};

/// A line of `active`: `NAME HIGH LOW FLAG`.
#[derive(Clone, Copy)]
pub(crate) struct Active<'a> {
    pub name: &'a [u8],
    pub flag: &'a [u8],
}

/// A line of `newsgroups`: `NAME<TAB>DESCRIPTION`.
#[derive(Clone, Copy)]
pub(crate) struct About<'a> {
    pub name: &'a [u8],
    pub description: &'a [u8],
}

/// The line as one of `active`: four words, each behind one space, of which the second and the third are numbers. A new group has no
/// articles, so these numbers count for nothing.
#[tactic(auto, unfolding(crate::specs::Lists::active_of))]
pub(crate) fn read_active(line: &[u8]) -> Option<Active<'_>>
    ensures { option_map (λ read. (read.name.now, read.flag.now)) result ≡ active_of line.now }
{
    let (name, words) = split_word(line)?;
    let (high, words) = split_word(words)?;
    let (low, flag) = split_word(words)?;
    let is_word = !flag.is_empty() && split_word(flag).is_none();
    if number(high).is_some() && number(low).is_some() && is_word {
        Some(Active { name, flag })
    } else {
        None
    }
}

/// The line as one of `newsgroups`. One or more TABs stand before the description.
#[tactic(auto, unfolding(crate::specs::Lists::about_of))]
pub(crate) fn read_about(line: &[u8]) -> Option<About<'_>>
    ensures { option_map (λ read. (read.name.now, read.description.now)) result ≡ about_of line.now }
{
    let (name, rest) = split_at(line, b'\t')?;
    Some(About {
        name,
        description: without_tabs(rest),
    })
}

/// The text from its first octet on that is no TAB.
fn without_tabs(text: &[u8]) -> &[u8]
    ensures { result.now ≡ without_tabs text.now }
{
    match text.iter().position(|octet| *octet != b'\t') {
        Some(at) => &text[at..],
        None => b"",
    }
}
