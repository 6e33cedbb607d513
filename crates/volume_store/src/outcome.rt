//! What became of a text.

ghost use Rattle.std.specs.Prelude.{◌<◌};

use model::Cause;
use thiserror::Error;

/// What became of a text that an import tried to file.
#[derive(Clone, Copy, Debug, PartialEq, Eq)]
pub enum TextOutcome {
    /// It is filed, and its change has this serial.
    Filed(u64),
    /// An article with its message-id was filed before. One that has been removed counts, too.
    Here,
    /// None of its groups exists.
    NoGroup,
    /// It is refused.
    Refused(TextRefusal),
    /// There is no room for it, in the volume or in a file of one of its groups. `Store::lack` says which.
    Full,
}

/// What a volume has too little of for a change. An article leaves some of both to the operator's changes.
#[derive(Clone, Copy, Debug, PartialEq, Eq, Error)]
pub enum Lack {
    /// Fewer blocks are free than a change asks for.
    #[error("too few blocks are free")]
    Blocks,
    /// Fewer inodes are free than the change makes files.
    #[error("too few inodes are free")]
    Inodes,
}

/// Why a text is refused.
#[derive(Clone, Copy, Debug, PartialEq, Eq)]
pub enum TextRefusal {
    /// It is not an article; this is the first cause.
    NotAnArticle(Cause),
    /// Its message-id is one of those that this host makes. A transfer of it is not wanted (435).
    OwnId,
}

impl TextRefusal {
    /// The cause's place among all causes for which an import refuses a text.
    pub fn place(self) -> usize
        ensures { result < 10 }
    {
        match self {
            TextRefusal::NotAnArticle(Cause::Octets) => 0,
            TextRefusal::NotAnArticle(Cause::NoEnd) => 1,
            TextRefusal::NotAnArticle(Cause::Field) => 2,
            TextRefusal::NotAnArticle(Cause::Twice) => 3,
            TextRefusal::NotAnArticle(Cause::Missing) => 4,
            TextRefusal::NotAnArticle(Cause::Id) => 5,
            TextRefusal::NotAnArticle(Cause::Groups) => 6,
            TextRefusal::NotAnArticle(Cause::Long) => 7,
            TextRefusal::OwnId => 8,
        }
    }
}

/// The number of causes for which an import refuses a text.
pub const CAUSES: usize = 10;

/// The last of these causes: the volume has room for the text, and one of its groups has none.
pub const FULL_GROUP: usize = 9;

/// The cause at a place, in words for a person. Those of an article come first, in the order of the tests.
pub fn words_at(place: usize) -> &'static str {
    match place {
        0 => "it holds NUL or a single CR, or its last line has no end",
        1 => "no empty line follows the header",
        2 => "a line of the header is no field",
        3 => "a field occurs twice",
        4 => "a mandatory field is missing",
        5 => "the message-id isn't valid",
        6 => "its groups aren't 1 to 16 different group names",
        7 => "its header has more than 8192 octets, or the article more than 262144",
        8 => "the message-id is one of this host's own",
        _ => "one of its groups takes no more articles (E6 Full)",
    }
}
