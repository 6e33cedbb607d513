//! Posts and transfers, as the log tells of them.

ghost use Rattle.std.specs.Prelude.{Some};
ghost use Rattle.server_log_lines.specs.Line.{post_refusal_text, refused_post_text, taken_text};

use std::fmt::{self, Display};

/// Why a post or a transfer was refused.
#[derive(Clone, Copy, Debug, PartialEq, Eq)]
pub enum PostRefusal {
    /// It is not made of lines.
    Octets,
    /// It has no empty line after its header.
    NoEnd,
    /// A header line neither begins a field nor continues one.
    Field,
    /// A field occurs twice that may occur at most once.
    Twice,
    /// A required field is missing, or a mandatory one is blank.
    Missing,
    /// Its message-id is not valid, or it is posted with an id of the host's own.
    Id,
    /// Its groups are not 1 to 16 distinct group names.
    Groups,
    /// It is too long.
    Long,
    /// An article with its message-id was filed before.
    Repeat,
    /// None of its groups exists.
    NoGroup,
    /// One of its groups takes no posts.
    Closed,
    /// It was transferred, and has another message-id than was offered.
    OtherId,
    /// The volume has no room for it.
    Full,
    /// Memory was refused.
    Memory,
    /// The server ends.
    Stopped,
}

impl Display for PostRefusal {
    ghost output = { λ refusal. Some (post_refusal_text refusal) };

    fn fmt<W: fmt::Write>(&self, f: &mut fmt::Formatter<W>) -> fmt::Result {
        f.write_str(match self {
            PostRefusal::Octets => "octets",
            PostRefusal::NoEnd => "noend",
            PostRefusal::Field => "field",
            PostRefusal::Twice => "twice",
            PostRefusal::Missing => "missing",
            PostRefusal::Id => "id",
            PostRefusal::Groups => "groups",
            PostRefusal::Long => "long",
            PostRefusal::Repeat => "repeat",
            PostRefusal::NoGroup => "nogroup",
            PostRefusal::Closed => "closed",
            PostRefusal::OtherId => "otherid",
            PostRefusal::Full => "full",
            PostRefusal::Memory => "memory",
            PostRefusal::Stopped => "stopped",
        })
    }
}

/// A post or a transfer that was taken.
#[derive(Drop)]
pub struct TakenPost {
    /// The number of the session.
    pub session: u64,
    /// The article's message-id.
    pub id: String,
    pub serial: u64,
}

impl Display for TakenPost {
    ghost output = { λ taken. Some (taken_text taken) };

    fn fmt<W: fmt::Write>(&self, f: &mut fmt::Formatter<W>) -> fmt::Result {
        let TakenPost {
            session,
            id,
            serial,
        } = self;
        write!(f, "session={session} id={id} serial={serial}")
    }
}

/// A post or a transfer that was refused.
#[derive(Clone, Copy)]
pub struct RefusedPost {
    /// The number of the session.
    pub session: u64,
    pub cause: PostRefusal,
}

impl Display for RefusedPost {
    ghost output = { λ refused. Some (refused_post_text refused) };

    fn fmt<W: fmt::Write>(&self, f: &mut fmt::Formatter<W>) -> fmt::Result {
        let RefusedPost { session, cause } = *self;
        write!(f, "session={session} cause={cause}")
    }
}
