//! The answer to a line of the operator.

ghost use Rattle.std.specs.Prelude.{◌≡◌};
ghost use Rattle.server_operator.specs.Refusals.{refusal_of};
ghost use Rattle.server_operator.specs.declared.line_answer.Refused.TheVariants.{Group, Expiry, Memory};

use crate::sessions::Listing;
use crate::status::Status;
use kernel_shared::{AdminError, ExpireError};
use program_script::ParseError;
use std::alloc::AllocError;
use std::fmt::{self, Display, Formatter};
use std::io::{self, Write};
use text_names::GroupName;
use thiserror::Error;

/// Why a line is not answered with a serial.
#[derive(Debug, Drop, Error)]
pub enum Refused {
    /// The group was not made.
    #[error(transparent)]
    Group(AdminError),
    /// The articles were not removed.
    #[error(transparent)]
    Expiry(ExpireError),
    /// The change was made, but the flusher stopped before it was durable.
    #[error("E1 Fault")]
    Fault,
    /// An allocation was refused.
    #[error("E2 Memory")]
    Memory,
    /// No session was to be ended.
    #[error("E12 NotFound")]
    NotFound,
    /// The line is not one of the operator's.
    #[error("E14 Bad")]
    Bad,
    /// The line would be one, but the name of its group is too long.
    #[error("E14 Bad: the name of a group has more than 40 octets")]
    LongName,
}

impl Refused {
    /// Whether it says what other changes did: that a group is there, or not, or that there is no room.
    pub(crate) fn reports_changes(&self) -> bool {
        matches!(
            self,
            Refused::Group(AdminError::Exists | AdminError::Full)
                | Refused::Expiry(ExpireError::NotFound | ExpireError::Full)
        )
    }
}

impl From<AdminError> for Refused {
    ghost from_gives = { λ error refused. refused ≡ Group error };

    fn from(error: AdminError) -> Refused {
        Refused::Group(error)
    }
}

impl From<ExpireError> for Refused {
    ghost from_gives = { λ error refused. refused ≡ Expiry error };

    fn from(error: ExpireError) -> Refused {
        Refused::Expiry(error)
    }
}

impl From<AllocError> for Refused {
    ghost from_gives = { λ _ refused. refused ≡ Memory };

    fn from(_error: AllocError) -> Refused {
        Refused::Memory
    }
}

impl From<ParseError> for Refused {
    ghost from_gives = { λ error refused. refused ≡ refusal_of error };

    fn from(error: ParseError) -> Refused {
        match error {
            ParseError::Bad => Refused::Bad,
            ParseError::Memory => Refused::Memory,
        }
    }
}

/// The answer to a line that was not refused.
#[derive(Drop)]
pub enum Told {
    /// The serial of a change that is durable.
    Serial(u64),
    /// The expiry of a group that is durable, by its serial; or one that was not made.
    Expiry {
        serial: Option<u64>,
        name: GroupName,
        number: u32,
    },
    /// So many articles were taken out by the expiries before it, or would be.
    Articles(u64),
    Status(Status),
    Sessions(Listing),
    /// So many sessions were ended.
    Dropped(u64),
    /// The flusher has stopped as it was asked to, and all changes are durable. The number is that of the accepted ones.
    Stopped {
        accepted: u64,
    },
}

impl Display for Told {
    fn fmt<W: fmt::Write>(&self, f: &mut Formatter<W>) -> fmt::Result {
        match self {
            Told::Serial(serial) => write!(f, "{serial}"),
            Told::Expiry {
                serial,
                name,
                number,
            } => {
                if let Some(serial) = serial {
                    write!(f, "{serial} ")?;
                }
                f.write_str("expire ")?;
                write_name(f, name)?;
                write!(f, " {number}")
            }
            Told::Articles(articles) => write!(f, "articles {articles}"),
            Told::Status(status) => write!(f, "{status}"),
            Told::Sessions(listing) => write!(f, "{listing}"),
            Told::Dropped(sessions) => write!(f, "dropped {sessions}"),
            Told::Stopped { accepted: _ } => f.write_str("stopped"),
        }
    }
}

/// Writes the name of a group, whose octets are all ASCII.
fn write_name<W: fmt::Write>(f: &mut Formatter<W>, name: &GroupName) -> fmt::Result {
    for octet in name.as_slice() {
        f.write_char(char::from(*octet))?;
    }
    Ok(())
}

/// The answer to a line, or to a part of it.
pub type Answer = Result<Told, Refused>;

/// Writes an answer and an LF, and flushes. An `Err` is that of the stream, which may have got a part of it.
pub fn write_answer<A: Write>(answers: &mut A, answer: &Answer) -> io::Result<()> {
    match answer {
        Ok(told) => writeln!(answers, "{told}")?,
        Err(refused) => writeln!(answers, "{refused}")?,
    }
    answers.flush()
}
