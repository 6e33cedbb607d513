//! Why a line of a list makes no group.

use thiserror::Error;

/// Why a line of a list makes no group.
#[derive(Clone, Copy, Debug, PartialEq, Eq, Error)]
pub enum ListFault {
    /// It is neither `NAME HIGH LOW FLAG` nor `NAME<TAB>DESCRIPTION`.
    #[error("no line of active or newsgroups")]
    NoLine,
    #[error("its name has more than 40 octets")]
    LongName,
    #[error("its name is no name of a group")]
    NoName,
    /// Its flag is `m`.
    #[error("its flag is m, and there is no moderation")]
    Moderated,
    #[error("its flag is neither y nor n")]
    OtherFlag,
    #[error("its description has more than 200 octets, or others than ASCII, or is blank")]
    NoDescription,
}
