//! Why a text is not an article.

/// Why a text is not an article, in the order of the tests.
#[derive(Clone, Copy, Debug, PartialEq, Eq)]
pub enum Cause {
    /// It is not made of lines: it has NUL, or CR and LF other than as a pair, or no CRLF at its end.
    Octets,
    /// It has no empty line after its header.
    NoEnd,
    /// A header line neither begins a field nor continues one.
    Field,
    /// A field occurs twice that may occur at most once.
    Twice,
    /// A required field is missing, or a mandatory one is blank.
    Missing,
    /// Its message-id is not valid, or it is posted with an id of the host's own.
    Id,
    /// Its groups are not 1 to 16 distinct group names.
    Groups,
    /// It is too long. A posted text is measured as it would be stored.
    Long,
}
