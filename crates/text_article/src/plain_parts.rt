//! What is read of a text whose lines have no cause.

/// What of the causes in the fields does not depend on the origin.
#[derive(Clone, Copy)]
pub(crate) struct Faults {
    /// A field occurs twice that may occur at most once.
    pub(crate) twice: bool,
    /// A field that a client writes is missing.
    pub(crate) lacks_written: bool,
    /// A field that a server adds is missing.
    pub(crate) lacks_added: bool,
    /// A mandatory field is blank.
    pub(crate) blank: bool,
    /// There is no message-id, or a valid one.
    pub(crate) valid_id: bool,
    /// Newsgroups lists 1 to 16 distinct group names.
    pub(crate) good_groups: bool,
}

/// The fields of a text, the content of Newsgroups, and what of the causes in the fields does not depend on the origin.
#[derive(Drop)]
pub(crate) struct Parts<'t> {
    pub(crate) fields: Vec<&'t [u8]>,
    pub(crate) newsgroups: Vec<u8>,
    pub(crate) faults: Faults,
}
