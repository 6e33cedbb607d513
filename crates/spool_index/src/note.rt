//! What the index keeps of a change.

ghost use Rattle.std.specs.Prelude.{◌≡◌, option_map};

use model::{Moment, Names, Text};

/// How many octets an article has as it is stored. No article has more than 262,144.
#[derive(Clone, Copy)]
pub struct Lengths {
    /// in its text
    pub text: u32,
    /// in its header, without the empty line
    pub header: u32,
}

/// What is kept of a change, by its serial.
#[derive(Drop)]
pub enum Note {
    /// A group was made. Its fields are kept with the group.
    Group,
    /// An article was filed. Its text stays in its file.
    Article {
        id: Text,
        lengths: Lengths,
        groups: Names,
        /// when it was filed
        moment: Moment,
    },
    /// Articles were removed from a group.
    Expiry {
        group: Text,
        number: u64,
    },
}

impl Note {
    ghost use Rattle.spool_index.specs.Notes.{groups_in, id_in, lengths_in, moment_in};

    /// For an article, its message-id.
    pub fn id(&self) -> Option<&[u8]>
        ensures { option_map (λ id. id.now) result ≡ id_in self.now }
    {
        match self {
            Note::Group => None,
            Note::Article { id, .. } => Some(id.as_slice()),
            Note::Expiry { .. } => None,
        }
    }

    /// For an article, how many octets it has.
    pub fn lengths(&self) -> Option<Lengths>
        ensures { result ≡ lengths_in self.now }
    {
        match self {
            Note::Group => None,
            Note::Article { lengths, .. } => Some(*lengths),
            Note::Expiry { .. } => None,
        }
    }

    /// For an article, the groups that it was filed in.
    pub fn groups(&self) -> Option<&[Text]>
        ensures { option_map (λ names. names.now) result ≡ groups_in self.now }
    {
        match self {
            Note::Group => None,
            Note::Article { groups, .. } => Some(groups.as_slice()),
            Note::Expiry { .. } => None,
        }
    }

    /// For an article, when it was filed, in seconds since 1970.
    pub fn moment(&self) -> Option<u64>
        ensures { result ≡ moment_in self.now }
    {
        match self {
            Note::Group => None,
            Note::Article { moment, .. } => Some(moment.seconds()),
            Note::Expiry { .. } => None,
        }
    }
}
