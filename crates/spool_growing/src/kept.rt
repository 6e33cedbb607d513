//! What a growth takes: all that is kept of a spool in files, and the change that is to be added.

use crate::{Free, PlaceKind};
use journal_volume::Volume;
use model::{Envelope, NewGroup};
use spool_index::{Index, Places};
use text_article::Article;

/// All that is kept of a spool in files.
#[derive(Drop)]
pub struct Kept {
    /// The number of inodes in the volume's label.
    pub inodes: u32,
    pub free: Free,
    pub volume: Volume,
    pub index: Index,
    pub places: Places,
}

/// A change that is to be added.
#[derive(Drop)]
pub enum NewChange<'a> {
    /// A group is made.
    Group(NewGroup),
    /// An article is filed, its file in a place of this kind.
    Article {
        kind: PlaceKind,
        article: &'a Article<'a>,
        envelope: &'a Envelope,
    },
    /// The articles of the group with this name are removed, up to and including this number.
    Expiry {
        name: &'a [u8],
        number: u32,
    },
}
