//! An article that an answer accepts.

use model::Envelope;
use text_article::{Article, Injected};

/// An article as it is stored.
#[derive(Drop)]
pub enum Stored<'t> {
    /// As it came from another server.
    Carried(Article<'t>),
    /// As it was posted, after the fields that this server adds.
    Posted(Injected<'t>),
}

/// An article that is to be filed. `specs/Accepted.antt` says which change it is.
#[derive(Drop)]
pub struct Accepted<'t> {
    pub text: Stored<'t>,
    pub envelope: Envelope,
}
