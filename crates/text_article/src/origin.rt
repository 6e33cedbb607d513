//! The origin of a text, and why it was not read.

ghost use Rattle.std.specs.Prelude.{◌≡◌};
ghost use Rattle.text_article.specs.declared.origin.ReadError.TheVariants.{Memory};

use model::Cause;
use std::alloc::AllocError;
use thiserror::Error;

/// Where a text comes from.
#[derive(Clone, Copy)]
pub enum Origin<'h> {
    /// A client of this host, which would give the article this serial. Reading wants a valid host.
    Posted { host: &'h [u8], serial: u64 },
    /// Another server.
    Carried,
}

/// Why a text was not read.
#[derive(Clone, Copy, Debug, PartialEq, Eq, Error)]
pub enum ReadError {
    /// An allocation was refused.
    #[error("E2 Memory")]
    Memory,
    /// The text is not an article of this origin; this is the first cause.
    #[error("E14 Bad")]
    Bad(Cause),
}

impl From<AllocError> for ReadError {
    ghost from_gives = { λ _ e. e ≡ Memory };

    fn from(_error: AllocError) -> ReadError {
        ReadError::Memory
    }
}
