//! Why an article is not filed.

use model::Cause;

/// Why an article that followed POST or IHAVE is not filed.
#[derive(Clone, Copy, Debug, PartialEq, Eq)]
pub enum Refusal {
    /// It is no article, or too long.
    Text(Cause),
    /// It was transferred, and has another message-id than was offered.
    OtherId,
    /// An article with its message-id was filed before, even if it is gone.
    Repeat,
    /// None of its groups exists.
    NoGroup,
    /// It was posted, and one of its groups takes no posts.
    Closed,
    /// The volume has no room for it.
    Full,
    /// The server had stopped.
    Stopped,
}
