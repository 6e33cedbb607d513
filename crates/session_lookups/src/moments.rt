//! Moments of groups and articles.

ghost use Rattle.std.specs.Prelude.{◌≡◌};
ghost use Rattle.model.specs.Answer.{is_since};

/// Whether a moment is at or after another, both in seconds since 1970.
pub fn is_since(from: i64, moment: u64) -> bool
    ensures { result ≡ is_since from moment }
{
    from <= 0 || from as u64 <= moment
}
