//! A spool that takes changes: the questions of `LookUps`, and the filing of an article. The commands and the spool in
//! files both depend on it, and not on each other.

ghost use Rattle.std.specs.Prelude.{◌≡◌, ◌⊎◌, ◌++◌, ◌∷◌, [], MatchResult, true, false};
ghost use Rattle.model.specs.Lawful.{IsLawful};
ghost use Rattle.model.specs.declared.change.Change.TheVariants as change;

use crate::LookUps;
use model::Envelope;
use text_article::Article;

/// Why an article was not filed.
#[derive(Clone, Copy, Debug, Drop, PartialEq, Eq)]
pub enum FilingError {
    /// There is no room for it.
    Full,
    /// An allocation was refused.
    Memory,
}

/// A spool in which articles may be filed.
pub trait ChangeSpool: LookUps {
    ghost use Rattle.std.specs.Prelude.{Bool};
    ghost use Rattle.model.specs.declared.change.Change.{Change as ChangeView};

    /// Whether there is no room for the change.
    ghost lacks_room: { Self → ChangeView → Bool };

    /// Relates two values: the second is the first with this change added as the last one.
    ghost adds: { Self → Self → ChangeView → Type 0 };

    /// Files an article with this envelope. Its change must be one that may follow.
    /// Refused as `Full` exactly if there is no room, and otherwise only as `Memory`; a refusal changes nothing.
    fn file(&mut self, article: &Article<'_>, envelope: &Envelope) -> Result<(), FilingError>
        requires { IsLawful (Self.host_of self.old)
            (Self.changes self.old ++ change.Article (record { text = article.now; envelope = envelope.now }) ∷ []) }
        ensures { let its = change.Article (record { text = article.now; envelope = envelope.now }) in MatchResult result
            (λ done. (lacks_room self.old its ≡ false) × adds self.old self.new its)
            (λ error. (((error ≡ FilingError.Memory) × (lacks_room self.old its ≡ false))
            ⊎ ((error ≡ FilingError.Full) × (lacks_room self.old its ≡ true))) × (self.new ≡ self.old)) };
}
