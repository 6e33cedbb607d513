//! Articles filed in the spool.

use crate::Spool;
use model::Envelope;
use session_lookups::{ChangeSpool, FilingError};
use text_article::Article;

impl ChangeSpool for Spool {
    ghost use Rattle.spool.specs.Refusals.{is_full_for};
    ghost use Rattle.spool.specs.View.{Adds};

    ghost lacks_room = { λ s c. is_full_for s c };

    ghost adds = { λ before after c. Adds before after c };

    fn file(&mut self, article: &Article<'_>, envelope: &Envelope) -> Result<(), FilingError> {
        match self.add_article(article, envelope) {
            Ok(_) => Ok(()),
            Err(error) => Err(error),
        }
    }
}
