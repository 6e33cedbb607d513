//! Copies the contents of a change's file into a change.

ghost use Rattle.std.specs.Prelude.{◌≡◌, IfOk};
ghost use Rattle.spool_reading.specs.StoredChanges.{change_of};

use model::{Change, Expiry, Filing, Text};
use spool_reading::StoredChange;
use std::alloc::{AllocError, Global};

/// The change that a file describes, with its own copies of the octets. Refused only for want of memory.
pub fn change_said(alloc: Global, said: StoredChange<'_>) -> Result<Change, AllocError>
    ensures { IfOk result (λ change. change ≡ change_of said.entry) }
{
    match said {
        StoredChange::Group(group) => Ok(Change::Group(group)),
        StoredChange::Article { text, envelope } => Ok(Change::Article(Filing {
            text: copy(alloc, text)?,
            envelope,
        })),
        StoredChange::Expiry { group, number } => Ok(Change::Expire(Expiry {
            group: copy(alloc, group)?,
            number: u64::from(number),
        })),
    }
}

/// A text of these octets.
fn copy(alloc: Global, octets: &[u8]) -> Result<Text, AllocError>
    ensures { IfOk result (λ text. text ≡ octets.now) }
{
    Ok(Text::new(octets.to_vec(alloc)?))
}
