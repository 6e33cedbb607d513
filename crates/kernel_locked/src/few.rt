//! Answers to `NEWNEWS` that surely fit one release.

ghost use Rattle.std.specs.Prelude.{◌≡◌};

use model::{Command, Moment};
use session_lookups::{LookUps, is_since};
use session_received::Received;
use text_dates::read_since;

/// The lines of so many articles fit one release, with the first line and the last one: a message-id has at most 250 octets.
const FEW: u64 = 256;

/// So many changes are looked at, at most, since the kernel's lock is held meanwhile.
const LOOKED: u64 = 4_096;

/// The moment since which a line asks for new articles, if it does. `None` as well where the calendar lacks its date or its time.
pub(crate) fn asked_since(received: &Received<'_>, moment: Moment) -> Option<i64> {
    let Some(Command::NewNews { date, time, .. }) = received.command() else {
        return None;
    };
    read_since(date.as_slice(), time.as_slice(), moment).ok()
}

/// Whether few articles were filed since a moment. It looks from the latest one back to the first that was filed before, and so at
/// `FEW` + 1 of them at most, among the last `LOOKED` changes. Moments rise, but for a clock that was set back by a day or more: then newer
/// articles before that one aren't counted. What this says decides only who waits for whom.
pub(crate) fn are_few<L: LookUps>(spool: &L, from: i64) -> bool {
    let mut found = 0u64;
    let before = spool.len().saturating_sub(LOOKED);
    for serial in (before..spool.len()).rev() {
        let Some(moment) = spool.moment(serial + 1) else {
            continue;
        };
        if !is_since(from, moment) {
            return true;
        }
        found = found.saturating_add(1);
        if found > FEW {
            return false;
        }
    }
    before == 0
}
