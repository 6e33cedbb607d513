//! The articles of two posters that were filed, and how often each.

use crate::posters::{ARTICLES, message_id};
use kernel::Spool;
use session_lookups::LookUps;
use std::alloc::Global;

/// All articles of both posters. The group is the change before them.
const ALL: u64 = 2 * ARTICLES;

/// Which serials of articles were found.
#[derive(Drop)]
struct Tally {
    found: Vec<u64>,
}

impl Tally {
    fn new(alloc: Global) -> Tally {
        Tally {
            found: Vec::new(alloc),
        }
    }

    /// Whether a serial was found, is that of an article, and was not found before.
    fn takes(&mut self, serial: Option<u64>) -> bool {
        let Some(serial) = serial else {
            return false;
        };
        let is_new = !self.found.iter().any(|found| *found == serial);
        let is_articles = 2 <= serial && serial <= ALL + 1;
        is_new && is_articles && self.found.push(serial).is_ok()
    }
}

/// Whether each message-id names an article of its own.
pub(crate) fn has_each_id(alloc: Global, spool: &Spool) -> bool {
    let mut tally = Tally::new(alloc);
    for article in 1..=ALL {
        let Ok(id) = message_id(alloc, article) else {
            return false;
        };
        if !tally.takes(spool.by_id(id.as_bytes())) {
            return false;
        }
    }
    true
}

/// Whether each number names an article of its own, and no other number names any.
pub(crate) fn has_each_number(alloc: Global, spool: &Spool) -> bool {
    let mut tally = Tally::new(alloc);
    for number in 1..=ALL {
        if !tally.takes(spool.by_number(b"x.a", number)) {
            return false;
        }
    }
    spool.by_number(b"x.a", ALL + 1).is_none()
}
