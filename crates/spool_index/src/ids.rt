//! The serials of articles by their message-ids. An id stands in the note of its article alone: here it has a
//! fingerprint, a number of eight octets. Only an id whose fingerprint an earlier one has is kept here too. So ids that
//! somebody made to have one fingerprint take as long as in a map of ids, and no longer.

ghost use Rattle.std.specs.Prelude.{◌≡◌, [], OnErr, OnOk};
ghost use Rattle.spool_index.specs.Ids as ids;
ghost use Rattle.spool_index.specs.Ids.{IsAdded, has_id_at, serial_with};

use crate::article_look_ups::note_in;
use crate::note::Note;
use crate::prints::Prints;
use spool_groups::Keys;
use std::alloc::{AllocError, Global};
use std::marker::Model;

/// Odd, and without a pattern in its bits, so that ids that differ in few octets have fingerprints that differ in many bits.
const MULTIPLIER: u64 = 11_400_714_819_323_198_485;

/// The serials of articles whose ids stand in their notes.
#[derive(Drop)]
pub(crate) struct Ids {
    prints: Prints,
    /// the serials of ids that have the fingerprint of an earlier one
    others: Keys,
}

impl Model for Ids {
    ghost use Rattle.spool_index.specs.Ids.{IdsView};

    ghost Value = { IdsView };

    ghost view = { λ x. record { prints = x.prints; others = x.others } };
}

impl Ids {
    /// No serial under any id. It takes no memory.
    pub(crate) fn new(alloc: Global) -> Ids
        ensures { result ≡ record { prints = []; others = [] } }
    {
        Ids {
            prints: Prints::new(alloc),
            others: Keys::new(alloc),
        }
    }

    /// The serial of the article with this id, of whose changes these are the notes.
    pub(crate) fn get(&self, notes: &[Note], id: &[u8]) -> Option<u64>
        ensures { result ≡ serial_with self.now notes.now id.now }
    {
        if let Some(serial) = self.prints.get(fingerprint(id)) {
            if is_of(notes, id, serial) {
                return Some(serial);
            }
        }
        self.others.get(id)
    }

    /// Adds the serial of an article whose id has none. Refused only for want of memory, and then nothing changes.
    pub(crate) fn insert(&mut self, id: &[u8], serial: u64) -> Result<(), AllocError>
        ensures ok { OnOk result (IsAdded id.now serial self.old self.new) }
        ensures err { OnErr result (self.new ≡ self.old) }
    {
        let print = fingerprint(id);
        match self.prints.get(print) {
            Some(_) => self.others.insert(id, serial),
            None => self.prints.insert(print, serial),
        }
    }
}

/// A number that depends on each octet of an id.
fn fingerprint(id: &[u8]) -> u64
    ensures { result ≡ ids.fingerprint id.now }
{
    let mut print: u64 = 0;
    for octet in id {
        print = print.wrapping_mul(MULTIPLIER).wrapping_add(*octet as u64);
    }
    print
}

/// Whether the change with this serial is an article with this id.
fn is_of(notes: &[Note], id: &[u8], serial: u64) -> bool
    ensures { result ≡ has_id_at notes.now id.now serial }
{
    let Some(note) = note_in(notes, serial) else {
        return false;
    };
    match note.id() {
        Some(own) => own == id,
        None => false,
    }
}
