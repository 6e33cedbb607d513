//! Look-ups of articles by their serials.

ghost use Rattle.std.specs.Prelude.{◌≡◌, ◌+◌, ◌<◌, ◌≤◌, ℕ, IfSome, Some, true, false, length, map, option_map};
ghost use Rattle.std.specs.List.{list_any};
ghost use Rattle.model.specs.Answer.{is_since};
ghost use Rattle.model.specs.Stream.{Octets};
ghost use Rattle.model.specs.Lawful.{IsLawful};
ghost use Rattle.model.specs.Spool.{Spool, expired_at, greatest};
ghost use Rattle.session_lookups.specs.Held.{article_with, gone_with};
ghost use Rattle.spool_index.specs.Finding.{note_at};

use crate::Index;
use crate::latest::moments_below;
use crate::note::{Lengths, Note};
use model::Text;

impl Index {
    ghost use Rattle.spool_index.specs.Finding.{entry_with, is_still_in, number_upto};
    ghost use Rattle.spool_index.specs.Kept.{kept, lengths_of};
    ghost use Rattle.spool_index.specs.View.{Indexes};

    /// What is kept of the change with this serial.
    pub fn note(&self, serial: u64) -> Option<&Note>
        ensures at { option_map (λ n. n.now) result ≡ note_at self.now.notes serial }
        ensures change { (S : Spool) → Indexes S self.now
            → option_map (λ n. n.now) result ≡ option_map kept (entry_with S serial) }
    {
        note_in(&self.notes, serial)
    }

    /// How many octets the article with this serial has, if there is one.
    pub fn lengths(&self, serial: u64) -> Option<Lengths>
        ensures { (S : Spool) → Indexes S self.now → result ≡ option_map (λ a. lengths_of a.text) (article_with S serial) }
    {
        match self.note(serial) {
            Some(note) => note.lengths(),
            None => None,
        }
    }

    /// The groups that the article with this serial was filed in, if there is one, including those that it was removed
    /// from.
    pub fn groups_of(&self, serial: u64) -> Option<&[Text]>
        ensures { (S : Spool) → Indexes S self.now
            → option_map (λ names. names.now) result ≡ option_map (λ a. a.groups) (article_with S serial) }
    {
        match self.note(serial) {
            Some(note) => note.groups(),
            None => None,
        }
    }

    /// The moment of the article with this serial, if there is one, in seconds since 1970.
    pub fn moment(&self, serial: u64) -> Option<u64>
        ensures { (S : Spool) → Indexes S self.now → result ≡ option_map (λ a. a.moment) (article_with S serial) }
    {
        match self.note(serial) {
            Some(note) => note.moment(),
            None => None,
        }
    }

    /// The number of changes before the first article filed at `from` or later, in seconds since 1970; all changes if
    /// there is no such article. If `from` is 0 or negative, the answer is 0. It takes logarithmic time.
    pub fn older_than(&self, from: i64) -> u64
        ensures few { (S : Spool) → Indexes S self.now → result ≤ length S }
        ensures older { (S : Spool) → Indexes S self.now → (serial : ℕ) → serial ≤ result
            → IfSome (article_with S serial) (λ a. is_since from a.moment ≡ false) }
        ensures next { (S : Spool) → Indexes S self.now → is_since from 0 ≡ false → result < length S
            → option_map (λ a. is_since from a.moment) (article_with S (result + 1)) ≡ Some true }
        ensures none { is_since from 0 ≡ true → result ≡ 0 }
    {
        match u64::try_from(from) {
            Ok(moment) => moments_below(&self.latest, moment) as u64,
            Err(_) => 0,
        }
    }

    /// The number of articles up to this serial that were filed in the group, which is the number of the last of them.
    pub fn number_in(&self, group: &[u8], serial: u64) -> u64
        ensures { (host : Octets) (S : Spool) → IsLawful host S → Indexes S self.now → result ≡ number_upto S group.now serial }
    {
        match self.group(group) {
            Some(group) => group.number_of(serial),
            None => 0,
        }
    }

    /// Whether the article with this serial, which was filed in the group, is still in it.
    pub fn is_in(&self, group: &[u8], serial: u64) -> bool
        ensures { (host : Octets) (S : Spool) → IsLawful host S → Indexes S self.now → result ≡ is_still_in S serial group.now }
    {
        match self.group(group) {
            Some(group) => group.low() <= group.number_of(serial),
            None => false,
        }
    }

    /// The serial of the expiry that removed the article with this serial from the group that it was filed in, or 0 if
    /// none did.
    pub fn taken_at(&self, group: &[u8], serial: u64) -> u64
        ensures { (host : Octets) (S : Spool) → IsLawful host S → Indexes S self.now
            → result ≡ expired_at S group.now (number_upto S group.now serial) }
    {
        self.expired_at(group, self.number_in(group, serial))
    }

    /// The serial of the expiry that removed the article with this serial from its last group. `None` if it is in a
    /// group, or if no article has this serial.
    pub fn gone_at(&self, serial: u64) -> Option<u64>
        ensures { (host : Octets) (S : Spool) → IsLawful host S → Indexes S self.now → result ≡ gone_with S serial }
    {
        match self.groups_of(serial) {
            Some(groups) => {
                if self.is_in_any(groups, serial) {
                    return None;
                }
                Some(self.last_taken(groups, serial))
            }
            None => None,
        }
    }

    /// Whether the article with this serial is still in one of the groups that it was filed in.
    fn is_in_any(&self, groups: &[Text], serial: u64) -> bool
        ensures { (host : Octets) (S : Spool) → IsLawful host S → Indexes S self.now → result ≡ list_any (is_still_in S serial) groups.now }
    {
        for name in groups {
            if self.is_in(name.as_slice(), serial) {
                return true;
            }
        }
        false
    }

    /// The greatest serial of the expiries that removed the article with this serial from the groups that it was filed
    /// in.
    fn last_taken(&self, groups: &[Text], serial: u64) -> u64
        ensures { (host : Octets) (S : Spool) → IsLawful host S → Indexes S self.now
            → result ≡ greatest (map (λ g. expired_at S g (number_upto S g serial)) groups.now) }
    {
        let mut last: u64 = 0;
        for name in groups {
            last = last.max(self.taken_at(name.as_slice(), serial));
        }
        last
    }
}

/// The note of the change with this serial.
pub(crate) fn note_in(notes: &[Note], serial: u64) -> Option<&Note>
    ensures { option_map (λ n. n.now) result ≡ note_at notes.now serial }
{
    if serial == 0 || (notes.len() as u64) < serial {
        return None;
    }
    Some(&notes[(serial - 1) as usize])
}
