//! The index of a spool in memory: what its look-ups need besides the files, always equal to the list of changes. And the places
//! of the spool's files, so that a look-up reads a file without a search by its name.
#![tactic(auto)]

ghost use Rattle.std.specs.Prelude.{◌≡◌, ◌+◌, ◌-◌, ◌^◌, ◌<◌, ◌≤◌, ◌∷◌, ◌++◌, [], false, map, length, option_map, slice_get, Some, IfSome};
ghost use Rattle.std.specs.Prelude.{OnOk, OnErr, bytes_eq, is_some};
ghost use Rattle.std.specs.List.{All, list_any};
ghost use Rattle.std.specs.Option.{option_and_then};
ghost use Rattle.model.specs.Stream.{Octets};
ghost use Rattle.model.specs.Article as article;
ghost use Rattle.model.specs.Indexed.{group_index};
ghost use Rattle.model.specs.Lawful.{IsLawful, MayExpire, MayFile, MayMake};
ghost use Rattle.model.specs.Spool.{Spool, by_id, by_number, expired_at, group_named, groups};
ghost use Rattle.model.specs.declared.change.Change.{Change};
ghost use Rattle.spool_groups.specs.Shown.{shown};
ghost use Rattle.spool_groups.specs.Filing.{AreLineSizes, EndBelow};
ghost use Rattle.spool_groups.specs.Naming.{heads};
ghost use Rattle.spool_index.specs.Kept.{lengths_of};

mod article_look_ups;
mod ids;
mod latest;
mod laws;
mod news;
mod note;
mod places;
mod prints;
mod views;

use ids::Ids;
use latest::push_latest;
pub use laws::{places_are_by_name, places_grow_with_the_spool};
use model::{Envelope, NewGroup, Text};
pub use note::{Lengths, Note};
pub use places::{ChangePlace, Places};
use spool_groups::{Group, Keys, expire_one, place_of, push_lines, reserve_lines};
use std::alloc::{AllocError, Global};
use std::marker::Model;

/// What is kept in memory besides the files of a spool.
#[derive(Drop)]
pub struct Index {
    alloc: Global,
    notes: Vec<Note>,
    /// for each change, the latest moment of an article up to it
    latest: Vec<u64>,
    groups: Vec<Group>,
    /// the places of the groups by their names
    places: Keys,
    /// the serials of the articles by their ids, which stand in the notes
    ids: Ids,
}

impl Model for Index {
    ghost use Rattle.std.specs.Prelude.{length, map};
    ghost use Rattle.spool_groups.specs.Shown.{shown};
    ghost use Rattle.spool_groups.specs.Naming.{AreNamed, heads};
    ghost use Rattle.spool_index.specs.Ids.{AreUpTo};
    ghost use Rattle.spool_index.specs.Latest.{AreLatest};
    ghost use Rattle.spool_index.specs.View.{IndexView};

    ghost Value = { IndexView };

    ghost view = { λ x. record { notes = x.notes.items; groups = map shown x.groups.items; ids = x.ids } };

    ghost invariant = { λ x. AreNamed x.places (heads (map shown x.groups.items)) × AreLatest x.latest.items x.notes.items
        × AreUpTo (length x.notes.items) x.ids };
}

impl Index {
    ghost use Rattle.spool_index.specs.View.{Indexes};

    /// The index of an empty spool. It takes no memory.
    pub fn new(alloc: Global) -> Index
        ensures { Indexes [] result }
    {
        Index {
            alloc,
            notes: Vec::new(alloc),
            latest: Vec::new(alloc),
            groups: Vec::new(alloc),
            places: Keys::new(alloc),
            ids: Ids::new(alloc),
        }
    }

    /// The number of changes.
    pub fn len(&self) -> u64
        ensures { (S : Spool) → Indexes S self.now → result ≡ length S }
    {
        self.notes.len() as u64
    }

    /// The groups, in rising serial.
    pub fn groups(&self) -> &[Group]
        ensures kept { map shown result.now ≡ self.now.groups }
        ensures spool { (S : Spool) → Indexes S self.now → map shown result.now ≡ map (group_index S) (groups S) }
    {
        self.groups.as_slice()
    }

    /// The place of the group with this name among the groups, from 0.
    pub fn place(&self, name: &[u8]) -> Option<usize>
        ensures here { is_some result ≡ list_any (bytes_eq name.now) (heads self.now.groups) }
        ensures there { IfSome result (λ k. slice_get (heads self.now.groups) k ≡ Some name.now) }
        ensures spool { (S : Spool) → Indexes S self.now → option_and_then (slice_get (groups S)) result ≡ group_named S name.now }
    {
        place_of(&self.places, &self.groups, name)
    }

    /// The group with this name.
    pub fn group(&self, name: &[u8]) -> Option<&Group>
        ensures here { is_some result ≡ list_any (bytes_eq name.now) (heads self.now.groups) }
        ensures spool { (S : Spool) → Indexes S self.now
            → option_map (λ g. shown g.now) result ≡ option_map (group_index S) (group_named S name.now) }
    {
        match place_of(&self.places, &self.groups, name) {
            Some(place) => Some(&self.groups[place]),
            None => None,
        }
    }

    /// The serial of the article that is in the group under this number; `None` if the group does not exist.
    pub fn by_number(&self, group: &[u8], number: u64) -> Option<u64>
        ensures { (host : Octets) (S : Spool) → IsLawful host S → Indexes S self.now
            → result ≡ option_map (λ a. a.serial) (by_number S group.now number) }
    {
        match self.group(group) {
            Some(group) => group.by_number(number),
            None => None,
        }
    }

    /// The serial of the article with this message-id, even if it was removed from its groups.
    pub fn by_id(&self, wanted: &[u8]) -> Option<u64>
        ensures { (S : Spool) → Indexes S self.now → result ≡ option_map (λ a. a.serial) (by_id S wanted.now) }
    {
        self.ids.get(&self.notes, wanted)
    }

    /// The serial of the expiry that removed this number from the group, or 0 if none did.
    pub fn expired_at(&self, group: &[u8], number: u64) -> u64
        ensures { (host : Octets) (S : Spool) → IsLawful host S → Indexes S self.now → result ≡ expired_at S group.now number }
    {
        match self.group(group) {
            Some(group) => group.expired_at(number),
            None => 0,
        }
    }

    /// Adds a group. Refused only for want of memory, and then nothing changes.
    pub fn push_group(&mut self, group: NewGroup) -> Result<(), AllocError>
        requires { list_any (bytes_eq group.name) (heads self.old.groups) ≡ false }
        ensures ok { OnOk result ((host : Octets) (S : Spool) → IsLawful host S → MayMake S group → Indexes S self.old
            → Indexes (S ++ Change.Group group ∷ []) self.new) }
        ensures err { OnErr result (self.new ≡ self.old) }
    {
        let serial = self.notes.len() as u64 + 1;
        let group = Group::new(self.alloc, serial, group);
        self.notes.reserve(1)?;
        self.latest.reserve(1)?;
        self.groups.reserve(1)?;
        self.places.insert(group.name(), self.groups.len() as u64)?;
        let Ok(()) = self.groups.push(group) else {
            unreachable!()
        };
        push_latest(&mut self.latest, &Note::Group);
        let Ok(()) = self.notes.push(Note::Group) else {
            unreachable!()
        };
        Ok(())
    }

    /// Adds an article, with the sizes of its overview lines in its groups. Refused only for want of memory, and then
    /// nothing changes.
    pub fn push_article(
        &mut self,
        id: &[u8],
        lengths: Lengths,
        envelope: Envelope,
        sizes: &[u64],
    ) -> Result<(), AllocError>
        requires few { length envelope.groups ≤ 16 }
        requires sizes { length sizes.now ≡ length envelope.groups }
        requires small { All (λ n. n < 2 ^ 32) sizes.now }
        requires fits { EndBelow (2 ^ 32) self.old.groups }
        ensures ok { OnOk result ((host : Octets) (S : Spool) (text : Octets)
            → MayFile host S (record { text = text; envelope = envelope }) → id.now ≡ article.id text → lengths ≡ lengths_of text
            → AreLineSizes S text envelope.groups sizes.now → Indexes S self.old
            → Indexes (S ++ Change.Article (record { text = text; envelope = envelope }) ∷ []) self.new) }
        ensures err { OnErr result (self.new ≡ self.old) }
    {
        let Envelope { groups, moment, .. } = envelope;
        let serial = self.notes.len() as u64 + 1;
        let own_id = Text::new(Vec::from_slice(self.alloc, id)?);
        self.notes.reserve(1)?;
        self.latest.reserve(1)?;
        reserve_lines(&mut self.groups, &self.places, groups.as_slice())?;
        self.ids.insert(id, serial)?;
        push_lines(
            &mut self.groups,
            &self.places,
            serial,
            groups.as_slice(),
            sizes,
        );
        let note = Note::Article {
            id: own_id,
            lengths,
            groups,
            moment,
        };
        push_latest(&mut self.latest, &note);
        let Ok(()) = self.notes.push(note) else {
            unreachable!()
        };
        Ok(())
    }

    /// Adds an expiry of an existing group. Refused only for want of memory, and then nothing changes.
    pub fn push_expiry(&mut self, name: &[u8], number: u64) -> Result<(), AllocError>
        requires { number < 2 ^ 63 }
        ensures ok { OnOk result ((host : Octets) (S : Spool) → MayExpire S (record { group = name.now; number = number })
            → Indexes S self.old → Indexes (S ++ Change.Expire (record { group = name.now; number = number }) ∷ []) self.new) }
        ensures err { OnErr result (self.new ≡ self.old) }
    {
        let serial = self.notes.len() as u64 + 1;
        let group = Text::new(Vec::from_slice(self.alloc, name)?);
        self.notes.reserve(1)?;
        self.latest.reserve(1)?;
        expire_one(&mut self.groups, &self.places, name, serial, number)?;
        let note = Note::Expiry { group, number };
        push_latest(&mut self.latest, &note);
        let Ok(()) = self.notes.push(note) else {
            unreachable!()
        };
        Ok(())
    }
}
