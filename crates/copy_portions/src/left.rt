//! The blocks that a copy lacks.

ghost use Rattle.std.specs.Prelude.{◌≡◌, ◌↔◌, ◌<◌, ◌≤◌, ◌^◌, ℕ, [], ◌∷◌, length, replicate, slice_index, false, true, IfOk, IsTrue};
ghost use Rattle.copy_portions.specs.Copying.{LacksNone, flagged, is_lacked};

use std::alloc::{AllocError, Global};
use std::marker::Model;

/// Which of its blocks a copy lacks.
#[derive(Drop)]
pub struct Left {
    lacked: Vec<bool>,
    // no block before this one is lacked
    first: usize,
    // where `next` goes on
    at: usize,
}

impl Model for Left {
    ghost use Rattle.std.specs.Prelude.{◌≡◌, ◌<◌, ◌≤◌, ◌^◌, ℕ, Bool, List, length, false};
    ghost use Rattle.copy_portions.specs.Copying.{is_lacked};

    ghost Value = { List Bool };

    ghost view = { λ l. l.lacked.items };

    ghost invariant = { λ l. (l.first ≤ length l.lacked.items) × (l.at ≤ length l.lacked.items) × (length l.lacked.items < 2 ^ 32)
        × ((k : ℕ) → k < l.first → is_lacked l.lacked.items k ≡ false) };
}

impl Left {
    /// All of that many blocks. Refused only for want of memory.
    pub fn all(alloc: Global, count: u32) -> Result<Left, AllocError>
        ensures { IfOk result (λ l. l ≡ replicate count true) }
    {
        Ok(Left {
            lacked: vec![in alloc; true; count as usize]?,
            first: 0,
            at: 0,
        })
    }

    /// The copy lacks these from now on, too. Numbers of other blocks than it has are passed over.
    pub fn add(&mut self, numbers: &[u32])
        ensures { self.new ≡ flagged true self.old numbers.now }
    {
        for number in numbers {
            self.set(*number, true);
        }
    }

    /// The copy has got these.
    pub fn remove(&mut self, numbers: &[u32])
        ensures { self.new ≡ flagged false self.old numbers.now }
    {
        for number in numbers {
            self.set(*number, false);
        }
    }

    /// Puts the next blocks that the copy lacks to the front of `into`, as many as there is room for, and answers how many these are. It
    /// goes on where it ended, and begins again after the last block: so fewer than there is room for are the last ones of a pass.
    pub fn next(&mut self, into: &mut [u32]) -> usize
        ensures same { self.new ≡ self.old }
        ensures room { length into.new ≡ length into.old }
        ensures few { result ≤ length into.old }
        ensures lacked { (i : ℕ) → i < result → is_lacked self.old (slice_index into.new i) ≡ true }
    {
        let mut found = 0;
        for place in self.at..self.lacked.len() {
            if found == into.len() {
                self.at = place;
                return found;
            }
            if self.lacked[place] {
                into[found] = place as u32;
                found += 1;
            }
        }
        self.at = 0;
        found
    }

    /// Whether the copy lacks none. All in all this takes time for each block that was lacked, and once for the others.
    pub fn is_empty(&mut self) -> bool
        ensures same { self.new ≡ self.old }
        ensures none { IsTrue result ↔ LacksNone self.old }
    {
        for place in self.first..self.lacked.len() {
            if self.lacked[place] {
                self.first = place;
                return false;
            }
        }
        self.first = self.lacked.len();
        true
    }

    // Says of a block whether the copy lacks it.
    fn set(&mut self, number: u32, is_lacked: bool)
        ensures { self.new ≡ flagged is_lacked self.old (number ∷ []) }
    {
        let place = number as usize;
        if place >= self.lacked.len() {
            return;
        }
        self.lacked[place] = is_lacked;
        if is_lacked && place < self.first {
            self.first = place;
        }
    }
}
