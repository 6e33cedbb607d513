//! Sets of block numbers. The time to clear a set grows with its members, not with the bound of the numbers.

ghost use Rattle.std.specs.Prelude.{◌≡◌, ℕ, ◌+◌, ◌-◌, ◌<◌, ◌≤◌, [], ◌∷◌, ◌++◌, length, slice_index, vec_capacity, IfOk, MatchOption};
ghost use Rattle.std.specs.List.{Contains};
ghost use Rattle.journal_volume.specs.Numbers.{Numbers, IsNumbers, IsIndex};

use std::alloc::{AllocError, Global};
use std::marker::Model;

/// Distinct numbers below a bound, in the order in which they were inserted.
#[derive(Drop)]
pub struct NumberSet {
    bound: u32,
    members: Vec<u32>,
    // for each number up to the highest that was ever a member, 1 more than its place among the members, or 0
    places: Vec<u32>,
}

impl Model for NumberSet {
    ghost Value = { Numbers };

    ghost view = { λ s. record { bound = s.bound; members = s.members.items } };

    ghost invariant = { λ s. IsIndex s.bound s.members.items s.places.items
        × (s.bound ≤ vec_capacity s.members) × (s.bound ≤ vec_capacity s.places) };
}

impl NumberSet {
    /// The empty set, with room for every number below the bound. Room that no member has needed takes address space alone.
    pub fn new(alloc: Global, bound: u32) -> Result<NumberSet, AllocError>
        ensures bound { IfOk result (λ s. s.bound ≡ bound) }
        ensures empty { IfOk result (λ s. s.members ≡ []) }
        ensures valid { IfOk result (λ s. IsNumbers s) }
    {
        Ok(NumberSet {
            bound,
            members: Vec::with_capacity(alloc, bound as usize)?,
            places: Vec::with_capacity(alloc, bound as usize)?,
        })
    }

    /// The members.
    pub fn as_slice(&self) -> &[u32]
        ensures { result.now ≡ self.now.members }
    {
        &self.members
    }

    /// The place of a number among the members, or `None` if it is not a member.
    pub fn place(&self, number: u32) -> Option<usize>
        requires { number < self.now.bound }
        ensures { MatchOption result
            (¬ (Contains self.now.members number))
            (λ i. (i < length self.now.members) × (slice_index self.now.members i ≡ number)) }
    {
        if self.places.len() <= number as usize {
            return None;
        }
        match self.places[number as usize] {
            0 => None,
            place => Some(place as usize - 1),
        }
    }

    /// Adds a number that is not a member, after the others.
    pub fn insert(&mut self, number: u32)
        requires below { number < self.old.bound }
        requires other { ¬ (Contains self.old.members number) }
        ensures added { self.new ≡ record { bound = self.old.bound; members = self.old.members ++ number ∷ [] } }
        ensures valid { IsNumbers self.new }
    {
        reach(&mut self.places, number as usize);
        self.members.push_reserved(number);
        self.places[number as usize] = self.members.len() as u32;
    }

    /// Removes all members.
    pub fn clear(&mut self)
        ensures cleared { self.new ≡ record { bound = self.old.bound; members = [] } }
        ensures valid { IsNumbers self.new }
    {
        forget(&mut self.places, &self.members);
        self.members.clear();
    }
}

// Lengthens the places by zeros, in the room that they have, until there is one for this number.
fn reach(places: &mut Vec<u32>, number: usize)
    requires { number < vec_capacity places.old }
    ensures there { number < length places.new.items }
    ensures same { (k : ℕ) → slice_index places.new.items k ≡ slice_index places.old.items k }
    ensures room { vec_capacity places.new ≡ vec_capacity places.old }
{
    for _place in places.len()..number + 1 {
        places.push_reserved(0);
    }
}

// Clears the places of these numbers. No other number has one.
fn forget(places: &mut [u32], numbers: &[u32])
    requires below { (i : ℕ) → i < length numbers.now → slice_index numbers.now i < length places.old }
    requires all { (k : ℕ) → k < length places.old → slice_index places.old k ≤ length numbers.now }
    requires these { (i : ℕ) → i < length numbers.now → slice_index places.old (slice_index numbers.now i) ≡ i + 1 }
    requires no_other { (k : ℕ) → 0 < slice_index places.old k → slice_index numbers.now (slice_index places.old k - 1) ≡ k }
    ensures { (k : ℕ) → slice_index places.new k ≡ 0 }
{
    for number in numbers {
        places[*number as usize] = 0;
    }
}
