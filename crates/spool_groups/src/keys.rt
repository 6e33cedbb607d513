//! A map of keys to numbers.

ghost use Rattle.std.specs.Prelude.{◌≡◌, [], ℕ, List, if◌then◌else◌, bytes_eq, Some, OnOk, OnErr};
ghost use Rattle.model.specs.Indexed.{value_of};

use std::alloc::{AllocError, Global};
use std::collections::BTreeMap;
use std::marker::Model;

/// Numbers by their keys.
#[derive(Drop)]
pub struct Keys {
    alloc: Global,
    numbers: BTreeMap<Vec<u8>, u64>,
}

impl Model for Keys {
    ghost use Rattle.std.specs.Prelude.{List, ℕ, map};

    ghost Value = { List (List ℕ × ℕ) };

    ghost view = { λ x. map (λ e. (e.0.items, e.1)) x.numbers.entries };
}

impl Keys {
    /// A map without keys. It takes no memory.
    pub fn new(alloc: Global) -> Keys
        ensures { result ≡ [] }
    {
        Keys {
            alloc,
            numbers: BTreeMap::new(alloc),
        }
    }

    /// The number of a key; `None` if it has none.
    pub fn get(&self, key: &[u8]) -> Option<u64>
        ensures { result ≡ value_of self.now key.now }
    {
        self.numbers.get(key).copied()
    }

    /// Gives a key its number, in place of one that it had. Refused only for want of memory, and then nothing changes.
    pub fn insert(&mut self, key: &[u8], number: u64) -> Result<(), AllocError>
        ensures ok { OnOk result ((q : List ℕ) → value_of self.new q ≡ (if bytes_eq q key.now then Some number else value_of self.old q)) }
        ensures err { OnErr result (self.new ≡ self.old) }
    {
        let key = Vec::from_slice(self.alloc, key)?;
        let Ok(_) = self.numbers.insert(key, number) else {
            return Err(AllocError);
        };
        Ok(())
    }
}
