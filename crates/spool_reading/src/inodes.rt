//! Inodes by the names of their files.

ghost use Rattle.std.specs.Prelude.{◌≡◌, [], ℕ, List, if◌then◌else◌, bytes_eq, Some, OnOk};
ghost use Rattle.model.specs.Indexed.{value_of};

use std::alloc::{AllocError, Global};
use std::collections::BTreeMap;
use std::marker::Model;

/// Inodes by the names of their files.
#[derive(Drop)]
pub struct Inodes {
    alloc: Global,
    numbers: BTreeMap<Vec<u8>, u32>,
}

impl Model for Inodes {
    ghost use Rattle.std.specs.Prelude.{List, ℕ, map};

    ghost Value = { List (List ℕ × ℕ) };

    ghost view = { λ x. map (λ e. (e.0.items, e.1)) x.numbers.entries };
}

impl Inodes {
    /// No inode under any name.
    pub fn new(alloc: Global) -> Inodes
        ensures { result ≡ [] }
    {
        Inodes {
            alloc,
            numbers: BTreeMap::new(alloc),
        }
    }

    /// The inode under this name, if there is one.
    pub fn get(&self, name: &[u8]) -> Option<u32>
        ensures { result ≡ value_of self.now name.now }
    {
        self.numbers.get(name).copied()
    }

    /// Puts an inode under a name, in place of any that was there. Refused only for want of memory.
    pub fn insert(&mut self, name: &[u8], at: u32) -> Result<(), AllocError>
        ensures { OnOk result ((q : List ℕ) → value_of self.new q ≡ (if bytes_eq q name.now then Some at else value_of self.old q)) }
    {
        let name = Vec::from_slice(self.alloc, name)?;
        let Ok(_) = self.numbers.insert(name, at) else {
            return Err(AllocError);
        };
        Ok(())
    }
}
