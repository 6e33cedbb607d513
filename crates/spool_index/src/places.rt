//! The places of a spool's files: that of each change's file by serial, and the inodes of the numbers and the overview of
//! each group. They are found in memory, so no call searches the directory for a name.

ghost use Rattle.std.specs.Prelude.{◌≡◌, ℕ, [], map, OnErr, OnOk};
ghost use Rattle.model.specs.Indexed.{ChangePlace as PlaceView, FilePlaces};
ghost use Rattle.spool_index.specs.Viewed.{place_of};
ghost use Rattle.spool_index.specs.Places.{with_change, with_group};

use std::alloc::{AllocError, Global};
use std::marker::Model;

/// Where the file of a change is.
#[derive(Clone, Copy, Drop)]
pub enum ChangePlace {
    /// It is the file of this inode.
    Alone(u32),
    /// It stands in the pack, the file of this inode, from this octet on, in this many octets.
    Packed { inode: u32, from: u32, size: u32 },
}

/// The places of a spool's files.
#[derive(Drop)]
pub struct Places {
    changes: Vec<ChangePlace>,
    numbers: Vec<u32>,
    overviews: Vec<u32>,
}

impl Model for Places {
    ghost use Rattle.model.specs.Indexed.{FilePlaces};
    ghost use Rattle.std.specs.Prelude.{map};
    ghost use Rattle.spool_index.specs.Viewed.{place_of};

    ghost Value = { FilePlaces };

    ghost view = { λ p. record { changes = map place_of p.changes.items; numbers = p.numbers.items; overviews = p.overviews.items } };
}

impl Places {
    /// The places of an empty spool. It takes no memory.
    pub fn new(alloc: Global) -> Places
        ensures { result ≡ record { changes = []; numbers = []; overviews = [] } }
    {
        Places {
            changes: Vec::new(alloc),
            numbers: Vec::new(alloc),
            overviews: Vec::new(alloc),
        }
    }

    /// The place of each change's file, by serial.
    pub fn changes(&self) -> &[ChangePlace]
        ensures { map place_of result.now ≡ self.now.changes }
    {
        self.changes.as_slice()
    }

    /// The inode of the numbers of each group, in rising serial.
    pub fn numbers(&self) -> &[u32]
        ensures { result.now ≡ self.now.numbers }
    {
        self.numbers.as_slice()
    }

    /// The inode of the overview of each group, in rising serial.
    pub fn overviews(&self) -> &[u32]
        ensures { result.now ≡ self.now.overviews }
    {
        self.overviews.as_slice()
    }

    /// Adds the place of the file of an article or an expiry. Refused only for want of memory, and then nothing
    /// changes.
    pub fn push_change(&mut self, at: ChangePlace) -> Result<(), AllocError>
        ensures ok { OnOk result (self.new ≡ with_change (place_of at) self.old) }
        ensures err { OnErr result (self.new ≡ self.old) }
    {
        self.changes.push(at)?;
        Ok(())
    }

    /// Adds the places of the files of a group: its record, its numbers, its overview. Refused only for want of memory,
    /// and then nothing changes.
    pub fn push_group(&mut self, at: u32, numbers: u32, overview: u32) -> Result<(), AllocError>
        ensures ok { OnOk result (self.new ≡ with_group at numbers overview self.old) }
        ensures err { OnErr result (self.new ≡ self.old) }
    {
        self.changes.reserve(1)?;
        self.numbers.reserve(1)?;
        self.overviews.push(overview)?;
        let Ok(()) = self.numbers.push(numbers) else {
            unreachable!()
        };
        let Ok(()) = self.changes.push(ChangePlace::Alone(at)) else {
            unreachable!()
        };
        Ok(())
    }

    /// Removes what the last `push_change` added.
    pub fn pop_change(&mut self)
        ensures { (old : FilePlaces) (at : PlaceView) → self.old ≡ with_change at old → self.new ≡ old }
    {
        let _ = self.changes.pop();
    }

    /// Removes what the last `push_group` added.
    pub fn pop_group(&mut self)
        ensures { (old : FilePlaces) (at numbers overview : ℕ) → self.old ≡ with_group at numbers overview old → self.new ≡ old }
    {
        let _ = self.changes.pop();
        let _ = self.numbers.pop();
        let _ = self.overviews.pop();
    }
}
