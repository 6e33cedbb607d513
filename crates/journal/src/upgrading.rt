//! Makes a volume of format 1 or 2 one of format 3.

ghost use Rattle.std.specs.Prelude.{◌≡◌, ◌⊎◌, ◌+◌, ◌≤◌, [], ◌∷◌, IfErr, IsTrue, length};
ghost use Rattle.disk.specs.Calls.{Syncs, Writes};
ghost use Rattle.disk.specs.Image.{overwritten, part};
ghost use Rattle.model.specs.Volume.{epoch_in, format_in};

use crate::{Journal, JournalError};
use disk::{Disk, DiskError};
use journal_layout::layout::{FORMAT_3_AT, IS_FORMAT_3, put_octets};

impl<D: Disk> Journal<D> {
    ghost use Rattle.journal.specs.Journal.{IsReady};
    ghost use Rattle.journal.specs.Upgrading.{IsUnasked, Upgrades};

    /// Makes a volume of format 1 or 2 one of format 3: one write of that gate's octet, and one sync. No batch may be in
    /// flight. A crash at any moment leaves the label and the logical blocks as they were, in the format that was or in
    /// format 3.
    ///
    /// `Fault` halts the journal. `Memory` comes only from the device: a write that it refuses is not made, and nothing
    /// has changed; a sync that it refuses halts the journal, since the octet may or may not be on the device.
    /// docs/FORMATS.md says what the octet means.
    pub fn upgrade(&mut self) -> Result<(), JournalError>
        requires ready { IsReady self.old }
        requires older { self.old.format ≤ 2 }
        ensures upgrades { Upgrades D.device self.old self.new result }
        ensures memory { IfErr result (λ error. error ≡ JournalError.Memory
            → IsTrue D.sync_grows ⊎ (IsTrue D.write_grows × IsUnasked D.device self.old self.new)) }
    {
        match write_gate_of_format(&mut self.disk) {
            Ok(()) => {}
            Err(DiskError::Fault) => {
                self.halted = true;
                return Err(JournalError::Fault);
            }
            Err(DiskError::Memory) => return Err(JournalError::Memory),
        }
        match sync_gate_of_format(&mut self.disk) {
            Ok(()) => {
                open_gate(&mut self.superblock);
                Ok(())
            }
            Err(DiskError::Fault) => {
                self.halted = true;
                Err(JournalError::Fault)
            }
            Err(DiskError::Memory) => {
                self.halted = true;
                Err(JournalError::Memory)
            }
        }
    }
}

fn write_gate_of_format<D: Disk>(disk: &mut D) -> Result<(), DiskError>
    requires size { 150 ≤ (D.device disk.old).size }
    ensures { Writes D.write_grows 149 (3 ∷ []) result (D.device disk.old) (D.device disk.new) }
{
    disk.write(FORMAT_3_AT as u64, &[IS_FORMAT_3])
}

fn sync_gate_of_format<D: Disk>(disk: &mut D) -> Result<(), DiskError>
    ensures { Syncs D.sync_grows result (D.device disk.old) (D.device disk.new) }
{
    disk.sync()
}

// Puts the octet into the superblock in memory.
fn open_gate(superblock: &mut Vec<u8>)
    requires { length superblock.old.items ≡ 4096 }
    ensures octets { superblock.new.items ≡ overwritten 149 (3 ∷ []) superblock.old.items }
    ensures size { length superblock.new.items ≡ 4096 }
    ensures label { part 20 128 superblock.new.items ≡ part 20 128 superblock.old.items }
    ensures format { format_in superblock.new.items ≡ 3 }
    ensures epoch { epoch_in superblock.new.items ≡ epoch_in superblock.old.items }
{
    set_gate(superblock.as_mut_slice());
}

fn set_gate(superblock: &mut [u8])
    requires { length superblock.old ≡ 4096 }
    ensures octets { superblock.new ≡ overwritten 149 (3 ∷ []) superblock.old }
    ensures size { length superblock.new ≡ 4096 }
    ensures label { part 20 128 superblock.new ≡ part 20 128 superblock.old }
    ensures format { format_in superblock.new ≡ 3 }
    ensures epoch { epoch_in superblock.new ≡ epoch_in superblock.old }
{
    put_octets(superblock, FORMAT_3_AT, &[IS_FORMAT_3]);
}
