//! Slots of the directory: a name of 1 to 63 octets, after its length.

ghost use Rattle.std.specs.Prelude.{◌≡◌, ◌≤◌, length, slice_index, IfOk};
ghost use Rattle.model.specs.Files.{slot_octets, name_in};
ghost use Rattle.fs_layout.specs.Table.{IsName};

use crate::records::RECORD_SIZE;
use fs_blocks::put_part;
use std::alloc::{AllocError, Global};

/// The most octets that a name may have.
pub const NAME_MAX: usize = 63;

/// The slot of a name: its length, the name, and zeros.
pub fn slot_for(name: &[u8]) -> [u8; RECORD_SIZE]
    requires { IsName name.now }
    ensures { result ≡ slot_octets name.now }
{
    let mut slot = [0; RECORD_SIZE];
    slot[0] = name.len() as u8;
    put_part(&mut slot, 1, name);
    slot
}

/// The name in a slot.
pub fn name_of(alloc: Global, slot: &[u8]) -> Result<Vec<u8>, AllocError>
    requires whole { length slot.now ≡ 64 }
    requires few { slice_index slot.now 0 ≤ 63 }
    ensures { IfOk result (λ name. name.items ≡ name_in slot.now) }
{
    let end = 1 + slot[0] as usize;
    slot[1..end].to_vec(alloc)
}
