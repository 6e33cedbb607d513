//! Writes the gates of a volume, those of its format, its epoch and those of its segments, back as they were read. So
//! the first sync of an opening makes them durable. `specs/Gates.antt` says which device calls are made. docs/DECISIONS.md says
//! where this is needed: over a file.
#![tactic(auto)]

ghost use Rattle.std.specs.Prelude.{◌≡◌, ◌≢◌, ◌⊎◌, ◌+◌, ◌<◌, ◌≤◌, [], ◌∷◌, IfErr, IfOk, IsTrue, OnOk, length, slice_index};
ghost use Rattle.disk.specs.Calls.{Makes, Writes};
ghost use Rattle.disk.specs.Image.{part};
ghost use Rattle.model.specs.Volume.{IsSuperblock, number_at};
ghost use Rattle.journal_gates.specs.Gates.{AreGates, AreWithin, IsCount, IsLook, IsSeen, Leaves, WritesBack, gate_at, writes_from};

use disk::{Disk, DiskError};
use disk_numbers::zeros;
use journal_layout::layout::{BLOCK, EPOCH_AT, FORMAT_2_AT, FORMAT_3_AT, gate_block, start_of};
use journal_layout::read_superblock;
use std::alloc::Global;

/// The most gates that a volume has: those of formats 2 and 3, the epoch, and those of eight segments.
const MOST_GATES: usize = 11;

/// Reads the octet of each gate of a volume, with one read each. Then it writes each octet back to its place,
/// with one write each, in rising order. It never syncs. If the superblock is not that of a volume, it writes nothing
/// and answers `Ok`.
///
/// `Fault` if the device failed in a call, `Memory` if an allocation was refused, here or to the device. A refused read
/// leaves nothing written. No write follows a refused one.
///
/// What a read gives stays as it was. Until a sync a crash may leave any octets at the gates, as after each write.
pub fn write_gates_back<D: Disk>(alloc: Global, disk: &mut D) -> Result<(), DiskError>
    ensures calls { WritesBack D.device D.write_grows D.sync_grows result disk.old disk.new }
    ensures leaves { Leaves result (D.device disk.old) (D.device disk.new) }
{
    match zeros(alloc, BLOCK) {
        Ok(mut superblock) => {
            let count = count_gates(disk, &mut superblock)?;
            let mut gates = [0; MOST_GATES];
            write_back(disk, &mut gates[..count])
        }
        Err(_) => Err(DiskError::Memory),
    }
}

// Reads the octet of each gate, and then writes each back.
fn write_back<D: Disk>(disk: &mut D, gates: &mut [u8]) -> Result<(), DiskError>
    requires few { length gates.old ≤ 11 }
    requires within { AreWithin (length gates.old) (D.device disk.old).size }
    requires count { IsTrue (D.device disk.old).tells → IsCount (length gates.old) (D.device disk.old) }
    ensures calls { WritesBack D.device D.write_grows D.sync_grows result disk.old disk.new }
    ensures leaves { Leaves result (D.device disk.old) (D.device disk.new) }
{
    read_gates(disk, gates)?;
    write_gates(disk, gates)
}

// The number of gates: 0 if the device holds no volume.
fn count_gates<D: Disk>(disk: &mut D, superblock: &mut Vec<u8>) -> Result<usize, DiskError>
    requires { length superblock.old.items ≡ 4096 }
    ensures look { IsLook (D.device disk.old) (D.device disk.new) }
    ensures seen { OnOk result (IsSeen (D.device disk.old) (D.device disk.new)) }
    ensures few { IfOk result (λ count. count ≤ 11) }
    ensures within { IfOk result (λ count. AreWithin count (D.device disk.old).size) }
    ensures count { IsTrue (D.device disk.old).tells → IfOk result (λ count. IsCount count (D.device disk.old)) }
    ensures fault { IfErr result (λ error. (error ≡ DiskError.Fault) × ((D.device disk.new).failures ≢ (D.device disk.old).failures)) }
{
    let size = disk.len();
    if size < BLOCK as u64 {
        return Ok(0);
    }
    read_first(disk, superblock)?;
    Ok(count_told(superblock.as_slice(), size))
}

// Reads the first block.
fn read_first<D: Disk>(disk: &mut D, block: &mut Vec<u8>) -> Result<(), DiskError>
    requires room { length block.old.items ≡ 4096 }
    requires within { 4096 ≤ (D.device disk.old).size }
    ensures room { length block.new.items ≡ 4096 }
    ensures look { IsLook (D.device disk.old) (D.device disk.new) }
    ensures seen { OnOk result (IsSeen (D.device disk.old) (D.device disk.new)) }
    ensures value { IsTrue (D.device disk.old).tells → OnOk result (block.new.items ≡ part 0 4096 (D.device disk.old).content) }
    ensures fault { IfErr result (λ error. (error ≡ DiskError.Fault) × ((D.device disk.new).failures ≢ (D.device disk.old).failures)) }
{
    disk.read(0, block.as_mut_slice())
}

// The number of gates of the volume with this superblock, on a device of `size` octets.
fn count_told(superblock: &[u8], size: u64) -> usize
    requires { length superblock.now ≡ 4096 }
    ensures count { (IsSuperblock superblock.now size × (result ≡ number_at 16 4 superblock.now + 3))
        ⊎ ((IsSuperblock superblock.now size → ⊥) × (result ≡ 0)) }
    ensures few { result ≤ 11 }
    ensures within { AreWithin result size }
{
    match read_superblock(superblock, size) {
        Some(volume) => volume.segments as usize + 3,
        None => 0,
    }
}

// The place of a gate: first those of formats 2 and 3, then the epoch, then those of the segments.
#[tactic(auto, unfolding(crate::specs::Gates::gate_at))]
fn place_of(gate: u32) -> u64
    requires { gate < 11 }
    ensures { result ≡ gate_at gate }
{
    if gate == 0 {
        FORMAT_2_AT as u64
    } else if gate == 1 {
        FORMAT_3_AT as u64
    } else if gate == 2 {
        EPOCH_AT as u64
    } else {
        start_of(gate_block(gate - 3))
    }
}

// Reads the octet of each gate.
fn read_gates<D: Disk>(disk: &mut D, gates: &mut [u8]) -> Result<(), DiskError>
    requires few { length gates.old ≤ 11 }
    requires within { AreWithin (length gates.old) (D.device disk.old).size }
    ensures look { IsLook (D.device disk.old) (D.device disk.new) }
    ensures seen { OnOk result (IsSeen (D.device disk.old) (D.device disk.new)) }
    ensures gates { IsTrue (D.device disk.old).tells → OnOk result (AreGates gates.new (D.device disk.old).content) }
    ensures fault { IfErr result (λ error. (error ≡ DiskError.Fault) × ((D.device disk.new).failures ≢ (D.device disk.old).failures)) }
{
    for i in 0..gates.len() {
        gates[i] = read_gate(disk, i as u32)?;
    }
    Ok(())
}

fn read_gate<D: Disk>(disk: &mut D, gate: u32) -> Result<u8, DiskError>
    requires low { gate < 11 }
    requires within { gate_at gate < (D.device disk.old).size }
    ensures look { IsLook (D.device disk.old) (D.device disk.new) }
    ensures seen { OnOk result (IsSeen (D.device disk.old) (D.device disk.new)) }
    ensures value { IsTrue (D.device disk.old).tells
        → IfOk result (λ octet. octet ≡ slice_index (D.device disk.old).content (gate_at gate)) }
    ensures fault { IfErr result (λ error. (error ≡ DiskError.Fault) × ((D.device disk.new).failures ≢ (D.device disk.old).failures)) }
{
    let mut octet = [0];
    disk.read(place_of(gate), &mut octet)?;
    Ok(octet[0])
}

// Writes an octet to each gate.
fn write_gates<D: Disk>(disk: &mut D, gates: &[u8]) -> Result<(), DiskError>
    requires few { length gates.now ≤ 11 }
    requires within { AreWithin (length gates.now) (D.device disk.old).size }
    ensures { Makes D.device D.write_grows D.sync_grows (writes_from 0 gates.now) result disk.old disk.new }
{
    for i in 0..gates.len() {
        write_gate(disk, i as u32, gates[i])?;
    }
    Ok(())
}

fn write_gate<D: Disk>(disk: &mut D, gate: u32, octet: u8) -> Result<(), DiskError>
    requires low { gate < 11 }
    requires within { gate_at gate < (D.device disk.old).size }
    ensures { Writes D.write_grows (gate_at gate) (octet ∷ []) result (D.device disk.old) (D.device disk.new) }
{
    disk.write(place_of(gate), &[octet])
}
