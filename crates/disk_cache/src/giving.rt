//! Gives the collected octets to the device.

ghost use Rattle.std.specs.Prelude.{◌≡◌, ◌≢◌, ◌⊎◌, ◌<◌, ◌≤◌, ℕ, ◌+◌, ◌*◌, ◌/◌, ◌^◌, Option, None, Some};
ghost use Rattle.std.specs.Prelude.{IfSome, IsNone, true, length, slice_index};
ghost use Rattle.std.specs.BTreeMap.{get};
ghost use Rattle.std.specs.Ordering.{nat_cmp};
ghost use Rattle.disk.specs.Calls.{Makes};
ghost use Rattle.disk_cache.specs.Runs.{calls_of, runs_from, writes_of};
ghost use Rattle.disk_cache.specs.Slots.{AreWhole, IsArranged, IsNextRun, cell, is_collected, places};
ghost use Rattle.disk_cache.specs.Taken.{taken};

use crate::collected::{BLOCK, COLLECTED, Collected, Fill, Slots};
use disk::{Disk, DiskError};
use memchr::memchr;
use std::ops::Range;

/// Gives the device all collected octets, and syncs it. It stops at the first call that is refused. What was collected
/// stays.
pub fn give_and_sync<D: Disk>(disk: &mut D, collected: &mut Collected) -> Result<(), DiskError>
    requires { (k : ℕ) → (D.device disk.old).size ≤ k → taken collected.old k ≡ None }
    ensures makes { (n : ℕ) → ((k : ℕ) → n ≤ k → taken collected.old k ≡ None)
        → Makes D.device D.write_grows D.sync_grows (calls_of (places (taken collected.old) n)) result disk.old disk.new }
    ensures same { (k : ℕ) → taken collected.new k ≡ taken collected.old k }
{
    collected.arrange();
    match give(disk, collected) {
        Ok(()) => disk.sync(),
        Err(error) => Err(error),
    }
}

// Gives the slots of adjacent blocks, in rising place.
fn give<D: Disk>(disk: &mut D, collected: &Collected) -> Result<(), DiskError>
    requires arranged { IsArranged (get nat_cmp collected.now.slots) }
    requires fits { (k : ℕ) → (D.device disk.old).size ≤ k → taken collected.now k ≡ None }
    ensures { (n : ℕ) → ((k : ℕ) → n ≤ k → taken collected.now k ≡ None)
        → Makes D.device D.write_grows D.sync_grows (writes_of (runs_from 0 (places (taken collected.now) n))) result disk.old disk.new }
{
    let mut from = 0;
    while let Some(slots) = collected.next_slots(from) {
        match give_slots(disk, &slots) {
            Ok(()) => from = slots.block + slots.fills.len(),
            Err(error) => return Err(error),
        }
    }
    Ok(())
}

// Gives the runs of these slots.
fn give_slots<D: Disk>(disk: &mut D, slots: &Slots<'_>) -> Result<(), DiskError>
    requires whole { AreWhole slots.now.fills.now slots.now.flags.now slots.now.octets.now }
    requires some { 0 < length slots.now.fills.now }
    requires below { slots.now.block + length slots.now.fills.now ≤ 2 ^ 52 }
    requires fits { (i : ℕ) → i < length slots.now.flags.now → is_collected slots.now.fills.now slots.now.flags.now i ≡ true
        → 4096 * slots.now.block + i < (D.device disk.old).size }
    ensures size { (D.device disk.new).size ≡ (D.device disk.old).size }
    ensures makes { Makes D.device D.write_grows D.sync_grows (writes_of (runs_from (4096 * slots.now.block)
        (places (cell slots.now.fills.now slots.now.flags.now slots.now.octets.now) (length slots.now.flags.now)))) result
        disk.old disk.new }
{
    let start = BLOCK as u64 * slots.block as u64;
    let mut from = 0;
    while let Some(next) = next_run(slots, from) {
        match disk.write(
            start + next.start as u64,
            &slots.octets[next.start..next.end],
        ) {
            Ok(()) => from = next.end,
            Err(error) => return Err(error),
        }
    }
    Ok(())
}

// The next run of collected octets, from a place of the slots on.
fn next_run(slots: &Slots<'_>, from: usize) -> Option<Range<usize>>
    requires whole { AreWhole slots.now.fills.now slots.now.flags.now slots.now.octets.now }
    requires within { from ≤ length slots.now.flags.now }
    ensures none { IsNone result → (k : ℕ) → from ≤ k → k < length slots.now.flags.now
        → is_collected slots.now.fills.now slots.now.flags.now k ≡ true → ⊥ }
    ensures some { IfSome result (λ run. IsNextRun slots.now.fills.now slots.now.flags.now from run.start run.end) }
{
    let start = next_at(slots, from, true);
    if start == slots.flags.len() {
        return None;
    }
    Some(Range {
        start,
        end: next_at(slots, start, false),
    })
}

// The first place from one on where an octet was collected, or where none was; else the end.
fn next_at(slots: &Slots<'_>, from: usize, is_wanted: bool) -> usize
    requires whole { AreWhole slots.now.fills.now slots.now.flags.now slots.now.octets.now }
    requires within { from ≤ length slots.now.flags.now }
    ensures low { from ≤ result }
    ensures high { result ≤ length slots.now.flags.now }
    ensures none { (k : ℕ) → from ≤ k → k < result → is_collected slots.now.fills.now slots.now.flags.now k ≡ is_wanted → ⊥ }
    ensures found { (result ≡ length slots.now.flags.now) ⊎ (is_collected slots.now.fills.now slots.now.flags.now result ≡ is_wanted) }
{
    let mut at = from;
    while at < slots.flags.len() {
        let past = at / BLOCK * BLOCK + BLOCK;
        let found = next_in_slot(slots, at, is_wanted);
        if found < past {
            return found;
        }
        at = past;
    }
    at
}

// The same within the slot of this place; else the slot's end.
fn next_in_slot(slots: &Slots<'_>, at: usize, is_wanted: bool) -> usize
    requires whole { AreWhole slots.now.fills.now slots.now.flags.now slots.now.octets.now }
    requires within { at < length slots.now.flags.now }
    ensures low { at ≤ result }
    ensures high { result ≤ 4096 * (at / 4096) + 4096 }
    ensures none { (k : ℕ) → at ≤ k → k < result → is_collected slots.now.fills.now slots.now.flags.now k ≡ is_wanted → ⊥ }
    ensures found { (result ≡ 4096 * (at / 4096) + 4096) ⊎ (is_collected slots.now.fills.now slots.now.flags.now result ≡ is_wanted) }
{
    let past = at / BLOCK * BLOCK + BLOCK;
    let fill = slots.fills[at / BLOCK];
    match fill {
        Fill::Nothing if is_wanted => past,
        Fill::Whole if !is_wanted => past,
        Fill::Nothing | Fill::Whole => at,
        Fill::Partly if is_wanted => next_flag(&slots.flags[..past], at),
        Fill::Partly => past_flags(&slots.flags[..past], at),
    }
}

// The first place from one on whose flag says that its octet was collected; else the end.
fn next_flag(flags: &[u8], from: usize) -> usize
    requires { from ≤ length flags.now }
    ensures low { from ≤ result }
    ensures high { result ≤ length flags.now }
    ensures none { (k : ℕ) → from ≤ k → k < result → slice_index flags.now k ≡ 1 → ⊥ }
    ensures found { (result ≡ length flags.now) ⊎ (slice_index flags.now result ≡ 1) }
{
    match memchr(COLLECTED, &flags[from..]) {
        Some(step) => from + step,
        None => flags.len(),
    }
}

// The first place from one on whose flag says that its octet was not collected; else the end.
fn past_flags(flags: &[u8], from: usize) -> usize
    requires { from ≤ length flags.now }
    ensures low { from ≤ result }
    ensures high { result ≤ length flags.now }
    ensures each { (k : ℕ) → from ≤ k → k < result → slice_index flags.now k ≡ 1 }
    ensures found { (result ≡ length flags.now) ⊎ (slice_index flags.now result ≢ 1) }
{
    let mut past = from;
    while past < flags.len() && flags[past] == COLLECTED {
        past += 1;
    }
    past
}
