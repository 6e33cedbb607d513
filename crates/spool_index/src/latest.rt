//! The latest moments of articles, up to each change. They rise, so the first change of a moment is found by binary
//! search.

ghost use Rattle.std.specs.Prelude.{◌≡◌, ◌<◌, ◌≤◌, ◌∷◌, ◌++◌, List, [], true, false, length, nat_lt, vec_len, vec_capacity};
ghost use Rattle.std.specs.List.Sorted.{IsPartitionPoint, IsPartitionedBy};
ghost use Rattle.spool_index.specs.Latest.{AreLatest};
ghost use Rattle.spool_index.specs.declared.note.Note.{Note};

use crate::note::Note;

/// Adds the latest moment up to one more change. There must be room for it.
pub(crate) fn push_latest(latest: &mut Vec<u64>, note: &Note)
    requires { vec_len latest.old < vec_capacity latest.old }
    ensures { (notes : List Note) → AreLatest latest.old.items notes → AreLatest latest.new.items (notes ++ note.now ∷ []) }
{
    let before = latest.last().copied().unwrap_or(0);
    let moment = note.moment().unwrap_or(0).max(before);
    let Ok(()) = latest.push(moment) else {
        unreachable!()
    };
}

/// The number of moments at the start that are below this one.
pub(crate) fn moments_below(latest: &[u64], moment: u64) -> usize
    ensures bound { result ≤ length latest.now }
    ensures partitioned { IsPartitionedBy (λ m. nat_lt m moment) latest.now
        → IsPartitionPoint (λ m. nat_lt m moment ≡ true) (λ m. nat_lt m moment ≡ false) latest.now result }
{
    latest.partition_point(|at| *at < moment)
}
