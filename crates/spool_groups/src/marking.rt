//! Marks the articles that are in groups whose names a wildmat matches. The name of each group is matched once, and that
//! of the first one that the wildmat matches twice.

ghost use Rattle.std.specs.Prelude.{◌≡◌, ◌+◌, ◌<◌, ◌==◌, ◌||◌, ℕ, IsTrue, false, length, map, slice_index_or};
ghost use Rattle.std.specs.List.{list_any};
ghost use Rattle.model.specs.Names as model;
ghost use Rattle.spool_groups.specs.Finding.{EachRises, Rise, contains, is_matching};
ghost use Rattle.spool_groups.specs.Shown.{shown};

use crate::group::{Group, Line, lines_up_to};
use text_names::wildmat_matches;

/// The groups from the first one on whose name the wildmat matches and that has an article after the first ones; none if
/// there is no such group. Then no article is to be marked, and a caller needs no memory for marks.
pub fn matching_from<'a>(groups: &'a [Group], wildmat: &[u8], older: u64) -> &'a [Group]
    requires { IsTrue (model.is_wildmat wildmat.now) }
    ensures rise { EachRises (map shown groups.now) → EachRises (map shown result.now) }
    ensures same { EachRises (map shown groups.now) → (serial : ℕ) → older < serial
        → list_any (is_matching wildmat.now serial) (map shown result.now)
        ≡ list_any (is_matching wildmat.now serial) (map shown groups.now) }
{
    for place in 0..groups.len() {
        if has_match(&groups[place], wildmat, older) {
            return &groups[place..];
        }
    }
    &groups[groups.len()..]
}

/// Whether the wildmat matches the name of the group, and it has an article after the first ones. A group with no such
/// article is not matched.
fn has_match(group: &Group, wildmat: &[u8], older: u64) -> bool
    requires { IsTrue (model.is_wildmat wildmat.now) }
    ensures { Rise (shown group.now).filed → result ≡ false → (serial : ℕ) → older < serial
        → is_matching wildmat.now serial (shown group.now) ≡ false }
{
    !lines_after(group, older).is_empty() && wildmat_matches(wildmat, group.name())
}

/// Marks each article that is in a group whose name the wildmat matches. The first mark is of the change after the first
/// `older` ones, the next one of the change after that, and so on. The other marks stay as they were.
pub fn mark_groups(groups: &[Group], wildmat: &[u8], older: u64, marks: &mut [bool])
    requires { IsTrue (model.is_wildmat wildmat.now) }
    ensures { EachRises (map shown groups.now) → (k : ℕ) → k < length marks.old → slice_index_or marks.new k false
        ≡ (slice_index_or marks.old k false || list_any (is_matching wildmat.now (older + 1 + k)) (map shown groups.now)) }
{
    for group in groups {
        mark_if_matching(group, wildmat, older, marks);
    }
}

/// Marks each article that is in the group, if the wildmat matches the name of the group. The first mark is of the
/// change after the first ones. A group with no article after these is not matched.
fn mark_if_matching(group: &Group, wildmat: &[u8], older: u64, marks: &mut [bool])
    requires { IsTrue (model.is_wildmat wildmat.now) }
    ensures { Rise (shown group.now).filed → (k : ℕ) → k < length marks.old → slice_index_or marks.new k false
        ≡ (slice_index_or marks.old k false || is_matching wildmat.now (older + 1 + k) (shown group.now)) }
{
    let lines = lines_after(group, older);
    if !lines.is_empty() && wildmat_matches(wildmat, group.name()) {
        mark_lines(lines, older, marks);
    }
}

/// The lines of the articles that are in the group, without those of the first changes. It takes logarithmic time.
fn lines_after(group: &Group, older: u64) -> &[Line]
    ensures some { Rise (shown group.now).filed → (serial : ℕ) → older < serial
        → contains serial (shown group.now) ≡ list_any (λ l. l.serial == serial) result.now }
    ensures none { Rise (shown group.now).filed → length result.now ≡ 0 → (serial : ℕ) → older < serial
        → contains serial (shown group.now) ≡ false }
{
    let expired = (group.low.saturating_sub(1) as usize).min(group.lines.len());
    let first = lines_up_to(&group.lines, older).max(expired);
    &group.lines[first..]
}

/// Marks the article of each line. The first mark is of the change after the first ones.
fn mark_lines(lines: &[Line], older: u64, marks: &mut [bool])
    ensures { (k : ℕ) → k < length marks.old → slice_index_or marks.new k false
        ≡ (slice_index_or marks.old k false || list_any (λ l. l.serial == older + 1 + k) lines.now) }
{
    for line in lines {
        mark(line.serial, older, marks);
    }
}

/// Marks the change with this serial, unless it is one of the first ones. The first mark is of the change after these.
fn mark(serial: u64, older: u64, marks: &mut [bool])
    ensures { (k : ℕ) → k < length marks.old → slice_index_or marks.new k false
        ≡ (slice_index_or marks.old k false || serial == older + 1 + k) }
{
    if serial <= older {
        return;
    }
    let place = (serial - older - 1) as usize;
    if place < marks.len() {
        marks[place] = true;
    }
}
