//! Expiries by age, as lines of the operator ask for them.

ghost use Rattle.std.specs.Prelude.{◌≡◌, IfOk, IfErr, IfNone, IfSome, None, Some};
ghost use Rattle.server_operator_lines.specs.Ages.{AsksNoAges, IsAgesLine, ages_of, parts_of};

use program_script::{ParseError, days, split_word};
use std::alloc::Global;
use text_names::{NameError, Wildmat};

/// What a line begins with that takes articles out by their age.
const EXPIRE_OLDER: &[u8] = b"expire-older ";

/// What a line begins with that only says which these are.
const LIST_OLDER: &[u8] = b"list-older ";

/// The wildmat of all groups.
const ALL_GROUPS: &[u8] = b"*";

/// Which articles are old, as a line `expire-older` or `list-older` says it (docs/OPERATING.md).
#[derive(Drop)]
pub struct AgeRequest {
    /// They are older than so many days.
    pub days: u64,
    /// It matches the names of their groups.
    pub wildmat: Wildmat,
    /// None is taken out.
    pub is_dry: bool,
}

/// The expiry by age that a line asks for, `None` if it asks for none. Refused only for want of memory.
pub(crate) fn ages_in(alloc: Global, line: &[u8]) -> Result<Option<AgeRequest>, ParseError>
    ensures some { IfOk result (λ found. IfSome found (λ request. IsAgesLine line.now request)) }
    ensures none { IfOk result (λ found. IfNone found (AsksNoAges line.now)) }
    ensures err { IfErr result (λ error. error ≡ ParseError.Memory) }
{
    if let Some(words) = line.strip_prefix(EXPIRE_OLDER) {
        return read_ages(alloc, words, false);
    }
    if let Some(words) = line.strip_prefix(LIST_OLDER) {
        return read_ages(alloc, words, true);
    }
    Ok(None)
}

/// The days and the wildmat of a line, behind its first word. `None` if they don't follow their grammar. Refused only for want
/// of memory.
fn read_ages(alloc: Global, words: &[u8], is_dry: bool) -> Result<Option<AgeRequest>, ParseError>
    ensures some { IfOk result (λ found. IfSome found
        (λ request. (ages_of words.now ≡ Some (request.days, request.wildmat)) × (request.is_dry ≡ is_dry))) }
    ensures none { IfOk result (λ found. IfNone found (ages_of words.now ≡ None)) }
    ensures err { IfErr result (λ error. error ≡ ParseError.Memory) }
{
    let (word, wildmat) = parts_of(words);
    let Some(days) = days(word) else {
        return Ok(None);
    };
    match Wildmat::read(alloc, wildmat) {
        Ok(wildmat) => Ok(Some(AgeRequest {
            days,
            wildmat,
            is_dry,
        })),
        Err(NameError::Bad) => Ok(None),
        Err(NameError::Memory) => Err(ParseError::Memory),
    }
}

/// The word of the days, and the wildmat; that of all groups if there is none.
fn parts_of(words: &[u8]) -> (&[u8], &[u8])
    ensures { (result.0.now, result.1.now) ≡ parts_of words.now }
{
    match split_word(words) {
        Some(parts) => parts,
        None => (words, ALL_GROUPS),
    }
}
