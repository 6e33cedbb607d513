//! Reads rules.

ghost use Rattle.std.specs.Prelude.{◌≡◌, IfOk, IfErr, Some, None, map};
ghost use Rattle.program_rules.specs.Rules.{IsFirstBad, age_of, is_skipped, rule_of, rules_of, said};
ghost use Rattle.program_rules.specs.declared.reading.RulesError.TheVariants.{Memory};

use program_script::{days, is_blank, split_at};
use std::alloc::{AllocError, AllocFailed, Global};
use text_names::{NameError, Wildmat};
use thiserror::Error;

/// What a rule says in place of a number of days, where articles stay for good.
const NEVER: &[u8] = b"never";

/// How long articles stay in the groups whose names a wildmat matches.
#[derive(Drop)]
pub struct Rule {
    pub wildmat: Wildmat,
    /// They stay for so many days. `None` if they stay for good.
    pub days: Option<u64>,
}

/// Why rules are not read.
#[derive(Clone, Copy, Debug, PartialEq, Eq, Error)]
pub enum RulesError {
    /// The line with this number, from 1, is neither a rule nor a comment, nor is it blank.
    #[error("has no WILDMAT:DAYS or WILDMAT:never in line {0}")]
    Bad(u64),
    /// An allocation was refused.
    #[error("E2 Memory")]
    Memory,
}

impl From<AllocError> for RulesError {
    ghost from_gives = { λ _ error. error ≡ Memory };

    fn from(_error: AllocError) -> RulesError {
        RulesError::Memory
    }
}

impl<T: Drop> From<AllocFailed<T>> for RulesError {
    ghost from_gives = { λ _ error. error ≡ Memory };

    fn from(_error: AllocFailed<T>) -> RulesError {
        RulesError::Memory
    }
}

/// The rules in these lines, in their order. A line is `WILDMAT:DAYS` or `WILDMAT:never`, a comment, which begins with `#`, or
/// blank (docs/FORMATS.md). `Bad` with the number of the first line that is none of these, `Memory` if an allocation was refused.
pub fn read_rules(alloc: Global, lines: &[&[u8]]) -> Result<Vec<Rule>, RulesError>
    ensures ok { IfOk result (λ rules. rules_of (map (λ line. line.now) lines.now) ≡ Some (map said rules.items)) }
    ensures bad { IfErr result (λ error. IsFirstBad (map (λ line. line.now) lines.now) error) }
{
    let mut rules = Vec::new(alloc);
    'lines: for place in 0..lines.len() {
        let line = lines[place];
        if is_skipped(line) {
            continue;
        }
        match read_rule(alloc, line) {
            Ok(rule) => rules.push(rule)?,
            Err(NameError::Bad) => return Err(RulesError::Bad(place as u64 + 1)),
            Err(NameError::Memory) => return Err(RulesError::Memory),
        }
    }
    Ok(rules)
}

/// Whether a line says nothing: it is blank, or a comment.
fn is_skipped(line: &[u8]) -> bool
    ensures { result ≡ is_skipped line.now }
{
    is_blank(line) || matches!(line, [b'#', ..])
}

/// The rule of a line. `Bad` if it is none, `Memory` if an allocation was refused.
#[tactic(auto, unfolding(crate::specs::Rules::rule_of))]
fn read_rule(alloc: Global, line: &[u8]) -> Result<Rule, NameError>
    ensures ok { IfOk result (λ rule. rule_of line.now ≡ Some (said rule)) }
    ensures bad { IfErr result (λ error. error ≡ NameError.Bad → rule_of line.now ≡ None) }
{
    let Some((wildmat, word)) = split_at(line, b':') else {
        return Err(NameError::Bad);
    };
    let Some(days) = age(word) else {
        return Err(NameError::Bad);
    };
    let wildmat = Wildmat::read(alloc, wildmat)?;
    Ok(Rule { wildmat, days })
}

/// How many days a word gives; the inner `None` if articles stay for good. `None` if it is no age.
#[tactic(auto, unfolding(crate::specs::Rules::age_of))]
fn age(word: &[u8]) -> Option<Option<u64>>
    ensures { result ≡ age_of word.now }
{
    if word == NEVER {
        return Some(None);
    }
    let days = days(word)?;
    Some(Some(days))
}
