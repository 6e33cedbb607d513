//! The change that a line of the operator asks for.

ghost use Rattle.std.specs.Prelude.{◌≡◌, ◌⊎◌, IfOk, IfErr, Some};
ghost use Rattle.program_script.specs.Script.{meaning_at};
ghost use Rattle.server_operator_lines.specs.Changes.{IsNone, asked, has_long_name, permitted};

use model::Moment;
use program_script::{Line, ParseError, is_blank, parse_at, split_word};
use std::alloc::Global;
use text_names::{GROUP_NAME_LIMIT, GroupName, GroupRequest};

/// The first word of a line that makes a group.
const GROUP: &[u8] = b"group";

/// The first word of a line that takes articles out of a group.
const EXPIRE: &[u8] = b"expire";

/// A change that the operator asks for (docs/OPERATING.md).
#[derive(Drop)]
pub enum Change {
    /// The group is made.
    Group(GroupRequest),
    /// The articles of a group up to this number are removed from it.
    Expiry { name: GroupName, number: u32 },
}

/// The change that a line asks for at the present moment, if there is one. `Bad` if the line asks for none, or for a group with a
/// blank description; `Memory` may come for any line.
pub(crate) fn change_of(
    alloc: Global,
    line: &[u8],
    now: Option<Moment>,
) -> Result<Change, ParseError>
    ensures ok { IfOk result (λ change. permitted (meaning_at now line.now) ≡ Some (asked change)) }
    ensures err { IfErr result (λ error. (error ≡ ParseError.Memory)
        ⊎ ((error ≡ ParseError.Bad) × IsNone (permitted (meaning_at now line.now)))) }
{
    match parse_at(alloc, line, now) {
        Ok(Line::Group(request)) => {
            if is_blank(request.description.as_slice()) {
                return Err(ParseError::Bad);
            }
            Ok(Change::Group(request))
        }
        Ok(Line::Expire { name, number }) => Ok(Change::Expiry { name, number }),
        Ok(_) | Err(ParseError::Bad) => Err(ParseError::Bad),
        Err(ParseError::Memory) => Err(ParseError::Memory),
    }
}

/// Whether the name of the group that a line would make, or take articles out of, has more than 40 octets. Such a line asks for
/// nothing.
pub fn has_long_name(line: &[u8]) -> bool
    ensures { result ≡ has_long_name line.now }
{
    let Some((keyword, words)) = split_word(line) else {
        return false;
    };
    let name = match split_word(words) {
        Some((name, _)) => name,
        None => words,
    };
    (keyword == GROUP || keyword == EXPIRE) && name.len() > GROUP_NAME_LIMIT
}
