//! The husk of an article that is gone: the shortest article with its message-id in its groups. `specs/Renewed.antt` of the
//! crate `model_renewed` defines it.
#![tactic(auto)]

ghost use Rattle.std.specs.Prelude.{◌≡◌, ◌∷◌, ◌++◌, IfOk, OnOk, flat_map};
ghost use Rattle.std.specs.List.{join_with_byte};
ghost use Rattle.model_renewed.specs.Renewed.{husk};

use model::Text;
use std::alloc::{AllocError, Global};

/// The octets before the message-id. Each field that an article needs besides its message-id and its groups holds a dash.
const FRONT: &[u8] = b"Path: -\r\nDate: -\r\nFrom: -\r\nSubject: -\r\nMessage-ID: ";

/// The octets between the message-id and the groups.
const MIDDLE: &[u8] = b"\r\nNewsgroups: ";

/// The octets after the groups: the end of their line, and the line that ends the header.
const END: &[u8] = b"\r\n\r\n";

/// The husk of an article with this message-id in these groups.
pub fn husk(alloc: Global, id: &[u8], groups: &[Text]) -> Result<Vec<u8>, AllocError>
    ensures { IfOk result (λ text. text.items ≡ husk id.now groups.now) }
{
    let mut text = Vec::from_slice(alloc, FRONT)?;
    text.extend_from_slice(id)?;
    text.extend_from_slice(MIDDLE)?;
    push_joined(groups, &mut text)?;
    text.extend_from_slice(END)?;
    Ok(text)
}

/// Appends names with a comma between each two.
fn push_joined(names: &[Text], text: &mut Vec<u8>) -> Result<(), AllocError>
    ensures { OnOk result (text.new.items ≡ text.old.items ++ join_with_byte 44 names.now) }
{
    let Some((first, others)) = names.split_first() else {
        return Ok(());
    };
    text.extend_from_slice(first.as_slice())?;
    push_others(others, text)?;
    Ok(())
}

/// Appends names, each after a comma.
fn push_others(names: &[Text], text: &mut Vec<u8>) -> Result<(), AllocError>
    ensures { OnOk result (text.new.items ≡ text.old.items ++ flat_map (λ name. 44 ∷ name) names.now) }
{
    for name in names {
        text.push(b',')?;
        text.extend_from_slice(name.as_slice())?;
    }
    Ok(())
}
