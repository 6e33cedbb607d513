//! Descriptions of groups.

ghost use Rattle.std.specs.Prelude.{◌≡◌, ◌≤◌, false, length, IfOk, IfErr, IsTrue};
ghost use Rattle.std.specs.List.{list_all};
ghost use Rattle.model.specs.Lawful.{is_description_octet};
ghost use Rattle.text_names.specs.Descriptions.{is_description};

use crate::values::NameError;
use std::alloc::Global;
use std::marker::Model;

/// The octets of the longest description (this project's rule).
pub const DESCRIPTION_LIMIT: usize = 200;

/// Whether the octet may occur in a description: SP, or a visible octet.
fn is_description_octet(octet: u8) -> bool
    ensures { result ≡ is_description_octet octet }
{
    32 <= octet && octet <= 126
}

/// Whether the text is a description of a group: at most 200 octets, each SP or visible.
pub fn is_description(text: &[u8]) -> bool
    ensures { result ≡ is_description text.now }
{
    text.len() <= DESCRIPTION_LIMIT && text.iter().all(|octet| is_description_octet(*octet))
}

/// A description of a group. It may be empty.
#[derive(Drop)]
pub struct Description {
    octets: Vec<u8>,
}

impl Model for Description {
    ghost use Rattle.std.specs.Prelude.{ℕ, List, IsTrue};
    ghost use Rattle.text_names.specs.Descriptions.{is_description};

    ghost Value = { List ℕ };

    ghost view = { λ description. description.octets.items };

    ghost invariant = { λ description. IsTrue (is_description description.octets.items) };
}

impl Description {
    /// Reads the text as a description. `Bad` if it is not one; `Memory` may come for any description.
    pub fn read(alloc: Global, text: &[u8]) -> Result<Description, NameError>
        ensures ok { IfOk result (λ description. IsTrue (is_description text.now) × (description ≡ text.now)) }
        ensures bad { IfErr result (λ error. error ≡ NameError.Bad → is_description text.now ≡ false) }
        ensures memory { IfErr result (λ error. error ≡ NameError.Memory → IsTrue (is_description text.now)) }
    {
        if !is_description(text) {
            return Err(NameError::Bad);
        }
        match text.to_vec(alloc) {
            Ok(octets) => Ok(Description { octets }),
            Err(_) => Err(NameError::Memory),
        }
    }

    /// The octets of the description.
    pub fn as_slice(&self) -> &[u8]
        ensures value { result.now ≡ self.now }
        ensures short { length self.now ≤ 200 }
        ensures printable { IsTrue (list_all is_description_octet self.now) }
    {
        self.octets.as_slice()
    }
}
