//! Group names, message-ids and wildmats as types, and the group that an operator asks for.

ghost use Rattle.std.specs.Prelude.{◌≡◌, false, IfOk, IfErr, IsTrue};
ghost use Rattle.model.specs.Names as model;

use crate::checks::{GROUP_NAME_LIMIT, is_group_name, is_message_id};
use crate::descriptions::Description;
use crate::patterns::{is_wildmat, wildmat_matches};
use model::{Moment, Status};
use std::alloc::Global;
use std::marker::Model;
use thiserror::Error;

/// Why a text was not read.
#[derive(Clone, Copy, Debug, PartialEq, Eq, Error)]
pub enum NameError {
    /// An allocation was refused.
    #[error("E2 Memory")]
    Memory,
    /// The text does not follow its grammar.
    #[error("E14 Bad")]
    Bad,
}

/// A group name. It takes no memory on the heap.
#[derive(Drop)]
pub struct GroupName {
    octets: [u8; GROUP_NAME_LIMIT],
    len: usize,
}

impl Model for GroupName {
    ghost use Rattle.std.specs.Prelude.{ℕ, List, take, ◌≤◌, IsTrue};
    ghost use Rattle.model.specs.Names.{is_group_name};

    ghost Value = { List ℕ };

    ghost view = { λ name. take name.len name.octets };

    ghost invariant = { λ name. (name.len ≤ 40) × IsTrue (is_group_name (take name.len name.octets)) };
}

impl GroupName {
    /// Reads the text as a group name. `Bad` exactly if it is not one.
    pub fn read(text: &[u8]) -> Result<GroupName, NameError>
        ensures ok { IfOk result (λ name. IsTrue (model.is_group_name text.now) × (name ≡ text.now)) }
        ensures err { IfErr result (λ error. (error ≡ NameError.Bad) × (model.is_group_name text.now ≡ false)) }
    {
        if !is_group_name(text) {
            return Err(NameError::Bad);
        }
        let mut octets = [0; GROUP_NAME_LIMIT];
        octets[..text.len()].copy_from_slice(text);
        Ok(GroupName {
            octets,
            len: text.len(),
        })
    }

    /// The octets of the name.
    pub fn as_slice(&self) -> &[u8]
        ensures value { result.now ≡ self.now }
        ensures is { IsTrue (model.is_group_name self.now) }
    {
        &self.octets[..self.len]
    }
}

/// A message-id.
#[derive(Drop)]
pub struct MessageId {
    octets: Vec<u8>,
}

impl Model for MessageId {
    ghost use Rattle.std.specs.Prelude.{ℕ, List, IsTrue};
    ghost use Rattle.model.specs.Names.{is_message_id};

    ghost Value = { List ℕ };

    ghost view = { λ id. id.octets.items };

    ghost invariant = { λ id. IsTrue (is_message_id id.octets.items) };
}

impl MessageId {
    /// Reads the text as a message-id. `Bad` if it is not one; `Memory` may come for any message-id.
    pub fn read(alloc: Global, text: &[u8]) -> Result<MessageId, NameError>
        ensures ok { IfOk result (λ id. IsTrue (model.is_message_id text.now) × (id ≡ text.now)) }
        ensures bad { IfErr result (λ error. error ≡ NameError.Bad → model.is_message_id text.now ≡ false) }
        ensures memory { IfErr result (λ error. error ≡ NameError.Memory → IsTrue (model.is_message_id text.now)) }
    {
        if !is_message_id(text) {
            return Err(NameError::Bad);
        }
        match text.to_vec(alloc) {
            Ok(octets) => Ok(MessageId { octets }),
            Err(_) => Err(NameError::Memory),
        }
    }

    /// The octets of the message-id.
    pub fn as_slice(&self) -> &[u8]
        ensures value { result.now ≡ self.now }
        ensures is { IsTrue (model.is_message_id self.now) }
    {
        self.octets.as_slice()
    }
}

/// A wildmat (RFC 3977, 4).
#[derive(Drop)]
pub struct Wildmat {
    text: Vec<u8>,
}

impl Model for Wildmat {
    ghost use Rattle.std.specs.Prelude.{ℕ, List, IsTrue};
    ghost use Rattle.model.specs.Names.{is_wildmat};

    ghost Value = { List ℕ };

    ghost view = { λ wildmat. wildmat.text.items };

    ghost invariant = { λ wildmat. IsTrue (is_wildmat wildmat.text.items) };
}

impl Wildmat {
    /// Reads the text as a wildmat. `Bad` if it is not one; `Memory` may come for any wildmat.
    pub fn read(alloc: Global, text: &[u8]) -> Result<Wildmat, NameError>
        ensures ok { IfOk result (λ wildmat. IsTrue (model.is_wildmat text.now) × (wildmat ≡ text.now)) }
        ensures bad { IfErr result (λ error. error ≡ NameError.Bad → model.is_wildmat text.now ≡ false) }
        ensures memory { IfErr result (λ error. error ≡ NameError.Memory → IsTrue (model.is_wildmat text.now)) }
    {
        if !is_wildmat(text) {
            return Err(NameError::Bad);
        }
        match text.to_vec(alloc) {
            Ok(text) => Ok(Wildmat { text }),
            Err(_) => Err(NameError::Memory),
        }
    }

    /// The octets of the wildmat.
    pub fn as_slice(&self) -> &[u8]
        ensures value { result.now ≡ self.now }
        ensures is { IsTrue (model.is_wildmat self.now) }
    {
        self.text.as_slice()
    }

    /// Whether the wildmat matches the name: the rightmost pattern that matches decides; without one the answer is no
    /// (RFC 3977, 4.2). The number of steps is at most the wildmat's octets times the name's.
    pub fn matches(&self, name: &GroupName) -> bool
        ensures { result ≡ model.wildmat_matches self.now name.now }
    {
        self.matches_octets(name.as_slice())
    }

    /// The same for the octets of a name.
    pub fn matches_octets(&self, name: &[u8]) -> bool
        ensures { result ≡ model.wildmat_matches self.now name.now }
    {
        wildmat_matches(self.text.as_slice(), name)
    }
}

/// A group that an operator asks for.
#[derive(Drop)]
pub struct GroupRequest {
    pub name: GroupName,
    pub status: Status,
    pub description: Description,
    /// when it is made
    pub moment: Moment,
}
