//! What was done for a line of the operator, or about old articles.

ghost use Rattle.std.specs.Prelude.{◌≡◌};

use kernel_shared::{Admitted, Expired};

/// A change that the kernel accepted for a line.
#[derive(Clone, Copy)]
pub(crate) enum Made<'c> {
    Group(Admitted<'c>),
    Expiry(Expired<'c>),
}

impl<'c> Made<'c> {
    ghost use Rattle.server_operator.specs.Treated.{serial_of};

    /// The serial of the change.
    pub(crate) fn serial(self) -> u64
        ensures { result ≡ serial_of self.entry }
    {
        match self {
            Made::Group(admitted) => admitted.serial(),
            Made::Expiry(expired) => expired.serial(),
        }
    }
}

/// What was done about the old articles of a group.
#[derive(Clone, Copy)]
pub(crate) enum Treated<'n> {
    /// They were taken out.
    TakenOut(Expired<'n>),
    /// It is only said which they are: those up to this number, when so many changes were accepted.
    Told { number: u32, last: u64 },
}

impl<'n> Treated<'n> {
    ghost use Rattle.server_operator.specs.Treated.{number_of};

    /// The number up to which the articles are old.
    pub(crate) fn number(self) -> u32
        ensures { result ≡ number_of self.entry }
    {
        match self {
            Treated::TakenOut(expired) => expired.number(),
            Treated::Told { number, .. } => number,
        }
    }

    /// The serial of the last change that has to be durable before this is told.
    pub(crate) fn serial(self) -> u64 {
        match self {
            Treated::TakenOut(expired) => expired.serial(),
            Treated::Told { last, .. } => last,
        }
    }
}
