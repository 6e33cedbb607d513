//! Changes of the operator that a kernel accepted.

ghost use Rattle.std.specs.Prelude.{◌≡◌};

use text_names::{GroupName, GroupRequest};

/// A group that a kernel accepted: what was asked for, and the serial of that change.
#[derive(Clone, Copy)]
pub struct Admitted<'g> {
    group: &'g GroupRequest,
    serial: u64,
}

impl<'g> Admitted<'g> {
    /// The group that was asked for, whose change has this serial.
    pub fn new(group: &'g GroupRequest, serial: u64) -> Admitted<'g>
        ensures group { result.group.now ≡ group.now }
        ensures serial { result.serial ≡ serial }
    {
        Admitted { group, serial }
    }

    /// The serial of the change.
    pub fn serial(self) -> u64
        ensures { result ≡ self.entry.serial }
    {
        self.serial
    }
}

/// An expiry that a kernel accepted: the group and the number of its change, and its serial.
#[derive(Clone, Copy)]
pub struct Expired<'n> {
    name: &'n GroupName,
    number: u32,
    serial: u64,
}

impl<'n> Expired<'n> {
    /// The expiry of a group's articles up to this number, which is the change with this serial.
    pub fn new(name: &'n GroupName, number: u32, serial: u64) -> Expired<'n>
        ensures name { result.name.now ≡ name.now }
        ensures number { result.number ≡ number }
        ensures serial { result.serial ≡ serial }
    {
        Expired {
            name,
            number,
            serial,
        }
    }

    /// The number up to which articles were removed.
    pub fn number(self) -> u32
        ensures { result ≡ self.entry.number }
    {
        self.number
    }

    /// The serial of the change.
    pub fn serial(self) -> u64
        ensures { result ≡ self.entry.serial }
    {
        self.serial
    }
}
