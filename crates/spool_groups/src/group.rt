//! What the index keeps of a group.

ghost use Rattle.std.specs.Prelude.{◌≡◌, ◌+◌, ◌-◌, ◌^◌, ◌<◌, ◌≤◌, ◌∷◌, ◌++◌, [], true, false, map, filter, find, length, nat_le, nat_lt};
ghost use Rattle.std.specs.Prelude.{slice_index, IfOk, OnOk, OnErr, vec_len, vec_capacity};
ghost use Rattle.std.specs.List.Sorted.{IsPartitionPoint, IsPartitionedBy};
ghost use Rattle.model.specs.Indexed.{line_start};
ghost use Rattle.model.specs.Spool.{news_group, serial_of};
ghost use Rattle.spool_groups.specs.Shown.{shown};
ghost use Rattle.spool_groups.specs.Filing.{end_of, with_line};
ghost use Rattle.spool_groups.specs.Finding.{Rise, filed_at};

use model::{Moment, NewGroup, Status, Text};
use std::alloc::{AllocError, Global};

/// What is kept of an article filed in a group: its serial, and where its overview line ends.
#[derive(Clone, Copy)]
pub(crate) struct Line {
    pub(crate) serial: u64,
    pub(crate) end: u64,
}

/// An expiry of a group, up to a number.
#[derive(Clone, Copy)]
pub(crate) struct Expired {
    pub(crate) serial: u64,
    pub(crate) number: u64,
}

/// A group that exists, with its articles by number.
#[derive(Drop)]
pub struct Group {
    pub(crate) serial: u64,
    pub(crate) name: Text,
    pub(crate) status: Status,
    pub(crate) description: Text,
    pub(crate) moment: Moment,
    pub(crate) lines: Vec<Line>,
    pub(crate) expired: Vec<Expired>,
    pub(crate) low: u64,
    pub(crate) last: u64,
}

impl Group {
    /// A group with no articles, made by the change with this serial.
    pub fn new(alloc: Global, serial: u64, group: NewGroup) -> Group
        ensures { shown result ≡ record {
          group = news_group serial group;
          filed = [];
          ends = [];
          low = 1;
          expired = [];
          last = serial;
        } }
    {
        let NewGroup {
            name,
            status,
            description,
            moment,
        } = group;
        Group {
            serial,
            name,
            status,
            description,
            moment,
            lines: Vec::new(alloc),
            expired: Vec::new(alloc),
            low: 1,
            last: serial,
        }
    }

    /// The serial of the change that made it.
    pub fn serial(&self) -> u64
        ensures { result ≡ (shown self.now).group.serial }
    {
        self.serial
    }

    /// Its name.
    pub fn name(&self) -> &[u8]
        ensures { result.now ≡ (shown self.now).group.name }
    {
        self.name.as_slice()
    }

    /// Whether clients may post to it.
    pub fn status(&self) -> Status
        ensures { result ≡ (shown self.now).group.status }
    {
        self.status
    }

    /// Its description, in octets.
    pub fn description(&self) -> &[u8]
        ensures { result.now ≡ (shown self.now).group.description }
    {
        self.description.as_slice()
    }

    /// When it was made.
    pub fn moment(&self) -> Moment
        ensures { result ≡ (shown self.now).group.moment }
    {
        self.moment
    }

    /// The lowest number that is still in it (RFC 3977, section 6.1.1).
    pub fn low(&self) -> u64
        ensures { result ≡ (shown self.now).low }
    {
        self.low
    }

    /// The highest number, which is the number of articles filed in it.
    pub fn high(&self) -> u64
        ensures { result ≡ length (shown self.now).filed }
    {
        self.lines.len() as u64
    }

    /// The last serial that names it.
    pub fn last(&self) -> u64
        ensures { result ≡ (shown self.now).last }
    {
        self.last
    }

    /// The number of octets in its overview.
    pub fn overview_size(&self) -> u64
        ensures { result ≡ end_of (shown self.now) }
    {
        match self.lines.last() {
            Some(line) => line.end,
            None => 0,
        }
    }

    /// The serial of the article that is in it under this number; `None` if there is none.
    pub fn by_number(&self, number: u64) -> Option<u64>
        ensures { result ≡ filed_at (shown self.now) number }
    {
        if number == 0 || number < self.low || (self.lines.len() as u64) < number {
            return None;
        }
        Some(self.lines[(number - 1) as usize].serial)
    }

    /// Where the overview line with this number begins and ends, in octets from the start of its overview.
    pub fn line(&self, number: u64) -> (u64, u64)
        requires some { 1 ≤ number }
        requires here { number ≤ length (shown self.now).filed }
        ensures from { result.0 ≡ line_start (shown self.now).ends (number - 1) }
        ensures to { result.1 ≡ slice_index (shown self.now).ends (number - 1) }
    {
        let place = (number - 1) as usize;
        let end = self.lines[place].end;
        let start = if place == 0 {
            0
        } else {
            self.lines[place - 1].end
        };
        (start, end)
    }

    /// The number of articles up to this serial that were filed in it, which is the number of the last of them.
    pub fn number_of(&self, serial: u64) -> u64
        ensures { Rise (shown self.now).filed → result ≡ length (filter (λ n. nat_le n serial) (shown self.now).filed) }
    {
        lines_up_to(&self.lines, serial) as u64
    }

    /// The serial of the expiry that removed this number from it, or 0 if none did.
    pub fn expired_at(&self, number: u64) -> u64
        ensures { Rise (map (λ e. e.number) (shown self.now).expired)
            → result ≡ serial_of (find (λ e. nat_le number e.number) (shown self.now).expired) }
    {
        let place = expiries_below(&self.expired, number);
        if place == self.expired.len() {
            return 0;
        }
        self.expired[place].serial
    }

    /// Makes room for lines. Refused only for want of memory; the group stays the same either way.
    pub(crate) fn reserve(&mut self, lines: usize) -> Result<(), AllocError>
        ensures same { shown self.new ≡ shown self.old }
        ensures room { OnOk result (vec_len self.new.lines + lines ≤ vec_capacity self.new.lines) }
    {
        self.lines.reserve(lines)
    }

    /// Files an article, whose line follows the others. There must be room for it.
    pub(crate) fn file(&mut self, serial: u64, size: u64)
        requires room { vec_len self.old.lines < vec_capacity self.old.lines }
        requires fits { end_of (shown self.old) + size < 2 ^ 64 }
        ensures filed { shown self.new ≡ with_line serial size (shown self.old) }
        ensures len { vec_len self.new.lines ≡ vec_len self.old.lines + 1 }
        ensures room { vec_capacity self.old.lines ≤ vec_capacity self.new.lines }
    {
        let end = self.overview_size() + size;
        let Ok(()) = self.lines.push(Line { serial, end }) else {
            unreachable!()
        };
        self.last = serial;
    }

    /// Removes the articles up to a number from it. Refused only for want of memory, and then nothing changes.
    pub(crate) fn expire(&mut self, serial: u64, number: u64) -> Result<(), AllocError>
        requires { number < 2 ^ 63 }
        ensures ok { OnOk result (shown self.new ≡ record (shown self.old) {
          low = 1 + number;
          expired = (shown self.old).expired ++ record { serial = serial; group = (shown self.old).group.name; number = number } ∷ [];
          last = serial;
        }) }
        ensures err { OnErr result (shown self.new ≡ shown self.old) }
    {
        let Ok(()) = self.expired.push(Expired { serial, number }) else {
            return Err(AllocError);
        };
        self.low = 1 + number;
        self.last = serial;
        Ok(())
    }
}

/// The number of lines at the start that belong to articles up to this serial.
pub(crate) fn lines_up_to(lines: &[Line], serial: u64) -> usize
    ensures bound { result ≤ length lines.now }
    ensures partitioned { IsPartitionedBy (λ l. nat_le l.serial serial) lines.now
        → IsPartitionPoint (λ l. nat_le l.serial serial ≡ true) (λ l. nat_le l.serial serial ≡ false) lines.now result }
{
    lines.partition_point(|line| line.serial <= serial)
}

/// The number of expiries at the start that do not reach this number.
fn expiries_below(expired: &[Expired], number: u64) -> usize
    ensures bound { result ≤ length expired.now }
    ensures partitioned { IsPartitionedBy (λ e. nat_lt e.number number) expired.now
        → IsPartitionPoint (λ e. nat_lt e.number number ≡ true) (λ e. nat_lt e.number number ≡ false) expired.now result }
{
    expired.partition_point(|expiry| expiry.number < number)
}
