//! What calls of one index answer, one after another.

ghost use Rattle.std.specs.Prelude.{◌^◌, map};
ghost use Rattle.std.specs.Bool.{OnTrue};
ghost use Rattle.spool_groups.specs.Filing.{EndBelow};
ghost use Rattle.spool_groups.specs.Shown.{shown};

use crate::files::read_names;
use crate::moments::moment_at;
use model::{Envelope, Names, NewGroup, Status, Text};
use spool_groups::Group;
use spool_index::{Index, Lengths, Note};
use std::alloc::{AllocError, Global};
use test_support_data::{Answer, Area, Arguments, RowError};
use text_names::is_wildmat;

/// When the groups and articles were made for which a row names no moment, in seconds since 1970.
const MOMENT: u64 = 1_000_000_000;

/// An overview with this many octets takes no further line.
const OVERVIEW_LIMIT: u64 = 1 << 32;

/// The most groups of an article.
const MOST_GROUPS: usize = 16;

#[derive(Drop)]
pub struct Indexes {
    index: Index,
}

impl Indexes {
    pub fn new(alloc: Global) -> Indexes {
        Indexes {
            index: Index::new(alloc),
        }
    }
}

impl Area for Indexes {
    /// A call that changes the index answers the number of changes, and `none` if its precondition does not hold. One
    /// that asks answers `none` if it finds nothing.
    fn answer(
        &mut self,
        alloc: Global,
        call: &str,
        arguments: &mut Arguments<'_>,
        answer: &mut Answer,
    ) -> Result<(), RowError> {
        match call {
            "make" | "file" | "file_at" | "expire" => {
                let is_done = change(alloc, &mut self.index, call, arguments)?;
                answer.found(is_done.then_some(self.index.len()))?;
                Ok(())
            }
            "len" | "group_count" | "older_than" | "at" | "by_id" | "new_ids" => {
                answer_whole(alloc, &self.index, call, arguments, answer)
            }
            "kind" | "lengths" | "moment" | "groups" | "gone_at" | "is_id" => {
                let serial = arguments.number()?;
                answer_change(&self.index, call, serial, arguments, answer)
            }
            _ => {
                let name = arguments.octets()?;
                answer_group(&self.index, call, name.as_slice(), arguments, answer)
            }
        }
    }
}

/// Makes a change, and answers whether its precondition holds.
fn change(
    alloc: Global,
    index: &mut Index,
    call: &str,
    arguments: &mut Arguments<'_>,
) -> Result<bool, RowError> {
    let text = arguments.octets()?;
    match call {
        "make" => make(alloc, index, text.as_slice()),
        "file" => file(alloc, index, text.as_slice(), arguments),
        "file_at" => file_at(alloc, index, text.as_slice(), arguments.number()?),
        _ => expire(index, text.as_slice(), arguments.number()?),
    }
}

/// `make GROUP`.
fn make(alloc: Global, index: &mut Index, name: &[u8]) -> Result<bool, RowError> {
    if index.place(name).is_some() {
        return Ok(false);
    }
    index.push_group(NewGroup {
        name: Text::new(Vec::from_slice(alloc, name)?),
        status: Status::Open,
        description: Text::new(Vec::from_slice(alloc, b"a group".as_slice())?),
        moment: moment_at(MOMENT)?,
    })?;
    Ok(true)
}

/// `file ID TEXT HEADER LINES GROUP ..`: an article in these groups, whose text and header have so many octets. LINES are the
/// sizes of its lines there, with a comma between them.
fn file(
    alloc: Global,
    index: &mut Index,
    id: &[u8],
    arguments: &mut Arguments<'_>,
) -> Result<bool, RowError> {
    let lengths = read_lengths(arguments)?;
    let sizes = read_sizes(alloc, arguments.word()?)?;
    let groups = read_names(alloc, arguments)?;
    let envelope = Envelope {
        groups,
        moment: moment_at(MOMENT)?,
    };
    push_article(index, id, lengths, envelope, sizes.as_slice())
}

fn read_lengths(arguments: &mut Arguments<'_>) -> Result<Lengths, RowError> {
    Ok(Lengths {
        text: arguments.small()?,
        header: arguments.small()?,
    })
}

fn read_sizes(alloc: Global, word: &str) -> Result<Vec<u64>, RowError> {
    let mut sizes = Vec::new(alloc);
    if word == "none" {
        return Ok(sizes);
    }
    for size in word.split(',') {
        let size = size.parse::<u64>().ok().ok_or(RowError::Unreadable)?;
        sizes.push(size)?;
    }
    Ok(sizes)
}

fn push_article(
    index: &mut Index,
    id: &[u8],
    lengths: Lengths,
    envelope: Envelope,
    sizes: &[u64],
) -> Result<bool, RowError> {
    let count = envelope.groups.as_slice().len();
    let small = sizes.iter().all(|size| *size < OVERVIEW_LIMIT);
    if count > MOST_GROUPS || count != sizes.len() || !small || !overviews_fit(index.groups()) {
        return Ok(false);
    }
    index.push_article(id, lengths, envelope, sizes)?;
    Ok(true)
}

/// `file_at ID MOMENT`: an article in the group `x.a`.
fn file_at(alloc: Global, index: &mut Index, id: &[u8], seconds: u64) -> Result<bool, RowError> {
    let mut names = Vec::new(alloc);
    names.push(Text::new(b"x.a".to_vec(alloc)?))?;
    let envelope = Envelope {
        groups: Names::new(names),
        moment: moment_at(seconds)?,
    };
    let lengths = Lengths {
        text: 100,
        header: 40,
    };
    push_article(index, id, lengths, envelope, &[10])
}

// Whether each overview is small enough for another article, as the filing of one requires.
fn overviews_fit(groups: &[Group]) -> bool
    ensures { OnTrue result (EndBelow (2 ^ 32) (map shown groups.now)) }
{
    for group in groups {
        if group.overview_size() >= OVERVIEW_LIMIT {
            return false;
        }
    }
    true
}

/// `expire GROUP NUMBER`: the articles up to the number are removed.
fn expire(index: &mut Index, name: &[u8], number: u64) -> Result<bool, RowError> {
    if number >= 1 << 63 {
        return Ok(false);
    }
    index.push_expiry(name, number)?;
    Ok(true)
}

/// `len`, `group_count`, `older_than MOMENT`, `at PLACE`: the serial of the group there, `by_id ID`, `new_ids WILDMAT
/// MOMENT`: the lines of the articles that are in a group whose name the wildmat matches and that were filed at the
/// moment or later.
fn answer_whole(
    alloc: Global,
    index: &Index,
    call: &str,
    arguments: &mut Arguments<'_>,
    answer: &mut Answer,
) -> Result<(), RowError> {
    match call {
        "len" => answer.number(index.len())?,
        "group_count" => answer.number(index.group_count() as u64)?,
        "older_than" => answer.number(index.older_than(arguments.signed()?))?,
        "at" => answer.found(at(index, arguments.small()? as usize))?,
        "by_id" => answer.found(index.by_id(arguments.octets()?.as_slice()))?,
        _ => answer_new_ids(alloc, index, arguments, answer)?,
    }
    Ok(())
}

fn at(index: &Index, place: usize) -> Option<u64> {
    if place >= index.group_count() {
        return None;
    }
    Some(index.view_at(place).serial)
}

fn answer_new_ids(
    alloc: Global,
    index: &Index,
    arguments: &mut Arguments<'_>,
    answer: &mut Answer,
) -> Result<(), RowError> {
    let wildmat = arguments.octets()?;
    let from = arguments.signed()?;
    if !is_wildmat(wildmat.as_slice()) {
        return Ok(answer.word("none")?);
    }
    let mut found = Vec::new(alloc);
    index.push_new_ids(wildmat.as_slice(), from, &mut found)?;
    Ok(answer.octets(found.as_slice())?)
}

/// What is asked of a change: `kind SERIAL`, `lengths SERIAL`, `moment SERIAL`, `groups SERIAL`: the number of groups that
/// an article was filed in, `gone_at SERIAL`, `is_id SERIAL ID`.
fn answer_change(
    index: &Index,
    call: &str,
    serial: u64,
    arguments: &mut Arguments<'_>,
    answer: &mut Answer,
) -> Result<(), RowError> {
    match call {
        "kind" => answer.word(kind(index, serial))?,
        "lengths" => answer_lengths(index.lengths(serial), answer)?,
        "moment" => answer.found(index.moment(serial))?,
        "groups" => answer.found(group_count(index, serial))?,
        "gone_at" => answer.found(index.gone_at(serial))?,
        _ => answer_is_id(index, serial, arguments.octets()?.as_slice(), answer)?,
    }
    Ok(())
}

/// The octets of an article and of its header.
fn answer_lengths(lengths: Option<Lengths>, answer: &mut Answer) -> Result<(), AllocError> {
    let Some(Lengths { text, header }) = lengths else {
        return answer.word("none");
    };
    answer.number(u64::from(text))?;
    answer.number(u64::from(header))
}

fn kind(index: &Index, serial: u64) -> &'static str {
    match index.note(serial) {
        Some(Note::Group) => "group",
        Some(Note::Article { .. }) => "article",
        Some(Note::Expiry { .. }) => "expiry",
        None => "none",
    }
}

fn group_count(index: &Index, serial: u64) -> Option<u64> {
    Some(index.groups_of(serial)?.len() as u64)
}

fn answer_is_id(
    index: &Index,
    serial: u64,
    id: &[u8],
    answer: &mut Answer,
) -> Result<(), AllocError> {
    match index.id(serial) {
        Some(found) => answer.is(found == id),
        None => answer.word("none"),
    }
}

/// What is asked of a group: `place GROUP` and others without a further argument, and those with a number or a serial.
fn answer_group(
    index: &Index,
    call: &str,
    name: &[u8],
    arguments: &mut Arguments<'_>,
    answer: &mut Answer,
) -> Result<(), RowError> {
    match call {
        "place" => answer.found(place(index, name))?,
        "overview" => answer.found(overview_size(index, name))?,
        "serial" | "status" | "low" | "high" | "last" => answer_view(index, call, name, answer)?,
        _ => answer_number(index, call, name, arguments.number()?, answer)?,
    }
    Ok(())
}

fn place(index: &Index, name: &[u8]) -> Option<u64> {
    Some(index.place(name)? as u64)
}

/// The octets of a group's overview.
fn overview_size(index: &Index, name: &[u8]) -> Option<u64> {
    Some(index.group(name)?.overview_size())
}

fn answer_view(
    index: &Index,
    call: &str,
    name: &[u8],
    answer: &mut Answer,
) -> Result<(), AllocError> {
    let Some(view) = index.view(name) else {
        return answer.word("none");
    };
    match call {
        "serial" => answer.number(view.serial),
        "status" => answer.plain(&[view.status.octet()]),
        "low" => answer.number(view.low),
        "high" => answer.number(view.high),
        _ => answer.number(view.last),
    }
}

/// `by_number GROUP NUMBER`, `begins GROUP NUMBER` and `ends GROUP NUMBER`: where its overview line begins and ends,
/// `expired_at GROUP NUMBER`, `number_in GROUP SERIAL`, `is_in GROUP SERIAL`, `taken_at GROUP SERIAL`.
fn answer_number(
    index: &Index,
    call: &str,
    name: &[u8],
    number: u64,
    answer: &mut Answer,
) -> Result<(), RowError> {
    match call {
        "by_number" => answer.found(index.by_number(name, number))?,
        "begins" => answer.found(line(index, name, number).map(|line| line.0))?,
        "ends" => answer.found(line(index, name, number).map(|line| line.1))?,
        "expired_at" => answer.number(index.expired_at(name, number))?,
        "number_in" => answer.number(index.number_in(name, number))?,
        "is_in" => answer.is(index.is_in(name, number))?,
        "taken_at" => answer.number(index.taken_at(name, number))?,
        _ => return Err(RowError::Unreadable),
    }
    Ok(())
}

fn line(index: &Index, name: &[u8], number: u64) -> Option<(u64, u64)> {
    let group = index.group(name)?;
    if number == 0 || group.high() < number {
        return None;
    }
    Some(group.line(number))
}
