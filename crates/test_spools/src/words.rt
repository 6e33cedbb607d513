//! The words of a row.

use crate::errors::RowError;
use crate::volumes::NewVolume;
use disk::DiskCall;
use model::Status;
use test_support_spool::{Asked, Call, Sent, Sought, Wanted};

/// The words that are left of a row.
#[derive(Drop)]
pub(crate) struct Words<'a> {
    rest: &'a str,
}

impl<'a> Words<'a> {
    pub(crate) fn of(row: &'a str) -> Words<'a> {
        Words { rest: row }
    }

    /// The next word; empty if there is none.
    pub(crate) fn next(&mut self) -> &'a str {
        match self.rest.split_once(' ') {
            Some((word, rest)) => {
                self.rest = rest;
                word
            }
            None => self.all(),
        }
    }

    /// All that is left.
    fn all(&mut self) -> &'a str {
        let word = self.rest;
        self.rest = "";
        word
    }

    /// The next word, which is a number.
    pub(crate) fn number(&mut self) -> Result<u64, RowError> {
        self.next().parse::<u64>().ok().ok_or(RowError::Unreadable)
    }

    /// The next word, a number with few digits.
    fn small(&mut self) -> Result<u32, RowError> {
        self.next().parse::<u32>().ok().ok_or(RowError::Unreadable)
    }

    /// The next word, a number of octets.
    fn size(&mut self) -> Result<usize, RowError> {
        self.next()
            .parse::<usize>()
            .ok()
            .ok_or(RowError::Unreadable)
    }

    /// `BLOCKS INODES HOST`, and perhaps `write N` or `sync N`: a new volume.
    pub(crate) fn volume(&mut self) -> Result<NewVolume<'a>, RowError> {
        let blocks = self.number()?;
        let inodes = self.number()?;
        let host = self.next();
        let kind = match self.next() {
            "sync" => DiskCall::Sync,
            _ => DiskCall::Write,
        };
        let call = if self.rest.is_empty() {
            0
        } else {
            self.number()?
        };
        Ok(NewVolume {
            blocks,
            inodes,
            host,
            kind,
            call,
        })
    }

    fn status(&mut self) -> Result<Status, RowError> {
        match self.next() {
            "y" => Ok(Status::Open),
            "n" => Ok(Status::Closed),
            _ => Err(RowError::Unreadable),
        }
    }

    /// `ID SIZE GROUPS`: an article that is sent. `-` stands for no message-id.
    fn sent(&mut self) -> Result<Sent<'a>, RowError> {
        let id = self.next();
        let size = self.size()?;
        Ok(Sent {
            id: if id == "-" { "" } else { id },
            groups: self.all(),
            size,
        })
    }

    /// The call that a row asks for.
    pub(crate) fn call(&mut self) -> Result<Call<'a>, RowError> {
        match self.next() {
            "add" => self.add(),
            "groups" => Ok(Call::AddMany(self.number()?)),
            "expire" => Ok(Call::Expire(self.next(), self.small()?)),
            "post" => Ok(Call::Post(self.sent()?)),
            "posts" => {
                let count = self.number()?;
                Ok(Call::PostMany(count, self.sent()?))
            }
            "take" => Ok(Call::Take(self.sent()?)),
            "change" => {
                let serial = self.number()?;
                Ok(Call::Change(serial, self.wanted()?))
            }
            "dirty" => Ok(Call::DirtyLen),
            "carry" => Ok(Call::Carry),
            "reopen" => Ok(Call::Reopen),
            _ => Err(RowError::Unreadable),
        }
    }

    /// `NAME STATUS DESCRIPTION`
    fn add(&mut self) -> Result<Call<'a>, RowError> {
        let name = self.next();
        let status = self.status()?;
        Ok(Call::Add(name, status, self.all()))
    }

    /// The expected change: `group NAME STATUS DESCRIPTION`, `expiry NAME N`, or `article ID SIZE GROUPS | GROUPS`, where
    /// the last ones are those that it is filed in.
    fn wanted(&mut self) -> Result<Wanted<'a>, RowError> {
        match self.next() {
            "group" => {
                let name = self.next();
                let status = self.status()?;
                Ok(Wanted::Group(name, status, self.all()))
            }
            "expiry" => Ok(Wanted::Expiry(self.next(), self.number()?)),
            "article" => self.filed(),
            _ => Err(RowError::Unreadable),
        }
    }

    fn filed(&mut self) -> Result<Wanted<'a>, RowError> {
        let Sent { id, groups, size } = self.sent()?;
        match groups.split_once(" | ") {
            Some((groups, filed)) => Ok(Wanted::Article(Sent { id, groups, size }, filed)),
            None => Err(RowError::Unreadable),
        }
    }

    /// A question to the spool, behind the word `find`.
    pub(crate) fn asked(&mut self) -> Result<Asked<'a>, RowError> {
        match self.next() {
            "len" => Ok(Asked::Len),
            "blocks" => Ok(Asked::Blocks),
            "inodes" => Ok(Asked::Inodes),
            "groups" => Ok(Asked::GroupCount),
            "group-at" => Ok(Asked::At(self.size()?)),
            "id" => Ok(Asked::ById(self.next())),
            "gone" => Ok(Asked::GoneAt(self.number()?)),
            "moment" => Ok(Asked::Moment(self.number()?)),
            word => self.asked_of_group(word),
        }
    }

    fn asked_of_group(&mut self, word: &str) -> Result<Asked<'a>, RowError> {
        let name = self.next();
        match word {
            "serial" => Ok(Asked::Serial(name)),
            "status" => Ok(Asked::Status(name)),
            "made" => Ok(Asked::Made(name)),
            "low" => Ok(Asked::Low(name)),
            "high" => Ok(Asked::High(name)),
            "last" => Ok(Asked::Last(name)),
            "number" => Ok(Asked::ByNumber(name, self.number()?)),
            "expired" => Ok(Asked::ExpiredAt(name, self.number()?)),
            _ => Err(RowError::Unreadable),
        }
    }

    /// A text of the spool, behind the word `text`.
    pub(crate) fn sought(&mut self) -> Result<Sought<'a>, RowError> {
        let word = self.next();
        let name = self.next();
        match word {
            "host" => Ok(Sought::Host),
            "name" => Ok(Sought::Name(name)),
            "description" => Ok(Sought::Description(name)),
            "lines" => Ok(Sought::Lines(name, self.number()?, self.number()?)),
            "new" => Ok(Sought::New(name, i64::from(self.small()?))),
            _ => sought_of_article(word, name),
        }
    }
}

fn sought_of_article<'a>(word: &str, id: &'a str) -> Result<Sought<'a>, RowError> {
    match word {
        "id" => Ok(Sought::Id(id)),
        "whole" => Ok(Sought::Whole(id)),
        "head" => Ok(Sought::Head(id)),
        "body" => Ok(Sought::Body(id)),
        "nothing" => Ok(Sought::Nothing(id)),
        "line" => Ok(Sought::Line(id)),
        _ => Err(RowError::Unreadable),
    }
}
