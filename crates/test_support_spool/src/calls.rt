//! The calls of a spool, and the answer to each.

use crate::changes::{Wanted, is_change};
use crate::changing::{Filed, add, expire, post, take};
use crate::sent::Sent;
use crate::stored::Stored;
use model::Status;
use spool_reading::ReadSpoolError;
use std::alloc::Global;

/// A call.
#[derive(Clone, Copy)]
pub enum Call<'a> {
    /// Adds a group with this status and this description.
    Add(&'a str, Status, &'a str),
    /// Adds this many groups, with the names g.1, g.2 and so on.
    AddMany(u64),
    /// Removes the articles up to a number from a group.
    Expire(&'a str, u32),
    Post(Sent<'a>),
    /// Posts an article this many times.
    PostMany(u64, Sent<'a>),
    /// Accepts an article from another server.
    Take(Sent<'a>),
    /// Whether the change with a serial is this one.
    Change(u64, Wanted<'a>),
    DirtyLen,
    /// Takes the dirty blocks as a batch, and counts them.
    Carry,
    /// Opens what the batches have written, in place of the spool.
    Reopen,
}

/// The answer to a call.
#[derive(Clone, Copy, Debug, PartialEq)]
pub enum Answer {
    Changed(Filed),
    Nothing,
    Is(bool),
    /// This many blocks.
    Blocks(usize),
    /// More blocks are dirty than a batch may have.
    TooMany,
    Opened,
    NotOpened(ReadSpoolError),
    Memory,
}

/// Makes a call.
pub fn make(alloc: Global, stored: &mut Stored, call: Call<'_>) -> Answer {
    match call {
        Call::Change(serial, wanted) => {
            match is_change(alloc, &stored.spool, serial, &wanted) {
                Ok(Some(is_it)) => Answer::Is(is_it),
                Ok(None) => Answer::Nothing,
                Err(_) => Answer::Memory,
            }
        }
        Call::DirtyLen => Answer::Blocks(stored.spool.dirty_len()),
        Call::Carry => match stored.carry() {
            Some(count) => Answer::Blocks(count),
            None => Answer::TooMany,
        },
        Call::Reopen => match stored.reopen(alloc) {
            Ok(()) => Answer::Opened,
            Err(error) => Answer::NotOpened(error),
        },
        change => Answer::Changed(change_by(alloc, stored, change)),
    }
}

// Makes a change.
fn change_by(alloc: Global, stored: &mut Stored, call: Call<'_>) -> Filed {
    let spool = &mut stored.spool;
    match call {
        Call::Add(name, status, description) => add(
            alloc,
            spool,
            name.as_bytes(),
            status,
            description.as_bytes(),
        ),
        Call::AddMany(count) => add_many(alloc, stored, count),
        Call::Expire(name, number) => expire(spool, name.as_bytes(), number),
        Call::Post(sent) => post(alloc, spool, &sent),
        Call::PostMany(count, sent) => post_many(alloc, stored, count, &sent),
        Call::Take(sent) => take(alloc, spool, &sent),
        _ => Filed::NotCalled,
    }
}

// Posts an article this many times, and gives the answer to the last post.
fn post_many(alloc: Global, stored: &mut Stored, count: u64, sent: &Sent<'_>) -> Filed {
    let mut last = Filed::NotCalled;
    for _ in 0..count {
        last = post(alloc, &mut stored.spool, sent);
    }
    last
}

// Adds groups with the names g.1, g.2 and so on, and gives the answer to the last one.
fn add_many(alloc: Global, stored: &mut Stored, count: u64) -> Filed {
    let mut last = Filed::NotCalled;
    for number in 1..=count {
        let Ok(name) = format!(in alloc; "g.{number}") else {
            return Filed::Memory;
        };
        last = add(alloc, &mut stored.spool, name.as_bytes(), Status::Open, b"");
    }
    last
}
