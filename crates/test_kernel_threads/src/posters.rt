//! Posters: each has a session of its own, and posts from a thread of its own.

ghost use Rattle.std.specs.Prelude.{IsTrue};
ghost use Rattle.kernel.specs.Kernel.{FitsMode};

use kernel::{BatchBuf, Kernel};
use kernel_shared::ExecError;
use model::{Mark, Message, Mode, Moment, Text};
use std::alloc::{AllocError, Global};
use std::sync::{Mutex, Wait};
use std::thread;

/// The articles of each poster.
pub(crate) const ARTICLES: u64 = 100;

/// How often a message is offered while the answer is to try again later.
const TRIES: u32 = 1_000_000;

/// A line of a body. Each article takes three blocks, so a batch has to be taken along the way.
const LINE: &[u8] = b"what two threads file under one lock is filed once, whoever comes first\r\n";

const LINES: u32 = 120;

/// The longest line and the longest block that a session may send, in octets.
const LINE_TEXT: usize = 510;

const BLOCK_TEXT: usize = 262_144;

/// The moment of the group and of all articles.
pub(crate) fn post_moment() -> Option<Moment> {
    Moment::at(1_000_000_000)
}

/// The message-id of an article.
pub(crate) fn message_id(alloc: Global, article: u64) -> Result<String, AllocError> {
    format!(in alloc; "<{article}@a.example>")
}

/// An article as it is posted.
fn text(alloc: Global, article: u64) -> Result<Vec<u8>, AllocError> {
    let id = message_id(alloc, article)?;
    let mut text = Vec::new(alloc);
    text.extend_from_slice(
        b"Path: p!not-for-mail\r\nDate: Sun, 09 Sep 2001 01:46:40 +0000\r\nMessage-ID: ",
    )?;
    text.extend_from_slice(id.as_bytes())?;
    text.extend_from_slice(b"\r\nFrom: a@example.org\r\nNewsgroups: x.a\r\nSubject: one\r\n\r\n")?;
    for _ in 0..LINES {
        text.extend_from_slice(LINE)?;
    }
    Ok(text)
}

/// Whether a session in this mode may send the message.
fn fits(mode: Option<Mode>, message: &Message) -> bool
    ensures { IsTrue result → FitsMode mode message.now }
{
    match (mode, message) {
        (Some(Mode::Line), Message::Line(line)) => line.as_slice().len() <= LINE_TEXT,
        (Some(Mode::Block), Message::Block(text)) => text.as_slice().len() <= BLOCK_TEXT,
        _ => false,
    }
}

/// A poster.
#[derive(Drop)]
pub(crate) struct Poster<'a> {
    kernel: &'a Mutex<Kernel>,
    session: u64,
    batch: BatchBuf,
    /// the number of batches that it took
    taken: u64,
}

impl<'a> Poster<'a> {
    /// A poster joins.
    pub(crate) fn join<R: Wait>(
        rt: &R,
        alloc: Global,
        kernel: &'a Mutex<Kernel>,
    ) -> Option<Poster<'a>> {
        let batch = BatchBuf::new(alloc).ok()?;
        let session = kernel.lock(rt).join(alloc).ok()?;
        Some(Poster {
            kernel,
            session,
            batch,
            taken: 0,
        })
    }

    /// Posts its articles, numbered from the first on. It answers how many batches it took; `None` if a post was
    /// refused.
    pub(crate) fn post_all<R: Wait>(self, rt: &R, alloc: Global, first: u64) -> Option<u64> {
        let mut poster = self;
        for article in first..first.saturating_add(ARTICLES) {
            let command = b"POST".to_vec(alloc).ok()?;
            let text = text(alloc, article).ok()?;
            let is_posted = poster.sends(rt, alloc, &Message::Line(Text::new(command)))
                && poster.sends(rt, alloc, &Message::Block(Text::new(text)));
            if !is_posted {
                return None;
            }
        }
        Some(poster.taken)
    }

    /// Whether a message was served. It is offered until the answer is no longer to try again later.
    fn sends<R: Wait>(&mut self, rt: &R, alloc: Global, message: &Message) -> bool {
        for _ in 0..TRIES {
            match self.exec(rt, alloc, message) {
                Ok(mark) => return matches!(mark, Mark::Served),
                Err(ExecError::LaterDirty) => self.commit(rt),
                Err(_) => return false,
            }
        }
        false
    }

    /// Offers a message.
    fn exec<R: Wait>(&self, rt: &R, alloc: Global, message: &Message) -> Result<Mark, ExecError> {
        let mut kernel = self.kernel.lock(rt);
        if !fits(kernel.mode(self.session), message) {
            return Err(ExecError::NoSession);
        }
        let Some(moment) = post_moment() else {
            return Err(ExecError::NoSession);
        };
        let outcome = kernel.exec(alloc, self.session, message, moment)?;
        Ok(outcome.mark)
    }

    /// Takes a batch, and releases the lock before it reports the batch as committed. While the other poster's batch is
    /// in flight, it lets that thread run.
    fn commit<R: Wait>(&mut self, rt: &R) {
        let taken = self.kernel.lock(rt).take_batch(&mut self.batch);
        thread::yield_now();
        if let Some(ticket) = taken {
            let told = self.kernel.lock(rt).committed(ticket);
            self.taken = self.taken.saturating_add(u64::from(told.is_ok()));
        }
    }
}
