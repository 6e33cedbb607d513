//! Consoles besides the streams with which the server was started. Each hands on one line at a time, and writes the answer as it comes. So
//! the answers of two consoles never mix, and one that nobody reads holds up no other.

use crate::desk::{Kept, Order};
use crossbeam_channel::{Receiver, Sender, unbounded};
use server_copying::CopyJob;
use server_operator::{Refused, Reply, write_answer};
use server_operator_lines::{ANSWER_END, LINE_OCTETS, Next, next_line};
use std::alloc::{AllocError, Global};
use std::io::{self, BufRead, ErrorKind, Write};
use std::sync::Wait;

/// A way in for the lines of another console.
#[derive(Drop)]
pub struct Console {
    order: Sender<Order>,
}

impl Console {
    pub(crate) fn new(order: Sender<Order>) -> Console {
        Console { order }
    }

    /// One more. Refused only for want of memory.
    pub fn another(&self) -> Result<Console, AllocError> {
        Ok(Console {
            order: self.order.clone()?,
        })
    }

    /// Reads the next line; `None` where there are no more. One that is too long isn't kept. An `Err` is that of the stream, or one for
    /// want of memory.
    pub fn next<R: Wait, L: BufRead>(
        &self,
        rt: &R,
        alloc: Global,
        lines: &mut L,
    ) -> io::Result<Option<Kept>> {
        let mut line = Vec::with_capacity(alloc, LINE_OCTETS)?;
        match next_line(rt, lines, &mut line)? {
            Next::Line => Ok(Some(Ok(line))),
            Next::TooLong => Ok(Some(Err(Refused::Bad))),
            Next::End => Ok(None),
        }
    }

    /// Hands a line on, and writes its answer and `ANSWER_END`. An `Err` is that of the stream, or one for want of memory, or the server
    /// has ended; what was asked may be done then.
    pub fn answer<R: Wait, A: Write>(
        &self,
        rt: &R,
        alloc: Global,
        line: Kept,
        answers: &mut A,
    ) -> io::Result<()> {
        let answer = self.hand_on(rt, alloc, line)?;
        let _unwritten = write_whole(rt, &answer, answers)?;
        write_end(answers)
    }

    /// The server waits with its end until the result is dropped, for a second at most. An `Err` where it has ended, or for want of memory.
    pub fn write_before_end<R: Wait>(
        &self,
        rt: &R,
        alloc: Global,
    ) -> io::Result<Option<Sender<()>>> {
        let (replies, answer) = unbounded(alloc)?;
        self.order(rt, Order::Writes(replies))?;
        match answer.recv(rt) {
            Ok(Reply::Unwritten(unwritten)) => Ok(unwritten),
            _ => Err(ended()),
        }
    }

    /// Has the flusher copy blocks. An `Err` where the server has ended.
    pub fn copy<R: Wait>(&self, rt: &R, job: CopyJob) -> io::Result<()> {
        self.order(rt, Order::Copy(job))
    }

    /// Tells the flusher that a portion of a copy is on the way back. An `Err` where the server has ended.
    pub fn note_emptied<R: Wait>(&self, rt: &R) -> io::Result<()> {
        self.order(rt, Order::Emptied)
    }

    /// Wakes the thread that watches files. An `Err` where the server has ended.
    pub fn wake_watcher<R: Wait>(&self, rt: &R) -> io::Result<()> {
        self.order(rt, Order::Watch)
    }

    /// Hands a line on, and answers where its answer comes.
    fn hand_on<R: Wait>(&self, rt: &R, alloc: Global, kept: Kept) -> io::Result<Receiver<Reply>> {
        let (replies, answer) = unbounded(alloc)?;
        self.order(rt, Order::AskedThere(kept, replies))?;
        Ok(answer)
    }

    fn order<R: Wait>(&self, rt: &R, order: Order) -> io::Result<()> {
        match self.order.send(rt, order) {
            Ok(()) => Ok(()),
            Err(_) => Err(ended()),
        }
    }
}

/// Writes an answer as its parts come. What the result has is to be kept until what stands behind it is written, too.
fn write_whole<R: Wait, A: Write>(
    rt: &R,
    replies: &Receiver<Reply>,
    answers: &mut A,
) -> io::Result<Option<Sender<()>>> {
    for _ in rt.forever() {
        match replies.recv(rt) {
            Ok(Reply::Part(told)) => write_answer(answers, &Ok(told))?,
            Ok(Reply::AnswerThere(answer, unwritten)) => {
                write_answer(answers, &answer)?;
                return Ok(unwritten);
            }
            Ok(Reply::Answer(_) | Reply::Unwritten(_) | Reply::Ends) | Err(_) => {
                return Err(ended());
            }
        }
    }
    unreachable!()
}

/// Writes what stands behind an answer, and flushes.
pub fn write_end<A: Write>(answers: &mut A) -> io::Result<()> {
    answers.write_all(ANSWER_END)?;
    answers.write_all(b"\n")?;
    answers.flush()
}

/// The server has ended.
fn ended() -> io::Error {
    io::Error::from(ErrorKind::BrokenPipe)
}
