//! The way of an answer to the thread that writes it.

use crate::line_answer::{Answer, Told};
use crossbeam_channel::{SendError, Sender};
use std::sync::Wait;
use std::thread;

/// What the thread that writes waits for.
#[derive(Drop)]
pub enum Reply {
    /// A part of the answer to a line, of which more comes.
    Part(Told),
    /// The answer to a line, or the end of it.
    Answer(Answer),
    /// The same for another console, which keeps what is beside it until the answer is written.
    AnswerThere(Answer, Option<Sender<()>>),
    /// What another console keeps while the server is to wait for it with its end.
    Unwritten(Option<Sender<()>>),
    /// There are no more answers.
    Ends,
}

/// Hands a reply on to the thread that writes. It waits for nothing but memory. A reply to a thread that has ended is dropped.
pub fn hand_on<R: Wait>(rt: &R, replies: &Sender<Reply>, reply: Reply) {
    let mut next = reply;
    for _ in rt.forever() {
        match replies.send(rt, next) {
            Ok(()) | Err(SendError::Disconnected(_)) => return,
            Err(SendError::OutOfMemory(kept)) => {
                thread::yield_now();
                next = kept;
            }
        }
    }
    unreachable!()
}
