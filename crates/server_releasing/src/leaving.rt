//! How a block gets into the kernel without its session's thread. That thread leaves the block at its desk and goes back
//! to read; the thread that flushes files it, that is, has the kernel answer it. The session's thread takes it back before
//! it has anything else answered, and then has it answered itself.
//!
//! A block is left only while the session holds no output and has nothing to write. So nothing can be released for its
//! session, no thread writes to its caller under the lock, and whoever has the lock has it for a short time.

use crate::answerable::Answerable;
use crate::{Hand, ReplyWriter, Shared};
use kernel_shared::{Bells, ExecError, ExecOutcome, Hooks, Kern};
use model::{Message, Moment};
use server_outgoing::{LeftBlock, Patience, Turn};
use session_received::Received;
use std::sync::Wait;
use std::thread;
use std::time::Clock;

/// The thread that flushes is not told yet of a block that was left. It has no `Drop`, so it must be.
pub struct Untold(());

impl Untold {
    /// Tells the thread that flushes of the block, unless it waits for later ones and looks then.
    pub fn tell(self, bells: &Bells) {
        let Untold(()) = self;
        bells.note_post(true);
    }
}

/// What became of a block that was left.
#[derive(Drop)]
pub enum TakenBack {
    /// Nothing yet. The session's thread has it answered.
    Block(Message),
    /// It was answered, or refused.
    Filed(Result<ExecOutcome, ExecError>),
}

/// A block that was left, after the thread that flushes had it answered.
#[derive(Drop)]
pub struct FiledBlock {
    pub session: u64,
    pub block: Message,
    pub answer: Result<ExecOutcome, ExecError>,
}

impl ReplyWriter {
    /// Leaves a block that came at this moment to the thread that flushes, which must be told. The block is given back if
    /// the session holds an output, has something to write, or has a caller that once took less than was written.
    pub fn leave<R: Wait>(
        &self,
        rt: &R,
        hand: &mut Hand,
        block: Message,
        moment: Moment,
    ) -> Result<Untold, Message> {
        let mut turn = self.desk.turn(rt, hand);
        if self.is_waiting() || self.is_slow() {
            turn.end_before_send();
            return Err(block);
        }
        let left = LeftBlock { block, moment };
        let left = turn.outgoing().leave(left);
        turn.note_left(left.is_ok());
        turn.end_before_send();
        match left {
            Ok(()) => Ok(Untold(())),
            Err(LeftBlock { block, .. }) => Err(block),
        }
    }

    /// What became of the block that was left; `None` if none was, or this was answered before. The session's thread
    /// calls this before it has anything else answered, and before it ends.
    pub fn take_back<R: Wait>(&self, rt: &R, hand: &mut Hand) -> Option<TakenBack> {
        let mut turn = self.desk.turn(rt, hand);
        let taken = match turn.outgoing().take_left() {
            Some(LeftBlock { block, .. }) => {
                turn.note_left(false);
                Some(TakenBack::Block(block))
            }
            None => turn.outgoing().take_filed().map(TakenBack::Filed),
        };
        turn.end_before_send();
        taken
    }

    /// Files the block that was left, if there is one, and writes the reply if that need not wait for a commit. Answers what
    /// became of it. Only the thread that flushes calls this. It waits for no lock: between its look and the lock the
    /// session's thread may take the block back and begin a long write. As long as a block is left, whoever has the lock
    /// has it for a short time.
    pub fn file_left<R: Wait + Clock, K: Kern, H: Hooks>(
        &self,
        shared: &Shared<'_, R, K, H>,
    ) -> Option<FiledBlock> {
        for _ in shared.rt.forever() {
            if !self.desk.has_left() {
                return None;
            }
            match self.desk.try_turn() {
                Some(turn) => return self.file_in(shared, turn),
                None => thread::yield_now(),
            }
        }
        unreachable!()
    }

    fn file_in<R: Wait + Clock, K: Kern, H: Hooks>(
        &self,
        shared: &Shared<'_, R, K, H>,
        mut turn: Turn<'_>,
    ) -> Option<FiledBlock> {
        let filed = self.file(shared, &mut turn);
        if self.end_written(turn) {
            self.catch_up(shared);
        }
        filed
    }

    /// Has the kernel answer the block that was left, and writes what is ready at once. A block that is refused because too
    /// many blocks are dirty stays left: then this turn takes a batch, and the next one files it.
    fn file<R: Wait + Clock, K: Kern, H: Hooks>(
        &self,
        shared: &Shared<'_, R, K, H>,
        turn: &mut Turn<'_>,
    ) -> Option<FiledBlock> {
        let left = turn.outgoing().take_left()?;
        let received = Received::of(shared.alloc, &left.block);
        let answer = match Answerable::without_place(received) {
            Some(answerable) => self.answer_into(shared, turn, answerable, left.moment),
            // only blocks are left
            None => Err(ExecError::NoSession),
        };
        if let Err(ExecError::LaterDirty | ExecError::LaterOut) = answer {
            self.desk.note_waiting(false);
            let _ = turn.outgoing().leave(left);
            return None;
        }
        turn.note_left(false);
        let outgoing = turn.outgoing();
        outgoing.note_filed(answer);
        shared.write(outgoing, Patience::None);
        let LeftBlock { block, .. } = left;
        Some(FiledBlock {
            session: outgoing.sid,
            block,
            answer,
        })
    }
}
