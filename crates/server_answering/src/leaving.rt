//! How a session's thread leaves its caller's blocks to the thread that flushes.

use crate::answering::{SessionThread, ending_of};
use crate::counts::Counted;
use crate::http::is_http;
use kernel_shared::{ExecOutcome, Hooks, Kern};
use model::{Message, Mode};
use server_attending::Offered;
use server_logging::{Ending, PostRefusal};
use server_releasing::TakenBack;
use std::sync::Wait;
use std::time::Clock;

/// What a session awaits.
#[derive(Clone, Copy)]
pub(crate) struct Awaited {
    /// The number of the session.
    session: u64,
    /// What its caller sends next. `None` if it was closed.
    pub(crate) mode: Option<Mode>,
    /// A block was left, and its thread has not asked what became of it.
    has_left: bool,
}

impl Awaited {
    /// No message was read yet.
    pub(crate) fn at_start(session: u64, mode: Option<Mode>) -> Awaited {
        Awaited {
            session,
            mode,
            has_left: false,
        }
    }

    /// A message was answered.
    fn after(self, answered: ExecOutcome) -> Awaited {
        Awaited::at_start(self.session, answered.next)
    }
}

impl<'a, 'b, R: Wait + Clock, K: Kern, H: Hooks> SessionThread<'a, 'b, R, K, H> {
    /// Has a message answered, or leaves it if it is a block with which the caller waits for its replies. What came of the
    /// block before it is known. Otherwise says why the session ends.
    pub(crate) fn serve_next(
        &mut self,
        settled: Result<Awaited, Ending>,
        message: Message,
        is_last: bool,
        counts: &mut Counted,
    ) -> Result<Awaited, Ending> {
        let settled = settled?;
        if settled.mode.is_none() {
            return Err(Ending::Quit);
        }
        if is_http(&message) {
            return Err(Ending::Http);
        }
        match message {
            Message::Block(_) if is_last => match self.leave(message, settled) {
                Ok(left) => Ok(left),
                Err(block) => self.serve_message(settled, block, counts),
            },
            _ => self.serve_message(settled, message, counts),
        }
    }

    /// Has a message answered.
    fn serve_message(
        &mut self,
        settled: Awaited,
        message: Message,
        counts: &mut Counted,
    ) -> Result<Awaited, Ending> {
        let answered = match settled.mode {
            Some(Mode::Block) => self.have_judged(&message, settled.session)?,
            Some(Mode::Line) | None => self.have_answered(&message)?,
        };
        counts.note(settled.mode.unwrap_or(Mode::Line), answered);
        Ok(settled.after(answered))
    }

    /// Has a post or a transfer of a session answered that is awaited, and tells the log of it.
    fn have_judged(&mut self, message: &Message, session: u64) -> Result<ExecOutcome, Ending> {
        let offered = Offered { session, message };
        let answered = self.have_answered(message);
        match answered {
            Ok(answered) => self.verdicts.tell(self.shared, offered, answered),
            Err(ending) => {
                if let Some(cause) = refusal_of(ending) {
                    self.verdicts.tell_refused(self.shared, session, cause);
                }
            }
        }
        answered
    }

    /// Leaves a block, unless the session holds an output or has something to write. The block is given back then.
    fn leave(&mut self, block: Message, settled: Awaited) -> Result<Awaited, Message> {
        let moment = self.moments.now(self.shared.rt, self.log);
        let untold = self
            .writer
            .leave(self.shared.rt, &mut self.hand, block, moment)?;
        untold.tell(self.shared.bells);
        Ok(Awaited {
            mode: Some(Mode::Line),
            has_left: true,
            ..settled
        })
    }

    /// Asks what became of the block that was left, if one was, and has it answered if nothing did. It is called before
    /// anything else of the session is answered, and before the session ends.
    pub(crate) fn settle_left(
        &mut self,
        awaited: Awaited,
        counts: &mut Counted,
    ) -> Result<Awaited, Ending> {
        if !awaited.has_left {
            return Ok(awaited);
        }
        let answered = match self.writer.take_back(self.shared.rt, &mut self.hand) {
            None => return Err(Ending::Failed),
            Some(TakenBack::Block(block)) => self.have_judged(&block, awaited.session)?,
            Some(TakenBack::Filed(Ok(answered))) => answered,
            Some(TakenBack::Filed(Err(error))) => return Err(ending_of(error)),
        };
        counts.note(Mode::Block, answered);
        Ok(awaited.after(answered))
    }
}

/// Why a post or a transfer was refused with which its session ended so, if it was.
fn refusal_of(ending: Ending) -> Option<PostRefusal> {
    match ending {
        Ending::Memory => Some(PostRefusal::Memory),
        _ => None,
    }
}

/// Why a session ends whose stream ends for this reason, after what came of the block before is known.
pub(crate) fn end_of(settled: Result<Awaited, Ending>, stop: Ending) -> Ending {
    match settled {
        Ok(settled) if settled.mode.is_none() => Ending::Quit,
        Ok(_) => stop,
        Err(why) => why,
    }
}
