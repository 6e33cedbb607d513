//! The step of a session: the answer to one message, its mark, and what it reads. `specs/Answer.antt` and
//! `specs/Reads.antt` of the crate `model` say what each step is. Each call is refused only for want of memory.

ghost use Rattle.std.specs.Prelude.{◌≡◌, IfOk, IsSome, None, if◌then◌else◌};
ghost use Rattle.model.specs.Answer as answers;
ghost use Rattle.model.specs.Reads.{reads};
ghost use Rattle.model.specs.declared.message.Mark.TheVariants as mark;
ghost use Rattle.kernel_outbox.specs.Lines.{IsKept};
ghost use Rattle.session_posting.specs.Outcomes.{said};
ghost use Rattle.session_replies.specs.Answered.{made_answer, reply_of};
ghost use Rattle.session.specs.Served.{refusal_in};
ghost use Rattle.session.specs.Steps.{IsStep, step_of};

use crate::messages::{at_ihave, at_line, at_nothing, at_post};
use model::{Awaits, Moment, Session};
use session_lookups::LookUps;
use session_posting::Step;
use session_received::Received;
use std::alloc::{AllocError, Global};

/// Answers a message at the given moment. A line is a command (RFC 3977, section 3.1), and a block is the article that
/// POST or IHAVE asked for; a message of another kind than the session awaits is a bad line. The answer is that of
/// `specs/Answer.antt` for this mark. It does not check for room and changes nothing: the caller files the article that
/// it accepts, which has already been read.
pub(crate) fn step<'m, L: LookUps>(
    alloc: Global,
    spool: &L,
    session: &Session,
    received: Received<'m>,
    moment: Moment,
) -> Result<Step<'m>, AllocError>
    ensures answer { IfOk result (λ step. made_answer (L.octets_of spool.now) (said step).answered
        ≡ answers.answer (L.host_of spool.now) (L.changes spool.now) session.now received.entry moment step.mark) }
    ensures kept { IfOk result (λ step. IsKept (L.keeps spool.now) (reply_of step.answered)) }
    ensures unlined { IfOk result (λ step. IsSome step.accepted → step.answered.lines ≡ None) }
    ensures reads { IfOk result (λ step. step.answered.reads ≡ reads (L.host_of spool.now)
        (L.changes spool.now) session.now received.entry moment step.mark) }
    ensures refusal { IfOk result (λ step. step.refusal ≡ refusal_in (L.host_of spool.now)
        (L.changes spool.now) session.now received.entry step.mark) }
    ensures mark { IfOk result (λ step. step.mark ≡ if answers.is_long (L.host_of spool.now)
        (L.changes spool.now) session.now received.entry then mark.Long else mark.Served) }
{
    Ok(by_kind(alloc, spool, session, received, moment)?)
}

/// The step by what the session awaits.
fn by_kind<'m, L: LookUps>(
    alloc: Global,
    spool: &L,
    session: &Session,
    received: Received<'m>,
    moment: Moment,
) -> Result<Step<'m>, AllocError>
    ensures { IfOk result (λ step. IsStep (L.octets_of spool.now) (L.keeps spool.now) (said step)
        (step_of (L.host_of spool.now) (L.changes spool.now) session.now moment session.now.awaits received.entry)) }
{
    match &session.awaits {
        Awaits::Line => at_line(alloc, spool, session, received, moment),
        Awaits::PostBlock => at_post(alloc, spool, session, received, moment),
        Awaits::IhaveBlock(id) => {
            at_ihave(alloc, spool, session, id.as_slice(), received, moment)
        }
        Awaits::Nothing => at_nothing(alloc, spool, session, received.message(), moment),
    }
}
