//! Messages, by what the session awaits.

ghost use Rattle.std.specs.Prelude.{◌≡◌, IfOk, None, Some};
ghost use Rattle.model.specs.Answer.{awaiting, line_answer, says};
ghost use Rattle.session_grammar.specs.Arguments.{IsParsed};
ghost use Rattle.model.specs.Reads.{line_reads};
ghost use Rattle.model.specs.declared.session.Awaits.TheVariants as waits;
ghost use Rattle.session_replies.specs.Answered.{Answers, answered};
ghost use Rattle.model.specs.Replies.{syntax_error};
ghost use Rattle.session_replies.specs.Replies.{sent};
ghost use Rattle.session_posting.specs.Outcomes.{said, said_of, said_served};
ghost use Rattle.session.specs.Steps.{IsStep, step_of};
ghost use Rattle.model.specs.declared.cause.Cause.TheVariants.{Long};
ghost use Rattle.session_posting.specs.declared.refusals.Refusal.TheVariants as too_long;

use crate::commands::command;
use model::{Awaits, Cause, Mark, Message, Moment, Parsed, Session};
use session_grammar::arguments_are_in_grammar;
use session_lookups::LookUps;
use session_posting::{Refusal, Step, ihave_block, post_block};
use session_received::Received;
use session_replies::{Answered, Reply, ends, says_line};
use std::alloc::{AllocError, Global};

/// An answer that is served and files nothing.
fn served<'m>(answered: Answered) -> Step<'m>
    requires { answered.answer.change ≡ None }
    ensures { said result ≡ said_served answered }
{
    Step {
        answered,
        accepted: None,
        refusal: None,
        mark: Mark::Served,
    }
}

/// The answer to a message that is not a line where one is awaited (RFC 3977, section 3.2.1).
fn bad<'m>(alloc: Global, session: &Session) -> Result<Step<'m>, AllocError>
    ensures { IfOk result (λ step. said step ≡ said_served (answered (says session.now syntax_error) 0)) }
{
    Ok(served(says_line(alloc, session, Reply::SyntaxError, 0)?))
}

/// The answer to a line, by what it is.
fn line<L: LookUps>(
    alloc: Global,
    spool: &L,
    session: &Session,
    parsed: Parsed,
    moment: Moment,
) -> Result<Answered, AllocError>
    requires { IsParsed parsed }
    ensures { IfOk result (λ r. Answers (L.octets_of spool.now) (L.keeps spool.now) r
        (line_answer (L.host_of spool.now) (L.changes spool.now) session.now moment parsed)
        (line_reads (L.host_of spool.now) (L.changes spool.now) session.now moment parsed)) }
{
    match parsed {
        Parsed::Command(read) => command(alloc, spool, session, read, moment),
        Parsed::Unknown => says_line(alloc, session, Reply::UnknownCommand, 0),
        Parsed::Bad => says_line(alloc, session, Reply::SyntaxError, 0),
    }
}

/// The answer where a line is awaited.
#[tactic(auto, unfolding(model::specs::Answer::served, model::specs::Reads::served_reads))]
pub(crate) fn at_line<'m, L: LookUps>(
    alloc: Global,
    spool: &L,
    session: &Session,
    received: Received<'m>,
    moment: Moment,
) -> Result<Step<'m>, AllocError>
    ensures { IfOk result (λ step. IsStep (L.octets_of spool.now) (L.keeps spool.now) (said step)
        (step_of (L.host_of spool.now) (L.changes spool.now) session.now moment waits.Line received.entry)) }
{
    match received.message() {
        Message::Line(_) => {
            arguments_are_in_grammar();
            let parsed = received.into_parsed()?;
            let answered = line(alloc, spool, session, parsed, moment)?;
            Ok(served(answered))
        }
        Message::Block(_) => bad(alloc, session),
        Message::TooLong => bad(alloc, session),
    }
}

/// The answer where the article after POST is awaited.
#[tactic(auto, unfolding(model::specs::Answer::served, model::specs::Reads::served_reads))]
pub(crate) fn at_post<'m, L: LookUps>(
    alloc: Global,
    spool: &L,
    session: &Session,
    received: Received<'m>,
    moment: Moment,
) -> Result<Step<'m>, AllocError>
    ensures { IfOk result (λ step. said step ≡ step_of (L.host_of spool.now) (L.changes spool.now) session.now moment waits.PostBlock
        received.entry) }
{
    match received.message() {
        Message::Block(_) => {
            let reading = received.into_reading()?;
            post_block(alloc, spool, session, reading, moment)
        }
        Message::TooLong => refused(alloc, session, Reply::NotAccepted),
        Message::Line(_) => bad(alloc, session),
    }
}

/// The answer where the article after IHAVE with this message-id is awaited.
#[tactic(auto, unfolding(model::specs::Answer::served, model::specs::Reads::served_reads))]
pub(crate) fn at_ihave<'m, L: LookUps>(
    alloc: Global,
    spool: &L,
    session: &Session,
    id: &[u8],
    received: Received<'m>,
    moment: Moment,
) -> Result<Step<'m>, AllocError>
    ensures { IfOk result (λ step. said step ≡ step_of (L.host_of spool.now) (L.changes spool.now) session.now moment
        (waits.IhaveBlock id.now) received.entry) }
{
    match received.message() {
        Message::Block(_) => {
            let reading = received.into_reading()?;
            ihave_block(alloc, spool, session, id, reading, moment)
        }
        Message::TooLong => refused(alloc, session, Reply::Rejected),
        Message::Line(_) => bad(alloc, session),
    }
}

/// The answer to an article that is too long to be read.
fn refused<'m>(alloc: Global, session: &Session, which: Reply) -> Result<Step<'m>, AllocError>
    ensures { IfOk result (λ step. said step
        ≡ said_of (Some (too_long.Text Long)) (answered (says (awaiting session.now waits.Line) (sent which)) 0)) }
{
    Ok(Step {
        refusal: Some(Refusal::Text(Cause::Long)),
        ..served(ends(alloc, session, which, Awaits::Line)?)
    })
}

/// The answer where nothing more is awaited.
#[tactic(auto, unfolding(model::specs::Answer::served, model::specs::Reads::served_reads))]
pub(crate) fn at_nothing<'m, L: LookUps>(
    alloc: Global,
    spool: &L,
    session: &Session,
    message: &'m Message,
    moment: Moment,
) -> Result<Step<'m>, AllocError>
    ensures { IfOk result (λ step. said step
        ≡ step_of (L.host_of spool.now) (L.changes spool.now) session.now moment waits.Nothing message.now) }
{
    bad(alloc, session)
}
