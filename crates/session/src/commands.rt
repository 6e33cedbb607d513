//! Commands, each by its own function.

ghost use Rattle.std.specs.Prelude.{◌≡◌, IfOk};
ghost use Rattle.session_grammar.specs.Arguments.{IsInGrammar};
ghost use Rattle.model.specs.Answer.{command_answer};
ghost use Rattle.model.specs.Reads.{command_reads};
ghost use Rattle.session_replies.specs.Answered.{Answers};

use model::{Command, Moment, Session};
use session_listing::{list, newgroups, newnews};
use session_lookups::LookUps;
use session_posting::{ihave, post};
use session_reading::{fetch, group, last, list_group, next, over};
use session_replies::{Answered, FixedBlock, date, mode_reader, quit, says_block};
use std::alloc::{AllocError, Global};

/// The answer to a command, with what it reads.
#[tactic(auto, unfolding(model::specs::Answer::command_answer, model::specs::Reads::command_reads))]
pub(crate) fn command<L: LookUps>(
    alloc: Global,
    spool: &L,
    session: &Session,
    command: Command,
    moment: Moment,
) -> Result<Answered, AllocError>
    requires { IsInGrammar command }
    ensures { IfOk result (λ r. Answers (L.octets_of spool.now) (L.keeps spool.now) r
        (command_answer (L.host_of spool.now) (L.changes spool.now) session.now moment command)
        (command_reads (L.host_of spool.now) (L.changes spool.now) session.now moment command)) }
{
    match command {
        Command::Capabilities => says_block(alloc, session, FixedBlock::Capabilities),
        Command::ModeReader => mode_reader(alloc, session, spool.host()),
        Command::Quit => quit(alloc, session),
        Command::Help => says_block(alloc, session, FixedBlock::Help),
        Command::Date => date(alloc, session, moment),
        Command::Group(name) => group(alloc, spool, session, name),
        Command::ListGroup(name, range) => list_group(alloc, spool, session, &name, &range),
        Command::Next => next(alloc, spool, session),
        Command::Last => last(alloc, spool, session),
        Command::Fetch(part, selector) => fetch(alloc, spool, session, &part, &selector),
        Command::Over(wanted) => over(alloc, spool, session, &wanted),
        Command::List(listing, wildmat) => list(alloc, spool, session, listing, &wildmat),
        Command::NewGroups { date, time } => {
            let (date, time) = (date.as_slice(), time.as_slice());
            newgroups(alloc, spool, session, date, time, moment)
        }
        Command::NewNews {
            wildmat,
            date,
            time,
        } => {
            let (date, time) = (date.as_slice(), time.as_slice());
            newnews(
                alloc,
                spool,
                session,
                wildmat.as_slice(),
                date,
                time,
                moment,
            )
        }
        Command::Post => post(alloc, session),
        Command::Ihave(id) => ihave(alloc, spool, session, id.as_slice()),
    }
}
