//! What a line of the operator asks for.

ghost use Rattle.std.specs.Prelude.{◌≡◌, ◌⊎◌, IfOk, IfErr, IfSome, IfNone};
ghost use Rattle.server_operator_lines.specs.Changes.{AsksNothing, DropsNothing, IsAskedBy, IsDropLine};

use crate::ages::{AgeRequest, ages_in};
use crate::line_changes::{Change, change_of};
use model::Moment;
use program_script::ParseError;
use server_roster::Chosen;
use std::alloc::Global;

/// What the operator asks for (docs/OPERATING.md).
#[derive(Drop)]
pub enum Request {
    /// A group is made, or articles are taken out of one.
    Change(Change),
    /// What is old is taken out, or listed.
    Ages(AgeRequest),
    /// What the server holds at present.
    Status,
    /// The sessions of the server.
    Sessions,
    /// The end of some sessions.
    Drop(Chosen),
    /// The server's end.
    Stop,
}

/// What the line begins with that ends sessions.
const DROP: &[u8] = b"drop ";

/// What a line asks for (docs/OPERATING.md). It is given without its LF, with the present moment, if
/// the clock gives one. `Bad` if it asks for nothing; `Memory` may come for a line
/// that asks for a change or an expiry by age, or for nothing. Neither changes anything.
pub fn request_of(alloc: Global, line: &[u8], now: Option<Moment>) -> Result<Request, ParseError>
    ensures ok { IfOk result (IsAskedBy now line.now) }
    ensures err { IfErr result (λ error. (error ≡ ParseError.Memory) ⊎ ((error ≡ ParseError.Bad) × AsksNothing now line.now)) }
{
    if line == b"status".as_slice() {
        return Ok(Request::Status);
    }
    if line == b"stop".as_slice() {
        return Ok(Request::Stop);
    }
    if line == b"sessions".as_slice() {
        return Ok(Request::Sessions);
    }
    if let Some(chosen) = dropped_by(line) {
        return Ok(Request::Drop(chosen));
    }
    match ages_in(alloc, line) {
        Ok(Some(request)) => return Ok(Request::Ages(request)),
        Ok(None) => {}
        Err(refused) => return Err(refused),
    }
    match change_of(alloc, line, now) {
        Ok(change) => Ok(Request::Change(change)),
        Err(refused) => Err(refused),
    }
}

/// The sessions that a line ends, if it ends any.
fn dropped_by(line: &[u8]) -> Option<Chosen>
    ensures some { IfSome result (IsDropLine line.now) }
    ensures none { IfNone result (DropsNothing line.now) }
{
    match line.strip_prefix(DROP) {
        Some(word) => Chosen::read(word),
        None => None,
    }
}
