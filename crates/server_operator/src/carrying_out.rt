//! What a line of the operator asks for, carried out.

ghost use Rattle.std.specs.Prelude.{◌≡◌, ◌≢◌, IfOk, IfErr, OnOk};
ghost use Rattle.server_operator.specs.Told.{HasSeenStop, IsSeen};

use crate::ages::take_out_old;
use crate::change_calls::make;
use crate::durable::{make_durable, wait_for_stop};
use crate::line_answer::{Answer, Refused, Told};
use crate::replies::Reply;
use crate::service::OperatorService;
use crate::sessions::{Listing, let_go};
use crate::status::Status;
use crossbeam_channel::Sender;
use kernel_shared::{Hand, Kern};
use program_script::ParseError;
use server_logging::moment;
use server_mark::Seat;
use server_operator_lines::{Change, Request, has_long_name, request_of};
use std::sync::Wait;
use std::time::Clock;

/// Does what a line asks for. Where the answer has parts, they are handed on before. A serial is answered only if the mark
/// was seen to have reached it. `stopped` and `Fault` are answered only if the flusher was seen to have stopped and the mark
/// was read after that, and `stopped` only if that mark reached the number of accepted changes.
pub fn answer<R: Wait + Clock, K: Kern>(
    service: &OperatorService<'_, R, K>,
    seat: &mut Seat,
    hand: &mut Hand,
    line: Result<Vec<u8>, Refused>,
    replies: &Sender<Reply>,
) -> Answer
    requires { seat.old.mark ≡ service.now.mark.now }
    ensures told { IfOk result (IsSeen seat.new) }
    ensures gone { OnOk line (IfErr result (λ error. error ≡ Refused.Fault → HasSeenStop seat.new)) }
    ensures mark { seat.new.mark ≡ seat.old.mark }
{
    let line = line?;
    match asked(service, line.as_slice())? {
        Request::Change(change) => carry_out(service, seat, hand, &change),
        Request::Ages(request) => take_out_old(service, seat, hand, &request, replies),
        Request::Status => {
            service.bells.watcher.unpark();
            Ok(Told::Status(Status::of(service)?))
        }
        Request::Sessions => Ok(Told::Sessions(Listing::of(
            service.rt,
            service.alloc,
            service.writers,
        )?)),
        Request::Drop(chosen) => Ok(Told::Dropped(let_go(service.rt, service.writers, &chosen)?)),
        Request::Stop => stop(service, seat),
    }
}

/// What a line asks for now. The refusal says so if the name of a group is too long.
fn asked<R: Wait + Clock, K: Kern>(
    service: &OperatorService<'_, R, K>,
    line: &[u8],
) -> Result<Request, Refused>
    ensures { IfErr result (λ error. error ≢ Refused.Fault) }
{
    match request_of(service.alloc, line, moment(service.rt)) {
        Ok(request) => Ok(request),
        Err(ParseError::Bad) if has_long_name(line) => Err(Refused::LongName),
        Err(error) => Err(Refused::from(error)),
    }
}

/// Makes a change, and waits until it is durable, as `make_durable` does.
fn carry_out<R: Wait, K: Kern>(
    service: &OperatorService<'_, R, K>,
    seat: &mut Seat,
    hand: &mut Hand,
    change: &Change,
) -> Answer
    requires { seat.old.mark ≡ service.now.mark.now }
    ensures told { IfOk result (IsSeen seat.new) }
    ensures gone { IfErr result (λ error. error ≡ Refused.Fault → HasSeenStop seat.new) }
    ensures mark { seat.new.mark ≡ seat.old.mark }
{
    let made = match make(service, hand, change) {
        Ok(made) => Ok(made.serial()),
        Err(refused) => Err(refused),
    };
    Ok(Told::Serial(make_durable(service, seat, made)?))
}

/// Asks the flusher to stop, and waits until it has stopped. `Fault` if it stopped for another reason, or if a change
/// was accepted that is not durable.
fn stop<R: Wait, K: Kern>(service: &OperatorService<'_, R, K>, seat: &mut Seat) -> Answer
    requires { seat.old.mark ≡ service.now.mark.now }
    ensures told { IfOk result (IsSeen seat.new) }
    ensures gone { IfErr result (λ error. error ≡ Refused.Fault → HasSeenStop seat.new) }
    ensures mark { seat.new.mark ≡ seat.old.mark }
{
    let OperatorService {
        rt,
        kern,
        mark,
        bells,
        ..
    } = service;
    bells.ask_to_stop();
    let durable = wait_for_stop(*rt, *mark, seat, *bells);
    let accepted = kern.counts(*rt).accepted;
    if bells.has_stopped() && accepted <= durable {
        Ok(Told::Stopped { accepted })
    } else {
        Err(Refused::Fault)
    }
}
