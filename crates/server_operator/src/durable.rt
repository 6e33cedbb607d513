//! How the operator's thread waits for a change to be durable, or for the flusher's stop.

ghost use Rattle.std.specs.Prelude.{◌≡◌, ◌≢◌, ◌<◌, ◌≤◌, IfErr, IfOk, Ok, true, false};
ghost use Rattle.server_operator.specs.Told.{HasSeenStop};

use crate::line_answer::Refused;
use crate::service::OperatorService;
use kernel_shared::{Bells, Kern};
use server_mark::{Mark, Seat};
use std::sync::Wait;

/// Waits until this many changes are durable. Answers false if the flusher stopped before that: the number read after
/// the stop was seen is less.
pub(crate) fn is_durable<R: Wait>(
    rt: &R,
    mark: &Mark,
    seat: &mut Seat,
    bells: &Bells,
    serial: u64,
) -> bool
    requires { seat.old.mark ≡ mark.now }
    ensures told { result ≡ true → serial ≤ seat.new.seen }
    ensures gone { result ≡ false → HasSeenStop seat.new × (seat.new.seen < serial) }
    ensures mark { seat.new.mark ≡ seat.old.mark }
{
    'looks: for _ in rt.forever() {
        let has_stopped = mark.stopped(seat);
        if mark.durable(seat) >= serial {
            return true;
        }
        if has_stopped {
            return false;
        }
        bells.operator.park(rt);
    }
    unreachable!()
}

/// Waits until the change with this serial is durable. A refusal that reports what other changes did is answered once all changes
/// that were accepted before it are: otherwise it could tell of one that a crash undoes. `Fault` if the flusher stopped before that.
pub(crate) fn make_durable<R: Wait, K: Kern>(
    service: &OperatorService<'_, R, K>,
    seat: &mut Seat,
    made: Result<u64, Refused>,
) -> Result<u64, Refused>
    requires mark { seat.old.mark ≡ service.now.mark.now }
    requires made { IfErr made (λ error. error ≢ Refused.Fault) }
    ensures told { IfOk result (λ serial. serial ≤ seat.new.seen) }
    ensures same { IfOk result (λ serial. made ≡ Ok serial) }
    ensures gone { IfErr result (λ error. error ≡ Refused.Fault → HasSeenStop seat.new) }
    ensures mark { seat.new.mark ≡ seat.old.mark }
{
    let OperatorService {
        rt,
        kern,
        mark,
        bells,
        ..
    } = service;
    let (answer, awaited) = match made {
        Ok(serial) => (Ok(serial), serial),
        Err(refused) if refused.reports_changes() => (Err(refused), kern.counts(*rt).accepted),
        Err(refused) => return Err(refused),
    };
    bells.flush_now();
    if is_durable(*rt, *mark, seat, *bells, awaited) {
        answer
    } else {
        Err(Refused::Fault)
    }
}

/// Waits until the flusher has stopped, and answers the number of durable changes that was read after that.
pub(crate) fn wait_for_stop<R: Wait>(rt: &R, mark: &Mark, seat: &mut Seat, bells: &Bells) -> u64
    requires { seat.old.mark ≡ mark.now }
    ensures seen { result ≡ seat.new.seen }
    ensures stop { HasSeenStop seat.new }
    ensures mark { seat.new.mark ≡ seat.old.mark }
{
    'looks: for _ in rt.forever() {
        if mark.stopped(seat) {
            return mark.durable(seat);
        }
        bells.operator.park(rt);
    }
    unreachable!()
}
