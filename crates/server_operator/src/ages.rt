//! Expiries by age, carried out group by group.

ghost use Rattle.std.specs.Prelude.{◌≡◌, ◌≢◌, IfErr, IfOk};
ghost use Rattle.server_operator.specs.Told.{HasSeenStop, IsExpiryOf, IsSeen};
ghost use Rattle.server_operator.specs.Treated.{HasGoneOver, IsTreatedAs};

use crate::change_calls::expire;
use crate::durable::make_durable;
use crate::line_answer::{Answer, Refused, Told};
use crate::replies::{Reply, hand_on};
use crate::service::OperatorService;
use crate::treated::Treated;
use crossbeam_channel::Sender;
use kernel_expiring::{AgedArticles, AgedGroup, TreatOld, since, treat_old};
use kernel_shared::{Hand, Kern};
use server_logging::moment;
use server_mark::Seat;
use server_operator_lines::AgeRequest;
use std::sync::Wait;
use std::time::Clock;
use text_names::{GroupName, Wildmat};

/// Treats the old articles of a running server's volume, and hands on what was done.
#[derive(Drop)]
struct Treating<'a, 'b, R, K> {
    service: &'a OperatorService<'b, R, K>,
    replies: &'a Sender<Reply>,
    is_dry: bool,
}

impl<'a, 'b, R: Wait, K: Kern> TreatOld for Treating<'a, 'b, R, K> {
    ghost use Rattle.std.specs.Prelude.{◌≡◌};
    ghost use Rattle.server_operator.specs.Treated.{KeepsMark};

    type Volume = Seat;

    /// What the thread needs to wait for the one that flushes.
    type Output = Hand;

    type Refusal = Refused;

    ghost is_ready = { λ treating seat. seat.mark ≡ treating.service.now.mark.now };

    ghost found = { λ treating _ place wildmat since group. K.found treating.service.now.kern.now place wildmat since group };

    ghost treated = { λ _ old new aged result. KeepsMark old new aged result };

    /// The kernel's lock is held for one group at a time, and threads that wait for it are let in before the next one.
    fn find(&self, _volume: &Seat, place: usize, wildmat: &Wildmat, since: u64) -> AgedGroup {
        self.service.asking.make_room();
        self.service
            .kern
            .aged(self.service.rt, place, wildmat, since)
    }

    /// What was done is handed on once it is durable.
    fn treat(&self, volume: &mut Seat, hand: &mut Hand, aged: AgedArticles) -> Result<(), Refused> {
        match treat(self.service, volume, hand, aged, self.is_dry) {
            Ok(told) => {
                hand_on(self.service.rt, self.replies, Reply::Part(told));
                Ok(())
            }
            Err(refused) => Err(refused),
        }
    }
}

/// Takes the old articles out of one group after the other, or says which these are, and hands on what was done to each group
/// once that is durable. Answers how many articles these were; one that is in two groups counts twice. `Bad` if the clock gives
/// no time. After a refusal what was handed on is taken out.
pub(crate) fn take_out_old<R: Wait + Clock, K: Kern>(
    service: &OperatorService<'_, R, K>,
    seat: &mut Seat,
    hand: &mut Hand,
    request: &AgeRequest,
    replies: &Sender<Reply>,
) -> Answer
    requires { seat.old.mark ≡ service.now.mark.now }
    ensures over { IfOk result (HasGoneOver (λ place since group. K.found service.now.kern.now place request.now.wildmat since group)
        request.now.days seat.old seat.new) }
    ensures told { IfOk result (IsSeen seat.new) }
    ensures gone { IfErr result (λ error. error ≡ Refused.Fault → HasSeenStop seat.new) }
    ensures mark { seat.new.mark ≡ seat.old.mark }
{
    let Some(now) = moment(service.rt) else {
        return Err(Refused::Bad);
    };
    let since = since(now.seconds(), request.days);
    let treating = Treating {
        service,
        replies,
        is_dry: request.is_dry,
    };
    match treat_old(&treating, seat, hand, &request.wildmat, since) {
        Ok(articles) => Ok(Told::Articles(articles)),
        Err(refused) => Err(refused),
    }
}

/// Takes the old articles out of a group, or says which these are. What is told is durable.
fn treat<R: Wait, K: Kern>(
    service: &OperatorService<'_, R, K>,
    seat: &mut Seat,
    hand: &mut Hand,
    aged: AgedArticles,
    is_dry: bool,
) -> Answer
    requires { seat.old.mark ≡ service.now.mark.now }
    ensures told { IfOk result (IsSeen seat.new) }
    ensures same { IfOk result (IsExpiryOf aged is_dry) }
    ensures gone { IfErr result (λ error. error ≡ Refused.Fault → HasSeenStop seat.new) }
    ensures mark { seat.new.mark ≡ seat.old.mark }
{
    let AgedArticles { name, number, .. } = aged;
    let (made, number) = match expire_unless_dry(service, hand, &name, number, is_dry) {
        Ok(treated) => (Ok(treated.serial()), treated.number()),
        Err(refused) => (Err(refused), number),
    };
    let serial = make_durable(service, seat, made)?;
    Ok(Told::Expiry {
        serial: (!is_dry).then_some(serial),
        name,
        number,
    })
}

/// Takes the articles of a group up to a number out of it. In a dry run it changes nothing.
fn expire_unless_dry<'n, R: Wait, K: Kern>(
    service: &OperatorService<'_, R, K>,
    hand: &mut Hand,
    name: &'n GroupName,
    number: u32,
    is_dry: bool,
) -> Result<Treated<'n>, Refused>
    ensures treated { IfOk result (IsTreatedAs name.now number is_dry) }
    ensures refused { IfErr result (λ error. error ≢ Refused.Fault) }
{
    if is_dry {
        return Ok(Treated::Told {
            number,
            last: service.kern.counts(service.rt).accepted,
        });
    }
    Ok(Treated::TakenOut(expire(service, hand, name, number)?))
}
