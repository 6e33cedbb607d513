//! The call of the kernel that makes a change.

ghost use Rattle.std.specs.Prelude.{◌≡◌, ◌≢◌, IfErr, IfOk};
ghost use Rattle.server_operator.specs.Treated.{IsMadeOf};

use crate::line_answer::Refused;
use crate::service::OperatorService;
use crate::treated::Made;
use kernel_shared::{AdminError, Admitted, Bells, ExpireError, Expired, Hand, Kern};
use server_operator_lines::Change;
use std::sync::Wait;
use text_names::{GroupName, GroupRequest};

/// Makes the change that a line asks for, and answers it with its serial. If the kernel cannot take it now, it is asked again after
/// the next batch.
pub(crate) fn make<'c, R: Wait, K: Kern>(
    service: &OperatorService<'_, R, K>,
    hand: &mut Hand,
    change: &'c Change,
) -> Result<Made<'c>, Refused>
    ensures made { IfOk result (IsMadeOf change.now) }
    ensures refused { IfErr result (λ error. error ≢ Refused.Fault) }
{
    match change {
        Change::Group(request) => Ok(Made::Group(make_group(service, hand, request)?)),
        Change::Expiry { name, number } => Ok(Made::Expiry(expire(service, hand, name, *number)?)),
    }
}

/// Makes a group, and answers it with its serial. If the kernel cannot take it now, it is asked again after the next batch.
fn make_group<'g, R: Wait, K: Kern>(
    service: &OperatorService<'_, R, K>,
    hand: &mut Hand,
    request: &'g GroupRequest,
) -> Result<Admitted<'g>, AdminError>
    ensures { IfOk result (λ admitted. admitted.group.now ≡ request.now) }
{
    let OperatorService {
        rt,
        alloc,
        kern,
        bells,
        ..
    } = service;
    for _ in rt.forever() {
        let noted = bells.later.count();
        match kern.admin(*rt, *alloc, request) {
            Err(AdminError::LaterDirty) => put_off(*rt, hand, *bells, noted),
            answer => return answer,
        }
    }
    unreachable!()
}

/// Takes the articles of a group up to a number out of it, and answers that expiry with its serial. If the kernel cannot take
/// it now, it is asked again after the next batch.
pub(crate) fn expire<'n, R: Wait, K: Kern>(
    service: &OperatorService<'_, R, K>,
    hand: &mut Hand,
    name: &'n GroupName,
    number: u32,
) -> Result<Expired<'n>, ExpireError>
    ensures { IfOk result (λ expired. (expired.name.now ≡ name.now) × (expired.number ≡ number)) }
{
    let OperatorService {
        rt,
        kern,
        bells,
        ..
    } = service;
    for _ in rt.forever() {
        let noted = bells.later.count();
        match kern.expire(*rt, name, number) {
            Err(ExpireError::LaterDirty) => put_off(*rt, hand, *bells, noted),
            answer => return answer,
        }
    }
    unreachable!()
}

/// Waits until a batch has been taken, or something released, since the count was noted.
fn put_off<R: Wait>(rt: &R, hand: &mut Hand, bells: &Bells, noted: u64) {
    bells.flush_now();
    bells.later.wait_past(rt, hand, noted);
}
