//! Many lives of a disk. Each begins with what the crash before it left, and a crash ends it. The functions do nothing.
#![tactic(auto)]

ghost use Rattle.model_lives.specs.Lives.{LivesAreOne, NothingIsUndone};
ghost use Rattle.model_lives.specs.Names.{IdsOutlive, NumbersOutlive};
ghost use Rattle.synchrony.specs.Service.{Service};

use model::{expiry_is_for_good, numbers_stay};

/// Many lives are those of one server that commits before it replies. It has the spool that the disk has, and in each
/// life what was sent begins its replies. No later life undoes what an earlier one left.
pub fn many_lives_are_one<Message, Session, Change, Mark>()
    ensures one { (service : Service Message Session Change Mark) → LivesAreOne service }
    ensures undone { (service : Service Message Session Change Mark) → NothingIsUndone service }
{}

/// In all later lives a number of a group names the same article as long as it names one, and a message-id that was
/// accepted is known.
pub fn names_outlive_crashes()
    ensures numbers { NumbersOutlive }
    ensures ids { IdsOutlive }
{
    numbers_stay();
    expiry_is_for_good();
}
