//! A group as the commands see it.

ghost use Rattle.std.specs.Prelude.{◌≡◌};
ghost use Rattle.session_lookups.specs.Held as held;
ghost use Rattle.spool_groups.specs.Shown.{shown};

use crate::group::Group;
use session_lookups::GroupView;

impl Group {
    ghost use Rattle.spool_groups.specs.Finding.{known_in};

    /// The group as the commands see it.
    pub fn view(&self) -> GroupView<'_>
        ensures { held.shown result ≡ known_in (shown self.now) }
    {
        GroupView {
            serial: self.serial(),
            name: self.name(),
            status: self.status(),
            description: self.description(),
            moment: self.moment().seconds(),
            low: self.low(),
            high: self.high(),
            last: self.last(),
        }
    }
}
