//! The groups as the commands see them.

ghost use Rattle.std.specs.Prelude.{◌≡◌, ◌<◌, Some, length, option_map, slice_get};
ghost use Rattle.model.specs.Spool.{Spool, group_named, groups};
ghost use Rattle.session_lookups.specs.Held as held;
ghost use Rattle.session_lookups.specs.Held.{all_known, known};

use crate::Index;
use session_lookups::GroupView;

impl Index {
    ghost use Rattle.spool_index.specs.View.{Indexes};

    /// The group with this name, as the commands see it.
    pub fn view(&self, name: &[u8]) -> Option<GroupView<'_>>
        ensures { (S : Spool) → Indexes S self.now → option_map held.shown result ≡ option_map (known S) (group_named S name.now) }
    {
        match self.group(name) {
            Some(group) => Some(group.view()),
            None => None,
        }
    }

    /// The number of groups.
    pub fn group_count(&self) -> usize
        ensures count { result ≡ length self.now.groups }
        ensures spool { (S : Spool) → Indexes S self.now → result ≡ length (groups S) }
    {
        self.groups().len()
    }

    /// The group at this place, from 0, in rising serial, as the commands see it.
    pub fn view_at(&self, place: usize) -> GroupView<'_>
        requires { place < length self.now.groups }
        ensures { (S : Spool) → Indexes S self.now → slice_get (all_known S) place ≡ Some (held.shown result) }
    {
        self.groups()[place].view()
    }
}
