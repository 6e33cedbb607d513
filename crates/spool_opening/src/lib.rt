//! Opens a spool in the files of a volume (docs/FORMATS.md). In the order of serials, each change is read from its file
//! and checked against the changes before it, and the numbers and overviews of its groups must continue with it. At the
//! end no other file may exist. Each part says exactly when the blocks can hold no spool.
#![tactic(auto)]

mod all;
mod continued_lines;
mod ending;
mod laws;
mod next;
mod replay;
mod spool_at_opening;

pub use all::replay_all;
pub use continued_lines::{goes_on, line_sizes};
pub use ending::{are_as_many, are_whole};
pub use laws::{
    changes_are_read_in_order, changes_that_were_read_are_held,
    numbers_and_overviews_are_the_spools, one_change_more_is_read,
};
pub use next::replay_next;
pub use replay::{Replay, replay_article, replay_expiry, replay_group};
pub use spool_at_opening::open;
