//! The state of a volume, in its blocks and on its device. The journal is opened and the blocks are loaded as for a
//! server, but no kernel is made of them. And the words that tell it: a table, and JSON.
#![tactic(auto)]

mod contents;
mod device_state;
mod gone;
mod json;
mod state;
mod table;

pub use contents::volume_status;
pub use device_state::{Examined, state_on};
pub use json::json_text;
pub use state::{Gone, GroupStatus, OVERVIEW_ROOM, Share, VolumeStatus};
pub use table::table_text;
