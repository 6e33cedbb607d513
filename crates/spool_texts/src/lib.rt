//! The texts of a spool and its changes, read from the blocks that hold its files.
#![tactic(auto)]

mod article_texts;
mod change_copy;
mod overview_parts;
mod overviews;
mod sending;
mod stored_change;
mod text_places;

pub use article_texts::{push_article, push_part};
pub use change_copy::change_said;
pub use overview_parts::{overview_lines, push_some_lines};
pub use overviews::push_overview;
pub use sending::push_stuffed;
pub use stored_change::change;
