//! Batches of articles, as `rnews` reads them: each text follows a line `#! rnews LENGTH`, which states its number of
//! octets. A text with more than an article may have is passed over. Lines of a batch end in LF, those of a stored article in CRLF.
#![tactic(auto)]

mod laws;
mod line_ends;
mod reader;
mod rnews_batches;

pub use laws::{batches_are_read_back, line_ends_are_kept};
pub use line_ends::{with_crlf, with_lf};
pub use reader::{BatchError, BatchReader, BatchRefusal, Member};
pub use rnews_batches::{BatchCause, Front, TEXT_LIMIT, entry, find_text};
