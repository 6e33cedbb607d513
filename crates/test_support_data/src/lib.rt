//! Rows of tests as lines of text: how the calls of a row and their arguments are read, and how answers are printed.
//! It has no contracts.
//!
//! A line `== AREA: NAME` begins a row, and the lines after it are its calls, which are made in turn. A call is a word,
//! and then its arguments, with a space between them. Octets are texts in quotes, or names of texts, with `+` between
//! them; `3*"a"` is a text three times. In quotes `\r`, `\n`, `\t`, `\\`, `\"` and `\x80` stand for one octet each. A
//! line `-- NAME OCTETS` names a text for the rows after it, and a line `# ..` is a remark.
#![tactic(auto)]

mod answers;
mod arguments;
mod literals;
mod playing;
mod quotes;

pub use answers::Answer;
pub use arguments::{Arguments, RowError, Texts};
pub use literals::unescaped;
pub use playing::{Area, Row, Rows, play};
pub use quotes::{push_quoted, split_outside_quotes};
