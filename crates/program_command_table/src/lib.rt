//! The words of `newsd` as a table, what each of them may be, and the grammar that the parser makes of it with its help.
#![tactic(auto)]

mod grammars;
mod syntax;
pub mod table;

pub use grammars::{Grammar, article_number, session_number};
pub use syntax::{VERSION, command_syntax};
