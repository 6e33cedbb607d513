//! The command of a line (RFC 3977, 3.1). `specs/Commands.antt` of the crate `model` says what each line is.
#![tactic(auto)]

ghost use Rattle.std.specs.Prelude.{◌≡◌, IfOk};
ghost use Rattle.model.specs.Commands.{parsed_line};
ghost use Rattle.session_grammar.specs.Arguments.{LinesAreInGrammar};

mod command_words;
mod commands;
mod keywords;

use command_words::{arguments_of, begins_blank, is_clean, next_word};
use commands::command;
use keywords::keyword_of;
use model::Parsed;
use std::alloc::{AllocError, Global};

/// Reads a command line without its CRLF: a command, `Unknown` if its keyword is not one, or `Bad` if the rest of the
/// line does not follow the keyword's grammar. An empty line and one that begins with a blank are `Unknown`. A line
/// with an octet other than SP, TAB and 33 to 126 is `Bad` if its keyword is known (both are this project's own rules).
/// A date or a time must consist of digits; whether the calendar has it is not checked.
pub fn read(alloc: Global, line: &[u8]) -> Result<Parsed, AllocError>
    ensures { IfOk result (λ parsed. parsed ≡ parsed_line line.now) }
{
    if begins_blank(line) {
        return Ok(Parsed::Unknown);
    }
    let Some((word, rest)) = next_word(line) else {
        return Ok(Parsed::Unknown);
    };
    let Some(keyword) = keyword_of(word) else {
        return Ok(Parsed::Unknown);
    };
    if !is_clean(line) {
        return Ok(Parsed::Bad);
    }
    match command(alloc, keyword, arguments_of(rest))? {
        Some(command) => Ok(Parsed::Command(command)),
        None => Ok(Parsed::Bad),
    }
}

/// The arguments of each command that is read follow their grammar: group names, message-ids, wildmats, dates and
/// times.
pub fn arguments_are_in_grammar()
    ensures { LinesAreInGrammar }
{}
