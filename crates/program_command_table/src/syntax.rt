//! The grammar of the program's words, and its help.

use crate::table::{
    Kind, Subcommand, Word, first_subcommands, last_subcommands, serving_subcommands,
};
use clap::{Arg, ArgAction, ArgGroup, Command, value_parser};
use std::alloc::{AllocError, Global};

/// The version that `newsd --version` prints, behind which it says the commit.
pub const VERSION: &str = "0.9.0";

/// The group of words of which at least one has to be given.
const ONE_OF: &str = "one of";

/// The program's words, one level of subcommands.
pub fn command_syntax<'a>(alloc: Global) -> Result<Command<'a>, AllocError> {
    let command = Command::new(alloc, "newsd")
        .bin_name("newsd")?
        .version(VERSION)
        .about("A Usenet server that releases no reply before what it says is on disk")
        .subcommand_required(true);
    let command = with_rows(alloc, command, first_subcommands())?;
    let command = with_rows(alloc, command, serving_subcommands())?;
    with_rows(alloc, command, last_subcommands())
}

/// Adds the subcommands of a part of the table.
fn with_rows<'a>(
    alloc: Global,
    command: Command<'a>,
    rows: &[Subcommand],
) -> Result<Command<'a>, AllocError> {
    let mut command = command;
    for row in rows {
        command = command.subcommand(subcommand(alloc, row)?)?;
    }
    Ok(command)
}

fn subcommand<'a>(alloc: Global, row: &Subcommand) -> Result<Command<'a>, AllocError> {
    let mut command = Command::new(alloc, row.name).about(row.about);
    if let Some(text) = row.after_help {
        command = command.after_help(text);
    }
    for word in row.words {
        command = command.arg(argument(alloc, word))?;
    }
    if !row.one_of.is_empty() {
        let group = ArgGroup::new(alloc, ONE_OF).args(row.one_of)?;
        command = command.group(group.required(true).multiple(true))?;
    }
    Ok(command)
}

/// A word as the parser takes it.
fn argument<'a>(alloc: Global, word: &Word) -> Arg<'a> {
    let argument = Arg::new(alloc, word.id).help(word.help);
    if let Kind::Flag = word.kind {
        return argument.long(word.id).action(ArgAction::SetTrue);
    }
    let argument = argument.value_name(word.value).action(ArgAction::Set);
    match word.kind {
        Kind::Operand => argument.required(true),
        Kind::Required => argument.long(word.id).required(true),
        Kind::Default(value) => argument.long(word.id).default_value(value),
        Kind::Optional => argument.long(word.id),
        Kind::Port => argument
            .long(word.id)
            .value_parser(value_parser!(u16).range(1..)),
        Kind::Option => argument.long(word.id),
        Kind::Repeated => argument.long(word.id).action(ArgAction::Append),
        Kind::Rest => argument
            .required(true)
            .action(ArgAction::Append)
            .num_args(1..)
            .trailing_var_arg(true)
            .allow_hyphen_values(true),
        Kind::LastOperand | Kind::Flag => argument,
    }
}
