//! The commands that read a list or rules: the groups of a list made, and articles removed by rules.

use program_changes::{Outcomes, RuleOrder};
use program_command_line::{GroupList, NO_TIME, RuledExpiry};
use program_lists::read_list;
use program_printing::{DONE, Failure, REFUSED};
use program_rules::{Rule, RulesError, read_rules};
use server_logging::moment;
use std::alloc::{AllocError, Global};
use std::fs::File;
use std::io::{self, BufRead, Read, Write};
use std::rt::Files;
use std::time::Clock;
use text_names::{NameError, Wildmat};

/// The most lines of a list of groups. A volume has at most 4,096 groups, and a line that asks for one may be compared with all.
const MOST_LINES: usize = 16_384;

/// What a refusal says of a list that is longer.
const LONG_LIST: &str = "takes a list of at most 16384 lines";

/// Makes the groups of a list that stands in the input, and prints what became of each line. Answers `DONE`, or `REFUSED` if a line
/// was refused. `BadWord` if the list has more than 16,384 lines; then nothing is made.
pub(crate) fn groups<R: Files<File = File>, I: BufRead, W: Write>(
    rt: &R,
    alloc: Global,
    list: GroupList<'_>,
    input: &mut I,
    output: &mut W,
) -> Result<u8, Failure> {
    let GroupList { path, moment } = list;
    let mut text = Vec::new(alloc);
    input.read_to_end(&mut text)?;
    let lines = lines_of(alloc, text.as_slice())?;
    if lines.len() > MOST_LINES {
        return Err(Failure::bad_word(alloc, "PATH", path, LONG_LIST));
    }
    let listed = read_list(alloc, lines.as_slice(), moment)?;
    let Outcomes { refused, .. } = program_changes::groups(
        rt,
        alloc,
        path,
        listed.as_slice(),
        output,
    )?;
    Ok(if refused == 0 { DONE } else { REFUSED })
}

/// Removes the articles that the words ask for by rules, and prints what was removed. `BadWord` if the clock gives no time, since
/// nothing has an age then, or if the file of the rules can't be read or has a line that is none; then nothing is removed.
pub(crate) fn expire_by<R: Files<File = File> + Clock, W: Write>(
    rt: &R,
    alloc: Global,
    asked: RuledExpiry<'_>,
    output: &mut W,
) -> Result<(), Failure> {
    let Some(now) = moment(rt) else {
        return Err(Failure::bad_word(alloc, "RULES", asked.rules, NO_TIME));
    };
    let rules = rules_at(rt, alloc, asked.rules)?;
    let order = RuleOrder {
        path: asked.path,
        rules: rules.as_slice(),
        all: &all_groups(alloc)?,
        now,
        is_dry: asked.is_dry,
    };
    program_changes::expire_ruled(rt, alloc, &order, output)?;
    Ok(())
}

/// The rules in a file.
fn rules_at<R: Files<File = File>>(
    rt: &R,
    alloc: Global,
    path: &str,
) -> Result<Vec<Rule>, Failure> {
    let mut text = Vec::new(alloc);
    if let Err(error) = read_file(rt, path, &mut text) {
        let fault = format!(in alloc; "can't be read: {error}")?;
        return Err(Failure::bad_word(alloc, "RULES", path, fault.as_str()));
    }
    let lines = lines_of(alloc, text.as_slice())?;
    match read_rules(alloc, lines.as_slice()) {
        Ok(rules) => Ok(rules),
        Err(RulesError::Memory) => Err(Failure::Memory),
        Err(error) => {
            let fault = format!(in alloc; "{error}")?;
            Err(Failure::bad_word(alloc, "RULES", path, fault.as_str()))
        }
    }
}

/// Reads a file to its end.
fn read_file<R: Files<File = File>>(rt: &R, path: &str, text: &mut Vec<u8>) -> io::Result<()> {
    File::open(rt, path)?.read_to_end(text)?;
    Ok(())
}

/// The lines of a text. Behind an LF at its end there is one more, which is empty.
fn lines_of(alloc: Global, text: &[u8]) -> Result<Vec<&[u8]>, AllocError> {
    text.split(|octet| *octet == b'\n').collect(alloc)
}

/// The wildmat that matches the name of each group.
fn all_groups(alloc: Global) -> Result<Wildmat, Failure> {
    match Wildmat::read(alloc, b"*") {
        Ok(wildmat) => Ok(wildmat),
        Err(NameError::Bad) => Err(Failure::Bad),
        Err(NameError::Memory) => Err(Failure::Memory),
    }
}
