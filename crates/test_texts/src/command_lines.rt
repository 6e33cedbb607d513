//! What command lines are read as.

use model::{Command, Listing, Parsed, Part, Range, Selector, Text, Wanted};
use session_grammar::read;
use std::alloc::{AllocError, Global};
use test_support_data::{Answer, Area, Arguments, RowError};

#[derive(Drop)]
pub struct CommandLines;

impl Area for CommandLines {
    /// `read LINE`: the command's name, and the numbers and texts that it holds. A date is read as digits: whether the
    /// calendar has it is asked later.
    fn answer(
        &mut self,
        alloc: Global,
        call: &str,
        arguments: &mut Arguments<'_>,
        answer: &mut Answer,
    ) -> Result<(), RowError> {
        if call != "read" {
            return Err(RowError::Unreadable);
        }
        let line = arguments.octets()?;
        match read(alloc, line.as_slice())? {
            Parsed::Command(command) => answer_command(&command, answer)?,
            Parsed::Unknown => answer.word("unknown")?,
            Parsed::Bad => answer.word("bad")?,
        }
        Ok(())
    }
}

fn answer_command(command: &Command, answer: &mut Answer) -> Result<(), AllocError> {
    match command {
        Command::Group(name) => answer_text("GROUP", name, answer),
        Command::ListGroup(Some(name), range) => {
            answer.plain(name.as_slice())?;
            answer_range(range, answer)
        }
        Command::ListGroup(None, range) => {
            answer.word("LISTGROUP")?;
            answer_range(range, answer)
        }
        Command::Fetch(part, selector) => {
            answer.word(part_name(part))?;
            answer_selector(selector, answer)
        }
        Command::Over(wanted) => {
            answer.word("OVER")?;
            answer_wanted(wanted, answer)
        }
        Command::Ihave(id) => answer_text("IHAVE", id, answer),
        command => answer_listing(command, answer),
    }
}

fn answer_listing(command: &Command, answer: &mut Answer) -> Result<(), AllocError> {
    match command {
        Command::List(listing, Some(wildmat)) => {
            answer_text(listing_name(listing), wildmat, answer)
        }
        Command::List(listing, None) => answer.word(listing_name(listing)),
        Command::NewGroups { date, time } => {
            answer.word("NEWGROUPS")?;
            answer_date(date, time, answer)
        }
        Command::NewNews {
            wildmat,
            date,
            time,
        } => {
            answer_text("NEWNEWS", wildmat, answer)?;
            answer_date(date, time, answer)
        }
        command => answer.word(word_of(command)),
    }
}

/// The name of a command that holds nothing.
fn word_of(command: &Command) -> &'static str {
    match command {
        Command::Capabilities => "CAPABILITIES",
        Command::ModeReader => "MODE READER",
        Command::Quit => "QUIT",
        Command::Help => "HELP",
        Command::Date => "DATE",
        Command::Next => "NEXT",
        Command::Last => "LAST",
        Command::Post => "POST",
        _ => "a command that holds something",
    }
}

fn answer_text(name: &str, text: &Text, answer: &mut Answer) -> Result<(), AllocError> {
    answer.word(name)?;
    answer.plain(text.as_slice())
}

fn answer_date(date: &Text, time: &Text, answer: &mut Answer) -> Result<(), AllocError> {
    answer.plain(date.as_slice())?;
    answer.plain(time.as_slice())
}

fn answer_range(range: &Range, answer: &mut Answer) -> Result<(), AllocError> {
    answer.word("from")?;
    answer.number(range.first)?;
    if let Some(last) = range.last {
        answer.word("to")?;
        answer.number(last)?;
    }
    Ok(())
}

fn answer_selector(selector: &Selector, answer: &mut Answer) -> Result<(), AllocError> {
    match selector {
        Selector::Current => Ok(()),
        Selector::Number(number) => {
            answer.word("number")?;
            answer.number(*number)
        }
        Selector::Id(id) => answer_text("id", id, answer),
    }
}

fn answer_wanted(wanted: &Wanted, answer: &mut Answer) -> Result<(), AllocError> {
    match wanted {
        Wanted::Current => Ok(()),
        Wanted::Range(range) => answer_range(range, answer),
        Wanted::Id(id) => answer.plain(id.as_slice()),
    }
}

fn part_name(part: &Part) -> &'static str {
    match part {
        Part::Whole => "ARTICLE",
        Part::Head => "HEAD",
        Part::Body => "BODY",
        Part::Nothing => "STAT",
    }
}

fn listing_name(listing: &Listing) -> &'static str {
    match listing {
        Listing::Active => "ACTIVE",
        Listing::Times => "TIMES",
        Listing::Newsgroups => "NEWSGROUPS",
        Listing::OverviewFormat => "OVERVIEW",
    }
}
