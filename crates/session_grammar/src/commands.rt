//! The command of a keyword and its arguments.

ghost use Rattle.std.specs.Prelude.{◌≡◌, IfOk, ◌&&◌};
ghost use Rattle.model.specs.Commands as commands;
ghost use Rattle.model.specs.Calendar as calendar;
ghost use Rattle.model.specs.Names.{numbers_from};
ghost use Rattle.model.specs.declared.command.Keyword.TheVariants as keywords;
ghost use Rattle.session_grammar.specs.Words.{words_of};
ghost use Rattle.session_grammar.specs.Commands.{alone_of};

use crate::command_words::Arguments;
use crate::keywords::{is_word, listing_of};
use model::{Command, Keyword, Listing, Part, Range, Selector, Text, Wanted};
use std::alloc::{AllocError, Global};
use text_names::{is_group_name, is_message_id, is_wildmat, number_of, range_of};

/// The numbers of digits of a date without its century, of one with it, and of a time.
const SHORT_DATE: usize = 6;

const LONG_DATE: usize = 8;

const TIME: usize = 6;

/// The command of a keyword and its arguments, if they follow its grammar.
pub fn command(
    alloc: Global,
    keyword: Keyword,
    arguments: Arguments,
) -> Result<Option<Command>, AllocError>
    ensures { IfOk result (λ found. found ≡ commands.command_of keyword (words_of arguments.entry)) }
{
    match keyword {
        Keyword::Article => fetch(alloc, Part::Whole, arguments),
        Keyword::Head => fetch(alloc, Part::Head, arguments),
        Keyword::Body => fetch(alloc, Part::Body, arguments),
        Keyword::Stat => fetch(alloc, Part::Nothing, arguments),
        Keyword::Capabilities => Ok(capabilities(arguments)),
        Keyword::Mode => Ok(mode(arguments)),
        Keyword::Quit => Ok(alone(arguments, Command::Quit)),
        Keyword::Help => Ok(alone(arguments, Command::Help)),
        Keyword::Date => Ok(alone(arguments, Command::Date)),
        Keyword::Next => Ok(alone(arguments, Command::Next)),
        Keyword::Last => Ok(alone(arguments, Command::Last)),
        Keyword::Post => Ok(alone(arguments, Command::Post)),
        Keyword::Group => group(alloc, arguments),
        Keyword::ListGroup => list_group(alloc, arguments),
        Keyword::Over => over(alloc, arguments),
        Keyword::List => list(alloc, arguments),
        Keyword::NewGroups => new_groups(alloc, arguments),
        Keyword::NewNews => new_news(alloc, arguments),
        Keyword::Ihave => ihave(alloc, arguments),
    }
}

/// A copy of a word on the heap.
fn text(alloc: Global, word: &[u8]) -> Result<Text, AllocError>
    ensures { IfOk result (λ text. text ≡ word.now) }
{
    Ok(Text::new(word.to_vec(alloc)?))
}

/// A command without arguments.
fn alone(arguments: Arguments, command: Command) -> Option<Command>
    ensures { result ≡ alone_of command (words_of arguments.entry) }
{
    match arguments {
        Arguments::None => Some(command),
        _ => None,
    }
}

fn capabilities(arguments: Arguments) -> Option<Command>
    ensures { result ≡ commands.command_of keywords.Capabilities (words_of arguments.entry) }
{
    match arguments {
        Arguments::None | Arguments::One(_) => Some(Command::Capabilities),
        _ => None,
    }
}

fn mode(arguments: Arguments) -> Option<Command>
    ensures { result ≡ commands.command_of keywords.Mode (words_of arguments.entry) }
{
    match arguments {
        Arguments::One(word) if is_word(b"READER", word) => Some(Command::ModeReader),
        _ => None,
    }
}

/// The article that a word asks for, by its number or id.
fn selector(alloc: Global, word: &[u8]) -> Result<Option<Selector>, AllocError>
    ensures { IfOk result (λ found. found ≡ commands.selector_of word.now) }
{
    if is_message_id(word) {
        return Ok(Some(Selector::Id(text(alloc, word)?)));
    }
    Ok(number_of(word).map(Selector::Number))
}

/// ARTICLE, HEAD, BODY and STAT.
fn fetch(alloc: Global, part: Part, arguments: Arguments) -> Result<Option<Command>, AllocError>
    ensures { IfOk result (λ found. found ≡ commands.fetch part (words_of arguments.entry)) }
{
    match arguments {
        Arguments::None => Ok(Some(Command::Fetch(part, Selector::Current))),
        Arguments::One(word) => match selector(alloc, word)? {
            Some(selector) => Ok(Some(Command::Fetch(part, selector))),
            None => Ok(None),
        },
        _ => Ok(None),
    }
}

fn group(alloc: Global, arguments: Arguments) -> Result<Option<Command>, AllocError>
    ensures { IfOk result (λ found. found ≡ commands.command_of keywords.Group (words_of arguments.entry)) }
{
    match arguments {
        Arguments::One(name) if is_group_name(name) => Ok(Some(Command::Group(text(alloc, name)?))),
        _ => Ok(None),
    }
}

/// The range of all numbers.
fn each_number() -> Range
    ensures { result ≡ numbers_from 1 }
{
    Range {
        first: 1,
        last: None,
    }
}

fn list_group(alloc: Global, arguments: Arguments) -> Result<Option<Command>, AllocError>
    ensures { IfOk result (λ found. found ≡ commands.command_of keywords.ListGroup (words_of arguments.entry)) }
{
    match arguments {
        Arguments::None => Ok(Some(Command::ListGroup(None, each_number()))),
        Arguments::One(name) if is_group_name(name) => {
            let name = text(alloc, name)?;
            Ok(Some(Command::ListGroup(Some(name), each_number())))
        }
        Arguments::Two(name, range) if is_group_name(name) => match range_of(range) {
            Some(range) => {
                let name = text(alloc, name)?;
                Ok(Some(Command::ListGroup(Some(name), range)))
            }
            None => Ok(None),
        },
        _ => Ok(None),
    }
}

/// What OVER asks for by a word, a message-id or a range.
fn wanted(alloc: Global, word: &[u8]) -> Result<Option<Wanted>, AllocError>
    ensures { IfOk result (λ found. found ≡ commands.wanted_of word.now) }
{
    if is_message_id(word) {
        return Ok(Some(Wanted::Id(text(alloc, word)?)));
    }
    Ok(range_of(word).map(Wanted::Range))
}

fn over(alloc: Global, arguments: Arguments) -> Result<Option<Command>, AllocError>
    ensures { IfOk result (λ found. found ≡ commands.command_of keywords.Over (words_of arguments.entry)) }
{
    match arguments {
        Arguments::None => Ok(Some(Command::Over(Wanted::Current))),
        Arguments::One(word) => match wanted(alloc, word)? {
            Some(wanted) => Ok(Some(Command::Over(wanted))),
            None => Ok(None),
        },
        _ => Ok(None),
    }
}

fn ihave(alloc: Global, arguments: Arguments) -> Result<Option<Command>, AllocError>
    ensures { IfOk result (λ found. found ≡ commands.command_of keywords.Ihave (words_of arguments.entry)) }
{
    match arguments {
        Arguments::One(id) if is_message_id(id) => Ok(Some(Command::Ihave(text(alloc, id)?))),
        _ => Ok(None),
    }
}

fn list(alloc: Global, arguments: Arguments) -> Result<Option<Command>, AllocError>
    ensures { IfOk result (λ found. found ≡ commands.command_of keywords.List (words_of arguments.entry)) }
{
    match arguments {
        Arguments::None => Ok(Some(Command::List(Listing::Active, None))),
        Arguments::One(word) => Ok(listed(word, None)),
        Arguments::Two(word, wildmat) if is_wildmat(wildmat) => {
            Ok(listed(word, Some(text(alloc, wildmat)?)))
        }
        _ => Ok(None),
    }
}

/// LIST with a keyword of its own, and a wildmat if there is one.
fn listed(word: &[u8], wildmat: Option<Text>) -> Option<Command>
    ensures { result ≡ commands.list_with wildmat word.now }
{
    match listing_of(word) {
        Some(listing) => list_of(listing, wildmat),
        None => None,
    }
}

/// LIST of this listing. The overview's format is listed without a wildmat (RFC 3977, 8.4).
fn list_of(listing: Listing, wildmat: Option<Text>) -> Option<Command>
    ensures { result ≡ commands.list_of listing wildmat }
{
    match listing {
        Listing::Active => Some(Command::List(Listing::Active, wildmat)),
        Listing::Times => Some(Command::List(Listing::Times, wildmat)),
        Listing::Newsgroups => Some(Command::List(Listing::Newsgroups, wildmat)),
        Listing::OverviewFormat => match wildmat {
            Some(_) => None,
            None => Some(Command::List(Listing::OverviewFormat, None)),
        },
    }
}

/// Whether the word consists of this many digits.
fn are_digits(count: usize, word: &[u8]) -> bool
    ensures { result ≡ calendar.are_digits count word.now }
{
    word.len() == count && word.iter().all(|octet| octet.is_ascii_digit())
}

/// Whether the words have the digits of a date and a time.
fn is_moment(date: &[u8], time: &[u8]) -> bool
    ensures { result ≡ (commands.is_date_word date.now && commands.is_time_word time.now) }
{
    (are_digits(SHORT_DATE, date) || are_digits(LONG_DATE, date)) && are_digits(TIME, time)
}

fn new_groups(alloc: Global, arguments: Arguments) -> Result<Option<Command>, AllocError>
    ensures { IfOk result (λ found. found ≡ commands.command_of keywords.NewGroups (words_of arguments.entry)) }
{
    match arguments {
        Arguments::Two(date, time) => new_groups_since(alloc, date, time),
        Arguments::Three(date, time, zone) if is_word(b"GMT", zone) => {
            new_groups_since(alloc, date, time)
        }
        _ => Ok(None),
    }
}

fn new_groups_since(alloc: Global, date: &[u8], time: &[u8]) -> Result<Option<Command>, AllocError>
    ensures { IfOk result (λ found. found ≡ commands.newgroups_of date.now time.now) }
{
    if !is_moment(date, time) {
        return Ok(None);
    }
    Ok(Some(Command::NewGroups {
        date: text(alloc, date)?,
        time: text(alloc, time)?,
    }))
}

fn new_news(alloc: Global, arguments: Arguments) -> Result<Option<Command>, AllocError>
    ensures { IfOk result (λ found. found ≡ commands.command_of keywords.NewNews (words_of arguments.entry)) }
{
    match arguments {
        Arguments::Three(wildmat, date, time) => new_news_since(alloc, wildmat, date, time),
        Arguments::Four(wildmat, date, time, zone) if is_word(b"GMT", zone) => {
            new_news_since(alloc, wildmat, date, time)
        }
        _ => Ok(None),
    }
}

fn new_news_since(
    alloc: Global,
    wildmat: &[u8],
    date: &[u8],
    time: &[u8],
) -> Result<Option<Command>, AllocError>
    ensures { IfOk result (λ found. found ≡ commands.newnews_of wildmat.now date.now time.now) }
{
    if !is_wildmat(wildmat) || !is_moment(date, time) {
        return Ok(None);
    }
    Ok(Some(Command::NewNews {
        wildmat: text(alloc, wildmat)?,
        date: text(alloc, date)?,
        time: text(alloc, time)?,
    }))
}
