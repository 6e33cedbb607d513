//! The lines of a script.

ghost use Rattle.std.specs.Prelude.{◌≡◌, IfOk, IfErr, Some, None, option_map};
ghost use Rattle.text_names.specs.Requests as requests;
ghost use Rattle.program_script.specs.Words.{hex_octets, hex_octet};
ghost use Rattle.program_script.specs.Script.{Expired, alone_of, arrival_of, expired_of, expiry_of, fail_of, group_of, hex_of, kind_of};
ghost use Rattle.program_script.specs.Script.{meaning, meaning_at};
ghost use Rattle.program_script.specs.Script.{new_group_of, numbered_of, pick_of, release_of, said, shown_group_of};
ghost use Rattle.program_script.specs.declared.script_lines.ParseError.TheVariants.{Memory};

use crate::words::{expiry_number, is_blank, moment, moment_at, number, split_word, status};
use disk::DiskCall;
use disk_memory::Pick;
use hex::FromHexError;
use model::Moment;
use std::alloc::{AllocError, AllocFailed, Global};
use text_names::{Description, GroupName, GroupRequest, NameError};
use thiserror::Error;

/// The room of a release that names none, in octets: the most that one release hands out.
const MOST_ROOM: u64 = 65_536;

/// What a line of a script asks for. Sessions are named by their numbers.
#[derive(Drop)]
pub enum Line {
    /// The operator makes a group.
    Group(GroupRequest),
    /// The operator removes the articles of a group up to this number. 0 stands for each number that no article can
    /// have.
    Expire { name: GroupName, number: u32 },
    /// A session begins.
    Join,
    /// A session leaves.
    Leave(u64),
    /// Octets arrive for a session.
    Arrive { session: u64, octets: Vec<u8> },
    /// A session's next message is served.
    Exec { session: u64, moment: Moment },
    /// The journal begins a batch.
    Take,
    /// The journal makes its next device call.
    Dev,
    /// The kernel learns what a device call answered.
    Told,
    /// What is ready is handed out.
    Release,
    /// What is ready of one session is handed out, as far as there is room for so many octets.
    ReleaseOf { session: u64, room: u64 },
    /// The service is stopped, if every accepted change is durable.
    Stop,
    /// A batch is taken and written up to its commit.
    Commit,
    /// The batch in flight is carried to its end.
    Settle,
    /// All accepted changes are made durable, and all replies are handed out.
    Drain,
    /// The n-th device call from now on fails.
    FailAt(u64),
    /// The n-th device call of this kind from now on fails.
    FailKind(DiskCall, u64),
    /// The device crashes, each touched octet becomes what this pick says, and the device is opened again.
    Crash(Pick),
    /// The service ends, its volume is copied into a new one as a renewal does, and the new one is opened.
    Renew,
    /// The accepted changes are printed.
    Spool,
}

/// Why a line was not read.
#[derive(Clone, Copy, Debug, PartialEq, Eq, Error)]
pub enum ParseError {
    /// The line does not follow the grammar.
    #[error("bad event")]
    Bad,
    /// An allocation was refused.
    #[error("E2 Memory")]
    Memory,
}

impl<T: Drop> From<AllocFailed<T>> for ParseError {
    ghost from_gives = { λ _ e. e ≡ Memory };

    fn from(_error: AllocFailed<T>) -> ParseError {
        ParseError::Memory
    }
}

impl From<AllocError> for ParseError {
    ghost from_gives = { λ _ e. e ≡ Memory };

    fn from(_error: AllocError) -> ParseError {
        ParseError::Memory
    }
}

/// Reads a line of a script, as `parse_at` does where there is no present moment.
pub fn parse(alloc: Global, line: &[u8]) -> Result<Line, ParseError>
    ensures ok { IfOk result (λ read. meaning line.now ≡ Some (said read)) }
    ensures bad { IfErr result (λ error. error ≡ ParseError.Bad → meaning line.now ≡ None) }
{
    parse_at(alloc, line, None)
}

/// Reads a line, without the LF that ends it. Words are separated by one space; the text of `group` and of `line` may
/// hold any octets except LF. The moment of `group` may be `now`, where there is a present moment. `Bad` if the line does not
/// follow the grammar, `Memory` if an allocation was refused.
#[tactic(auto, unfolding(crate::specs::Script::meaning_at))]
pub fn parse_at(alloc: Global, line: &[u8], now: Option<Moment>) -> Result<Line, ParseError>
    ensures ok { IfOk result (λ read. meaning_at now line.now ≡ Some (said read)) }
    ensures bad { IfErr result (λ error. error ≡ ParseError.Bad → meaning_at now line.now ≡ None) }
{
    let Some((keyword, words)) = split_word(line) else {
        return alone(line).ok_or(ParseError::Bad);
    };
    if keyword == b"group".as_slice() {
        return group(alloc, words, now);
    }
    if keyword == b"expire".as_slice() {
        return expiry(words).ok_or(ParseError::Bad);
    }
    if keyword == b"line".as_slice() {
        return arrival(alloc, words);
    }
    if keyword == b"hex".as_slice() {
        return hex_arrival(alloc, words);
    }
    numbered(keyword, words).ok_or(ParseError::Bad)
}

/// A line of one word.
#[tactic(auto, unfolding(crate::specs::Script::alone_of))]
fn alone(word: &[u8]) -> Option<Line>
    ensures { option_map said result ≡ alone_of word.now }
{
    if word == b"join".as_slice() {
        return Some(Line::Join);
    }
    if word == b"take".as_slice() {
        return Some(Line::Take);
    }
    if word == b"dev".as_slice() {
        return Some(Line::Dev);
    }
    if word == b"told".as_slice() {
        return Some(Line::Told);
    }
    if word == b"release".as_slice() {
        return Some(Line::Release);
    }
    if word == b"stop".as_slice() {
        return Some(Line::Stop);
    }
    if word == b"commit".as_slice() {
        return Some(Line::Commit);
    }
    if word == b"settle".as_slice() {
        return Some(Line::Settle);
    }
    if word == b"drain".as_slice() {
        return Some(Line::Drain);
    }
    if word == b"renew".as_slice() {
        return Some(Line::Renew);
    }
    if word == b"spool".as_slice() {
        return Some(Line::Spool);
    }
    None
}

/// A line whose words are numbers or name a pick.
#[tactic(auto, unfolding(crate::specs::Script::numbered_of))]
fn numbered(keyword: &[u8], words: &[u8]) -> Option<Line>
    ensures { option_map said result ≡ numbered_of keyword.now words.now }
{
    if keyword == b"leave".as_slice() {
        let session = number(words)?;
        return Some(Line::Leave(session));
    }
    if keyword == b"exec".as_slice() {
        let (session, time) = split_word(words)?;
        let session = number(session)?;
        let moment = moment(time)?;
        return Some(Line::Exec { session, moment });
    }
    if keyword == b"release".as_slice() {
        return releasing(words);
    }
    if keyword == b"fail".as_slice() {
        return failing(words);
    }
    if keyword == b"crash".as_slice() {
        let pick = pick(words)?;
        return Some(Line::Crash(pick));
    }
    None
}

/// `release S` or `release S N`, after its first word.
#[tactic(auto, unfolding(crate::specs::Script::release_of))]
fn releasing(words: &[u8]) -> Option<Line>
    ensures { option_map said result ≡ release_of words.now }
{
    let Some((session, room)) = split_word(words) else {
        let session = number(words)?;
        return Some(Line::ReleaseOf {
            session,
            room: MOST_ROOM,
        });
    };
    let session = number(session)?;
    let room = number(room)?;
    Some(Line::ReleaseOf { session, room })
}

/// `fail N` or `fail KIND N`, after its first word.
#[tactic(auto, unfolding(crate::specs::Script::fail_of))]
fn failing(words: &[u8]) -> Option<Line>
    ensures { option_map said result ≡ fail_of words.now }
{
    let Some((kind, call)) = split_word(words) else {
        let call = number(words)?;
        return Some(Line::FailAt(call));
    };
    let kind = call_kind(kind)?;
    let call = number(call)?;
    Some(Line::FailKind(kind, call))
}

/// The kind of device calls that `read`, `write` or `sync` names.
#[tactic(auto, unfolding(crate::specs::Script::kind_of))]
fn call_kind(word: &[u8]) -> Option<DiskCall>
    ensures { result ≡ kind_of word.now }
{
    if word == b"read".as_slice() {
        return Some(DiskCall::Read);
    }
    if word == b"write".as_slice() {
        return Some(DiskCall::Write);
    }
    if word == b"sync".as_slice() {
        return Some(DiskCall::Sync);
    }
    None
}

/// What a crash makes of the touched octets: `old`, `new`, or an octet by two hexadecimal digits.
#[tactic(auto, unfolding(crate::specs::Script::pick_of))]
fn pick(word: &[u8]) -> Option<Pick>
    ensures { result ≡ pick_of word.now }
{
    if word == b"old".as_slice() {
        return Some(Pick::Old);
    }
    if word == b"new".as_slice() {
        return Some(Pick::New);
    }
    let octet = hex_octet(word)?;
    Some(Pick::Fill(octet))
}

/// The octet that two hexadecimal digits write.
fn hex_octet(digits: &[u8]) -> Option<u8>
    ensures { result ≡ hex_octet digits.now }
{
    let mut octets = [0];
    match hex::decode_to_slice(digits, &mut octets) {
        Ok(()) => Some(octets[0]),
        Err(_) => None,
    }
}

/// Reads the words of a group that is made for readers: its name, `y` or `n`, and its description, beside the moment at which it
/// is made. `Bad` if one of them does not follow its grammar, the description is blank or there is no moment; `Memory` if an
/// allocation was refused.
#[tactic(auto, unfolding(crate::specs::Script::shown_group_of))]
pub fn read_group(
    alloc: Global,
    name: &[u8],
    yes_or_no: &[u8],
    moment: Option<Moment>,
    description: &[u8],
) -> Result<GroupRequest, ParseError>
    ensures ok { IfOk result (λ request. shown_group_of name.now yes_or_no.now moment description.now ≡ Some (requests.group_of request)) }
    ensures bad { IfErr result (λ error. error ≡ ParseError.Bad → shown_group_of name.now yes_or_no.now moment description.now ≡ None) }
{
    if is_blank(description) {
        return Err(ParseError::Bad);
    }
    any_group(alloc, name, yes_or_no, moment, description)
}

/// The group that these words describe, as `read_group` has it, with a blank description, too.
#[tactic(auto, unfolding(crate::specs::Script::new_group_of))]
fn any_group(
    alloc: Global,
    name: &[u8],
    yes_or_no: &[u8],
    moment: Option<Moment>,
    description: &[u8],
) -> Result<GroupRequest, ParseError>
    ensures ok { IfOk result (λ request. new_group_of name.now yes_or_no.now moment description.now ≡ Some (requests.group_of request)) }
    ensures bad { IfErr result (λ error. error ≡ ParseError.Bad → new_group_of name.now yes_or_no.now moment description.now ≡ None) }
{
    let Some(status) = status(yes_or_no) else {
        return Err(ParseError::Bad);
    };
    let Some(moment) = moment else {
        return Err(ParseError::Bad);
    };
    let Ok(name) = GroupName::read(name) else {
        return Err(ParseError::Bad);
    };
    match Description::read(alloc, description) {
        Ok(description) => Ok(GroupRequest {
            name,
            status,
            description,
            moment,
        }),
        Err(NameError::Bad) => Err(ParseError::Bad),
        Err(NameError::Memory) => Err(ParseError::Memory),
    }
}

/// `group NAME STATUS MOMENT TEXT`, after its first word. The text may be blank.
#[tactic(auto, unfolding(crate::specs::Script::group_of))]
fn group(alloc: Global, words: &[u8], now: Option<Moment>) -> Result<Line, ParseError>
    ensures ok { IfOk result (λ read. group_of now words.now ≡ Some (said read)) }
    ensures bad { IfErr result (λ error. error ≡ ParseError.Bad → group_of now words.now ≡ None) }
{
    let Some((name, words)) = split_word(words) else {
        return Err(ParseError::Bad);
    };
    let Some((yes_or_no, words)) = split_word(words) else {
        return Err(ParseError::Bad);
    };
    let Some((time, description)) = split_word(words) else {
        return Err(ParseError::Bad);
    };
    let moment = moment_at(now, time);
    let request = any_group(alloc, name, yes_or_no, moment, description)?;
    Ok(Line::Group(request))
}

/// Reads the words of an expiry: the name of a group, and the number up to which its articles are removed, as in
/// `Line::Expire`. `None` if one of them does not follow its grammar.
#[tactic(auto, unfolding(crate::specs::Script::expired_of))]
pub fn read_expiry(name: &[u8], number: &[u8]) -> Option<(GroupName, u32)>
    ensures { option_map (λ read. Expired read.0 read.1) result ≡ expired_of name.now number.now }
{
    let number = expiry_number(number)?;
    match GroupName::read(name) {
        Ok(name) => Some((name, number)),
        Err(_) => None,
    }
}

/// `expire NAME N`, after its first word.
#[tactic(auto, unfolding(crate::specs::Script::expiry_of))]
fn expiry(words: &[u8]) -> Option<Line>
    ensures { option_map said result ≡ expiry_of words.now }
{
    let (name, number) = split_word(words)?;
    let (name, number) = read_expiry(name, number)?;
    Some(Line::Expire { name, number })
}

/// `line S TEXT`, after its first word: the text and CRLF arrive, or only CRLF without a text.
#[tactic(auto, unfolding(crate::specs::Script::arrival_of))]
fn arrival(alloc: Global, words: &[u8]) -> Result<Line, ParseError>
    ensures ok { IfOk result (λ read. arrival_of words.now ≡ Some (said read)) }
    ensures bad { IfErr result (λ error. error ≡ ParseError.Bad → arrival_of words.now ≡ None) }
{
    let (session, text) = match split_word(words) {
        Some((session, text)) => (session, text),
        None => (words, b"".as_slice()),
    };
    let Some(session) = number(session) else {
        return Err(ParseError::Bad);
    };
    let mut octets = Vec::from_slice(alloc, text)?;
    octets.extend_from_slice(b"\r\n")?;
    Ok(Line::Arrive { session, octets })
}

/// `hex S HEX`, after its first word: one or more octets arrive, each written by two hexadecimal digits.
#[tactic(auto, unfolding(crate::specs::Script::hex_of))]
fn hex_arrival(alloc: Global, words: &[u8]) -> Result<Line, ParseError>
    ensures ok { IfOk result (λ read. hex_of words.now ≡ Some (said read)) }
    ensures bad { IfErr result (λ error. error ≡ ParseError.Bad → hex_of words.now ≡ None) }
{
    let Some((session, digits)) = split_word(words) else {
        return Err(ParseError::Bad);
    };
    let Some(session) = number(session) else {
        return Err(ParseError::Bad);
    };
    if digits.is_empty() {
        return Err(ParseError::Bad);
    }
    let octets = hex_octets(alloc, digits)?;
    Ok(Line::Arrive { session, octets })
}

/// The octets that pairs of hexadecimal digits write.
fn hex_octets(alloc: Global, digits: &[u8]) -> Result<Vec<u8>, ParseError>
    ensures ok { IfOk result (λ octets. hex_octets digits.now ≡ Some octets.items) }
    ensures bad { IfErr result (λ error. error ≡ ParseError.Bad → hex_octets digits.now ≡ None) }
{
    match hex::decode(alloc, digits) {
        Ok(octets) => Ok(octets),
        Err(FromHexError::OutOfMemory) => Err(ParseError::Memory),
        Err(_) => Err(ParseError::Bad),
    }
}
