//! Reads the program's words.

ghost use Rattle.std.specs.Prelude.{◌≤◌, IfOk};

use clap::ArgMatches;
use clap::error::{Error, ErrorKind};
use model::Moment;
use program_command_table::table::{
    ALLOW, BLOCKS, CACHE, CONTROL, CRLF, DESCRIPTION, DRY_RUN, FORMAT, HOST, IN_PLACE, INODES,
    JSON, Kind, LINE, LISTEN, METRICS, MOMENT, MOST_FROM, NAME, NEW, NUMBER, OLD, OLDER_THAN, PATH,
    PORT, POSTS_FROM, PROXIED, QUIET, RULES, SESSIONS, STATUS, Subcommand, Word, first_subcommands,
    last_subcommands, serving_subcommands,
};
use program_command_table::{Grammar, article_number, command_syntax, session_number};
use program_printing::{DONE, Failure, NOT_UNDERSTOOD};
use program_script::{ParseError, escaped, moment_at, number};
use std::alloc::{AllocError, Global};
use std::convert::AsStr;
use std::io::Write;
use std::net::{Ipv4Addr, SocketAddr};
use text_names::{GroupName, GroupRequest, is_host};
use text_networks::{Network, read_endpoint};
use volume_new::{FORMAT_1, FORMAT_2, FORMAT_3, SMALL_BLOCKS, SMALL_INODES, VolumePlan, are_sizes};

/// The wildmat that matches the name of each group.
const ALL_GROUPS: &str = "*";

/// What a refusal says if the clock can't be read, or is before 1970 or after 9999.
pub const NO_TIME: &str = "needs a clock that gives a time from 1970 to 9999";

/// The request that the words make.
#[derive(Drop)]
pub enum Asked<'a> {
    /// Nothing more: help was printed, or words were not understood.
    Nothing(u8),
    /// The version.
    Version,
    /// A simulation over a device in memory, with or without a cache that collects writes until a sync.
    Simulation(VolumePlan<'a>, bool),
    Format(NewVolume<'a>),
    /// The volume to which a group is added.
    Group(&'a str, GroupRequest),
    Groups(GroupList<'a>),
    /// The volume, the group in it, and the number up to which its articles are removed.
    Expire(&'a str, GroupName, u32),
    ExpireOlder(AgedExpiry<'a>),
    ExpireBy(RuledExpiry<'a>),
    Serve(ServeOptions<'a>),
    Dump(&'a str),
    /// The state of a volume, for a person or as JSON.
    Status(&'a str, bool),
    Export(Export<'a>),
    /// The volume in which a batch is filed.
    Import(&'a str),
    Renew(Renewal<'a>),
    Ask(Question<'a>),
}

/// What a running server is asked, and at which socket.
#[derive(Drop)]
pub struct Question<'a> {
    pub socket: &'a str,
    /// The words of the line. There is one at least, and none has an LF.
    pub words: Vec<&'a str>,
}

/// A volume to make in a file.
#[derive(Drop)]
pub struct NewVolume<'a> {
    pub path: &'a str,
    pub plan: VolumePlan<'a>,
    /// It replaces no file that isn't empty.
    pub is_new: bool,
}

/// The volume to which the groups of a list are added.
#[derive(Clone, Copy)]
pub struct GroupList<'a> {
    pub path: &'a str,
    /// They are made at this moment.
    pub moment: Moment,
}

/// How many callers a server has, and how much one address may ask of it.
#[derive(Clone, Copy)]
pub struct CallerLimits {
    /// The most sessions at a time.
    pub sessions: usize,
    /// The most sessions of callers of one address, if that is given.
    pub most_from: Option<usize>,
    /// The most articles that are read from one address in a minute, if that is given.
    pub posts_from: Option<u32>,
}

/// The volume that a server serves, where it listens, and whom it lets in.
#[derive(Drop)]
pub struct ServeOptions<'a> {
    pub path: &'a str,
    /// The endpoints to listen on: first the port of 127.0.0.1, if one is given. There is one at least, here or for proxies.
    pub endpoints: Vec<SocketAddr>,
    /// The endpoints to listen on for proxies, all of them loopback.
    pub proxied: Vec<SocketAddr>,
    /// The networks from which callers are let in, besides the loopback networks.
    pub networks: Vec<Network>,
    pub limits: CallerLimits,
    /// The file that is written for a monitor, if there is one.
    pub metrics: Option<&'a str>,
    /// The socket at which the operator is answered, too, if there is one.
    pub control: Option<&'a str>,
    /// The beginnings, posts and ends of sessions are not logged.
    pub is_quiet: bool,
}

/// The volume whose groups lose the articles that are older than so many days.
#[derive(Clone, Copy)]
pub struct AgedExpiry<'a> {
    pub path: &'a str,
    /// It matches the names of the groups.
    pub wildmat: &'a str,
    pub days: u64,
    /// Nothing is taken out.
    pub is_dry: bool,
}

/// The volume whose groups lose old articles by the rules in a file.
#[derive(Clone, Copy)]
pub struct RuledExpiry<'a> {
    pub path: &'a str,
    /// The file of the rules.
    pub rules: &'a str,
    /// Nothing is taken out.
    pub is_dry: bool,
}

/// The volume whose articles are exported, those of one group or all, and whether their lines end in CRLF.
#[derive(Clone, Copy)]
pub struct Export<'a> {
    pub path: &'a str,
    pub group: Option<&'a str>,
    pub has_crlf: bool,
}

/// The volume that is renewed, and the new one.
#[derive(Clone, Copy)]
pub struct Renewal<'a> {
    pub old: &'a str,
    /// The file of the new volume. If none is named, it replaces the old one.
    pub new: Option<&'a str>,
    /// The blocks of the new volume, if not as many as the old one has.
    pub blocks: Option<u64>,
    /// Its inodes, if not as many as the old one has.
    pub inodes: Option<u64>,
    /// The report is one JSON object.
    pub is_json: bool,
}

/// Reads the words, the first of which is the program's name, at this moment, if the clock gives one. If they are not understood, the
/// parser's text goes to `faults`; help goes to `output`. `Bad` if a word is outside its grammar or range, `Memory` if an allocation was
/// refused.
pub fn read_words<'a, S: AsStr, W: Write, F: Write>(
    alloc: Global,
    words: &'a [S],
    now: Option<Moment>,
    output: &mut W,
    faults: &mut F,
) -> Result<Asked<'a>, Failure> {
    match command_syntax(alloc)?.try_get_matches_from(words) {
        Ok(matches) => read_request(alloc, &matches, now),
        Err(error) if error.kind() == ErrorKind::DisplayVersion => Ok(Asked::Version),
        Err(error) => Ok(Asked::Nothing(tell(alloc, &error, output, faults)?)),
    }
}

/// Writes the parser's message, and answers the status with which the program ends.
fn tell<W: Write, F: Write>(
    alloc: Global,
    error: &Error,
    output: &mut W,
    faults: &mut F,
) -> Result<u8, Failure> {
    if error.kind() == ErrorKind::OutOfMemory {
        return Err(Failure::Memory);
    }
    if error.use_stderr() {
        let message = format!(in alloc; "{error}")?;
        write_escaped(alloc, message.as_str(), faults)?;
        return Ok(NOT_UNDERSTOOD);
    }
    write!(output, "{error}")?;
    Ok(DONE)
}

/// Writes the lines of a message, each in its printed form, since words that were not understood may stand in them.
fn write_escaped<F: Write>(alloc: Global, message: &str, faults: &mut F) -> Result<(), Failure> {
    for line in message.lines() {
        faults.write_all(escaped(alloc, line.as_bytes())?.as_slice())?;
        faults.write_all(b"\n")?;
    }
    Ok(())
}

/// The request of words that were understood, if each is in its grammar and range.
fn read_request<'a>(
    alloc: Global,
    matches: &ArgMatches<'a>,
    now: Option<Moment>,
) -> Result<Asked<'a>, Failure> {
    let Some((name, words)) = matches.subcommand() else {
        return Err(Failure::Bad);
    };
    check_words(alloc, name, words)?;
    match name {
        "sim" => Ok(Asked::Simulation(read_plan_of_memory(alloc, words)?, words.get_flag(CACHE))),
        "format" => Ok(Asked::Format(read_new_volume(alloc, words)?)),
        "group" => Ok(Asked::Group(word(words, PATH)?, read_group(alloc, words, now)?)),
        "groups" => Ok(Asked::Groups(read_group_list(alloc, words, now)?)),
        "expire" => read_expiry(alloc, words),
        "expire-by" => Ok(Asked::ExpireBy(read_ruled_expiry(words)?)),
        "serve" => Ok(Asked::Serve(read_service(alloc, words)?)),
        "dump" => Ok(Asked::Dump(word(words, PATH)?)),
        "status" => Ok(Asked::Status(word(words, PATH)?, words.get_flag(JSON))),
        "import" => Ok(Asked::Import(word(words, PATH)?)),
        "export" => Ok(Asked::Export(read_export(words)?)),
        "renew" => Ok(Asked::Renew(read_renewal(alloc, words)?)),
        "ask" => Ok(Asked::Ask(read_question(alloc, words)?)),
        _ => Err(Failure::Bad),
    }
}

/// Refuses the first word of a subcommand that is outside its grammar, in the order of the table.
fn check_words(alloc: Global, name: &str, words: &ArgMatches<'_>) -> Result<(), Failure> {
    check_rows(alloc, first_subcommands(), name, words)?;
    check_rows(alloc, serving_subcommands(), name, words)?;
    check_rows(alloc, last_subcommands(), name, words)
}

/// The same of a part of the table.
fn check_rows(
    alloc: Global,
    rows: &[Subcommand],
    name: &str,
    words: &ArgMatches<'_>,
) -> Result<(), Failure> {
    for row in rows {
        if row.name == name {
            check_row(alloc, row, words)?;
        }
    }
    Ok(())
}

/// Refuses the first word of a row that is outside its grammar.
fn check_row(alloc: Global, row: &Subcommand, words: &ArgMatches<'_>) -> Result<(), Failure> {
    for word in row.words {
        check_values(alloc, word, words.get_strs(word.id).unwrap_or(&[]))?;
    }
    Ok(())
}

/// Refuses the first of the values of a word that is outside its grammar.
fn check_values(alloc: Global, word: &Word, values: &[&str]) -> Result<(), Failure> {
    for value in values {
        if !word.grammar.holds(value) {
            let name = shown_name(alloc, word)?;
            return Err(Failure::bad_word(alloc, name.as_str(), value, word.grammar.fault(value)));
        }
    }
    Ok(())
}

/// How help and refusals show a word.
fn shown_name(alloc: Global, word: &Word) -> Result<String, AllocError> {
    match word.kind {
        Kind::Operand | Kind::LastOperand | Kind::Rest => String::from_str(alloc, word.value),
        _ => format!(in alloc; "--{}", word.id),
    }
}

/// The value of a word that the grammar requires.
fn word<'a>(words: &ArgMatches<'a>, name: &str) -> Result<&'a str, Failure> {
    words.get_str(name).ok_or(Failure::Bad)
}

/// The volume in memory that the words describe.
fn read_plan_of_memory<'a>(
    alloc: Global,
    words: &ArgMatches<'a>,
) -> Result<VolumePlan<'a>, Failure> {
    let plan = read_plan(alloc, words, FORMAT_3)?;
    refuse_large(alloc, words, &plan, "is too many for a volume in memory")?;
    Ok(plan)
}

/// The volume that the words ask to make.
fn read_new_volume<'a>(alloc: Global, words: &ArgMatches<'a>) -> Result<NewVolume<'a>, Failure> {
    Ok(NewVolume {
        path: word(words, PATH)?,
        plan: read_plan_of_file(alloc, words)?,
        is_new: words.get_flag(NEW),
    })
}

/// The volume in a file that the words describe.
fn read_plan_of_file<'a>(alloc: Global, words: &ArgMatches<'a>) -> Result<VolumePlan<'a>, Failure> {
    let format = read_format(words)?;
    let plan = read_plan(alloc, words, format)?;
    if format == FORMAT_1 {
        refuse_large(alloc, words, &plan, "is too many for format 1")?;
    }
    Ok(plan)
}

/// Refuses a volume that isn't small.
fn refuse_large(
    alloc: Global,
    words: &ArgMatches<'_>,
    plan: &VolumePlan<'_>,
    why: &str,
) -> Result<(), Failure> {
    if SMALL_BLOCKS < plan.blocks {
        let blocks = word(words, BLOCKS)?;
        return Err(Failure::bad_word(alloc, "--blocks", blocks, why));
    }
    if SMALL_INODES < plan.inodes {
        let inodes = word(words, INODES)?;
        return Err(Failure::bad_word(alloc, "--inodes", inodes, why));
    }
    Ok(())
}

/// The format that the words name.
fn read_format(words: &ArgMatches<'_>) -> Result<u32, Failure>
    ensures { IfOk result (λ format. (1 ≤ format) × (format ≤ 3)) }
{
    match word(words, FORMAT)? {
        "1" => Ok(FORMAT_1),
        "2" => Ok(FORMAT_2),
        "3" => Ok(FORMAT_3),
        _ => Err(Failure::Bad),
    }
}

/// The volume of this format that the words describe.
fn read_plan<'a>(
    alloc: Global,
    words: &ArgMatches<'a>,
    format: u32,
) -> Result<VolumePlan<'a>, Failure>
    requires { (1 ≤ format) × (format ≤ 3) }
{
    let host = word(words, HOST)?;
    let blocks = word(words, BLOCKS)?;
    let inodes = word(words, INODES)?;
    match plan_of(
        host.as_bytes(),
        blocks.as_bytes(),
        inodes.as_bytes(),
        format,
    ) {
        Some(plan) => Ok(plan),
        None => Err(Failure::bad_word(alloc, "--inodes", inodes, "is too many for so few blocks")),
    }
}

/// The plan of a volume, if these words follow their grammars and the blocks have room for this many inodes.
fn plan_of<'a>(host: &'a [u8], blocks: &[u8], inodes: &[u8], format: u32) -> Option<VolumePlan<'a>>
    requires { (1 ≤ format) × (format ≤ 3) }
{
    let blocks = number(blocks)?;
    let inodes = number(inodes)?;
    if !is_host(host) || !are_sizes(blocks, inodes) {
        return None;
    }
    Some(VolumePlan {
        host,
        blocks,
        inodes,
        format,
    })
}

/// The group that the words describe.
fn read_group(
    alloc: Global,
    words: &ArgMatches<'_>,
    now: Option<Moment>,
) -> Result<GroupRequest, Failure> {
    let name = word(words, NAME)?;
    let status = word(words, STATUS)?;
    let moment = read_moment(alloc, "MOMENT", words, now)?;
    let description = word(words, DESCRIPTION)?;
    match program_script::read_group(
        alloc,
        name.as_bytes(),
        status.as_bytes(),
        Some(moment),
        description.as_bytes(),
    ) {
        Ok(group) => Ok(group),
        Err(ParseError::Bad) => Err(Failure::Bad),
        Err(ParseError::Memory) => Err(Failure::Memory),
    }
}

/// The volume and the moment of a list of groups.
fn read_group_list<'a>(
    alloc: Global,
    words: &ArgMatches<'a>,
    now: Option<Moment>,
) -> Result<GroupList<'a>, Failure> {
    Ok(GroupList {
        path: word(words, PATH)?,
        moment: read_moment(alloc, "--moment", words, now)?,
    })
}

/// The moment that a word writes, which a refusal shows by this name. `BadWord` if it says `now`, and the clock gives no time.
fn read_moment(
    alloc: Global,
    shown: &str,
    words: &ArgMatches<'_>,
    now: Option<Moment>,
) -> Result<Moment, Failure> {
    let moment = word(words, MOMENT)?;
    match moment_at(now, moment.as_bytes()) {
        Some(moment) => Ok(moment),
        None => Err(Failure::bad_word(alloc, shown, moment, NO_TIME)),
    }
}

/// The expiry by rules that the words describe.
fn read_ruled_expiry<'a>(words: &ArgMatches<'a>) -> Result<RuledExpiry<'a>, Failure> {
    Ok(RuledExpiry {
        path: word(words, PATH)?,
        rules: word(words, RULES)?,
        is_dry: words.get_flag(DRY_RUN),
    })
}

/// The expiry that the words describe: by age if the days are given, else up to a number.
fn read_expiry<'a>(alloc: Global, words: &ArgMatches<'a>) -> Result<Asked<'a>, Failure> {
    match words.get_str(OLDER_THAN) {
        Some(days) => Ok(Asked::ExpireOlder(read_aged_expiry(alloc, words, days)?)),
        None => read_numbered_expiry(alloc, words),
    }
}

/// The expiry up to a number. `BadWord` if the group or the number lacks, or the words say that it is a dry run, which is one
/// by age.
fn read_numbered_expiry<'a>(alloc: Global, words: &ArgMatches<'a>) -> Result<Asked<'a>, Failure> {
    let path = word(words, PATH)?;
    let (Some(name), Some(number)) = (words.get_str(NAME), words.get_str(NUMBER)) else {
        return Err(Failure::bad_word(
            alloc,
            "PATH",
            path,
            "needs NAME and N or --older-than beside it",
        ));
    };
    check_as(alloc, "NAME", name, Grammar::Group)?;
    check_as(alloc, "N", number, Grammar::Article)?;
    if words.get_flag(DRY_RUN) {
        return Err(Failure::bad_word(alloc, "N", number, "can't be given with --dry-run"));
    }
    match program_script::read_expiry(name.as_bytes(), number.as_bytes()) {
        Some((name, number)) => Ok(Asked::Expire(path, name, number)),
        None => Err(Failure::Bad),
    }
}

/// The expiry by age, of all groups if no wildmat is given. `BadWord` if a number is given as well.
fn read_aged_expiry<'a>(
    alloc: Global,
    words: &ArgMatches<'a>,
    days: &str,
) -> Result<AgedExpiry<'a>, Failure> {
    let wildmat = words.get_str(NAME).unwrap_or(ALL_GROUPS);
    check_as(alloc, "WILDMAT", wildmat, Grammar::Wildmat)?;
    if let Some(number) = words.get_str(NUMBER) {
        return Err(Failure::bad_word(alloc, "N", number, "can't be given with --older-than"));
    }
    Ok(AgedExpiry {
        path: word(words, PATH)?,
        wildmat,
        days: program_script::days(days.as_bytes()).ok_or(Failure::Bad)?,
        is_dry: words.get_flag(DRY_RUN),
    })
}

/// Refuses a word that is outside this grammar.
fn check_as(alloc: Global, name: &str, word: &str, grammar: Grammar) -> Result<(), Failure> {
    if grammar.holds(word) {
        return Ok(());
    }
    Err(Failure::bad_word(alloc, name, word, grammar.fault(word)))
}

/// What the words ask a running server.
fn read_question<'a>(alloc: Global, words: &ArgMatches<'a>) -> Result<Question<'a>, Failure> {
    let line = words.get_strs(LINE).unwrap_or(&[]);
    Ok(Question {
        socket: word(words, PATH)?,
        words: Vec::from_slice(alloc, line)?,
    })
}

/// The server that the words describe.
fn read_service<'a>(alloc: Global, words: &ArgMatches<'a>) -> Result<ServeOptions<'a>, Failure> {
    Ok(ServeOptions {
        path: word(words, PATH)?,
        endpoints: read_endpoints(alloc, words)?,
        proxied: read_proxied(alloc, words)?,
        networks: read_networks(alloc, words)?,
        limits: read_limits(words)?,
        metrics: words.get_str(METRICS),
        control: words.get_str(CONTROL),
        is_quiet: words.get_flag(QUIET),
    })
}

/// Where the server listens: first the port of 127.0.0.1, if one is given.
fn read_endpoints(alloc: Global, words: &ArgMatches<'_>) -> Result<Vec<SocketAddr>, Failure> {
    let mut endpoints = Vec::new(alloc);
    if let Some(port) = words.get_one::<u16>(PORT) {
        endpoints.push(SocketAddr::from((Ipv4Addr::LOCALHOST, port)))?;
    }
    for text in words.get_strs(LISTEN).unwrap_or(&[]) {
        endpoints.push(read_endpoint(text).ok_or(Failure::Bad)?)?;
    }
    Ok(endpoints)
}

/// Where the server listens for proxies.
fn read_proxied(alloc: Global, words: &ArgMatches<'_>) -> Result<Vec<SocketAddr>, Failure> {
    let mut endpoints = Vec::new(alloc);
    for text in words.get_strs(PROXIED).unwrap_or(&[]) {
        endpoints.push(read_endpoint(text).ok_or(Failure::Bad)?)?;
    }
    Ok(endpoints)
}

/// How many callers the server has, and how much one address may ask of it.
fn read_limits(words: &ArgMatches<'_>) -> Result<CallerLimits, Failure> {
    Ok(CallerLimits {
        sessions: read_sessions(words)?,
        most_from: read_number(words, MOST_FROM)?,
        posts_from: read_rate(words)?,
    })
}

/// The most sessions, which are given or have a default.
fn read_sessions(words: &ArgMatches<'_>) -> Result<usize, Failure> {
    read_number(words, SESSIONS)?.ok_or(Failure::Bad)
}

/// The number of sessions that an option gives, if it is given.
fn read_number(words: &ArgMatches<'_>, name: &str) -> Result<Option<usize>, Failure> {
    let Some(most) = words.get_str(name) else {
        return Ok(None);
    };
    match session_number(most.as_bytes()) {
        Some(most) => Ok(Some(most)),
        None => Err(Failure::Bad),
    }
}

/// The number of articles in a minute, if it is given.
fn read_rate(words: &ArgMatches<'_>) -> Result<Option<u32>, Failure> {
    let Some(most) = words.get_str(POSTS_FROM) else {
        return Ok(None);
    };
    match article_number(most.as_bytes()) {
        Some(most) => Ok(Some(most)),
        None => Err(Failure::Bad),
    }
}

/// The networks from which callers are let in.
fn read_networks(alloc: Global, words: &ArgMatches<'_>) -> Result<Vec<Network>, Failure> {
    let mut networks = Vec::new(alloc);
    for text in words.get_strs(ALLOW).unwrap_or(&[]) {
        networks.push(Network::read(text).ok_or(Failure::Bad)?)?;
    }
    Ok(networks)
}

/// The volume and the articles that the words name.
fn read_export<'a>(words: &ArgMatches<'a>) -> Result<Export<'a>, Failure> {
    Ok(Export {
        path: word(words, PATH)?,
        group: words.get_str(NAME),
        has_crlf: words.get_flag(CRLF),
    })
}

/// The renewal that the words describe. `BadWord` if they don't say either where the new volume is made, or that it replaces
/// the old one.
fn read_renewal<'a>(alloc: Global, words: &ArgMatches<'a>) -> Result<Renewal<'a>, Failure> {
    let old = word(words, OLD)?;
    let new = words.get_str(NEW);
    match (new, words.get_flag(IN_PLACE)) {
        (Some(path), true) => {
            return Err(Failure::bad_word(alloc, "NEW", path, "can't be given with --in-place"));
        }
        (None, false) => {
            return Err(Failure::bad_word(alloc, "OLD", old, "needs NEW or --in-place beside it"));
        }
        _ => (),
    }
    Ok(Renewal {
        old,
        new,
        blocks: read_size(words, BLOCKS)?,
        inodes: read_size(words, INODES)?,
        is_json: words.get_flag(JSON),
    })
}

/// The size that an option names, if it is given.
fn read_size(words: &ArgMatches<'_>, name: &str) -> Result<Option<u64>, Failure> {
    match words.get_str(name) {
        Some(size) => Ok(Some(number(size.as_bytes()).ok_or(Failure::Bad)?)),
        None => Ok(None),
    }
}
