//! What the program does: each of its commands except the simulation, and the server.

ghost use Rattle.std.specs.Prelude.{◌≡◌};
ghost use Rattle.program_printing.specs.Status.{status_of};

use crate::operating::{expire_by, groups};
use crate::version::print_version;
use program_asking::Verdict;
use program_changes::{AgeOrder, Durable};
use program_command_line::{
    AgedExpiry, Asked, Export, NO_TIME, NewVolume, Question, Renewal, ServeOptions, read_words,
};
use program_files::{changes_at, octets_at};
use program_printing::{DONE, Failure, REFUSED};
use program_renewal::{Order, Report, json_text};
use program_server::{Offer, Streams};
use program_simulation::simulate;
use server_logging::{Verbosity, moment};
use std::alloc::Global;
use std::convert::AsStr;
use std::fs::File;
use std::io::{self, BufRead, Write};
use std::net::{Net, TcpListener, TcpStream};
use std::rt::Files;
use std::sync::Wait;
use std::thread::Threads;
use std::time::Clock;
use text_names::{GroupName, NameError, Wildmat};
use volume_exporting::LineEnds;
use volume_importing::ImportCounts;

/// What the program does after `run`.
#[derive(Drop)]
pub enum AfterRun<'a> {
    /// It ends with this status.
    Ends(u8),
    /// The words ask for a server, which is for `serve`.
    Serves(ServeOptions<'a>),
    /// The words ask to file a batch in this volume, which is for `import`.
    Imports(&'a str),
    /// The words ask for a renewal, which is for `renew`.
    Renews(Renewal<'a>),
    /// The words ask something of a running server, which is for `ask`.
    Asks(Question<'a>),
}

/// Runs the program on its words, the first of which is its name, and answers its status: `DONE`, `REFUSED` with the
/// refusal on `faults`, or `NOT_UNDERSTOOD`. Help and the version, if asked for, go to `output`. Words that ask for a
/// server are read and returned.
///
/// Faults are found in this order: words not understood; words outside their grammar; opening; the call.
pub fn run<'a, R: Files<File = File> + Wait + Clock, S: AsStr, I: BufRead, W: Write, F: Write>(
    rt: &R,
    alloc: Global,
    words: &'a [S],
    input: &mut I,
    output: &mut W,
    faults: &mut F,
) -> AfterRun<'a> {
    let status = match read_words(alloc, words, moment(rt), output, faults) {
        Ok(Asked::Serve(service)) => return AfterRun::Serves(service),
        Ok(Asked::Import(path)) => return AfterRun::Imports(path),
        Ok(Asked::Renew(asked)) => return AfterRun::Renews(asked),
        Ok(Asked::Ask(question)) => return AfterRun::Asks(question),
        Ok(Asked::Nothing(status)) => status,
        Ok(Asked::Format(asked)) => match format(rt, alloc, &asked, faults) {
            Ok(()) => DONE,
            Err(failure) => fail(faults, &failure),
        },
        Ok(Asked::Groups(list)) => match groups(rt, alloc, list, input, output) {
            Ok(status) => status,
            Err(failure) => fail(faults, &failure),
        },
        Ok(asked) => match carry_out(rt, alloc, asked, input, output) {
            Ok(()) => DONE,
            Err(failure) => fail(faults, &failure),
        },
        Err(failure) => fail(faults, &failure),
    };
    let status = flush(status, output, faults);
    let _ = faults.flush();
    AfterRun::Ends(status)
}

/// Flushes the output of a command, and answers the status with which the program ends: that of the command, but
/// `REFUSED`, with the refusal on `faults`, if the command was done and its output can't be written.
fn flush<W: Write, F: Write>(status: u8, output: &mut W, faults: &mut F) -> u8 {
    match output.flush() {
        Err(error) if status == DONE => fail(faults, &Failure::from(error)),
        _ => status,
    }
}

/// Serves a volume until the operator stops the server or its device fails, and answers the status. The log goes to a
/// writer that a thread keeps, and the refusal at the end to `faults`, after the last line of the log. `manager` is the name of the socket
/// where the service manager listens, if there is one.
pub fn serve<
    'x,
    R: Files<File = File>
        + Net<Listener = TcpListener, Stream = TcpStream>
        + Threads
        + Wait
        + Clock
        + Copy
        + Send
        + Sync
        + 'static,
    L: BufRead + Send + Drop + 'static,
    A: Write + Send + Drop + 'static,
    G: Write + Send + Drop + 'static,
    F: Write,
>(
    rt: &R,
    alloc: Global,
    service: &'x ServeOptions<'x>,
    manager: Option<&'x str>,
    streams: Streams<L, A, G>,
    faults: &mut F,
) -> u8 {
    let verbosity = if service.is_quiet {
        Verbosity::Quiet
    } else {
        Verbosity::All
    };
    let offer = Offer {
        path: service.path,
        endpoints: service.endpoints.as_slice(),
        proxied: service.proxied.as_slice(),
        networks: service.networks.as_slice(),
        sessions: service.limits.sessions,
        most_from: service.limits.most_from,
        posts_from: service.limits.posts_from,
        metrics: service.metrics,
        control: service.control,
        manager,
        verbosity,
    };
    match program_server::serve(rt, alloc, &offer, streams) {
        Ok(()) => DONE,
        Err(error) => fail(faults, &Failure::Command(error)),
    }
}

/// Asks a running server, and prints its answer. Answers `DONE`, or `REFUSED` if the answer is a refusal. Where nobody answers, or not to
/// the end, that goes to `faults`, and the status is `NOT_ANSWERED`.
pub fn ask<R: Net + Wait, W: Write, F: Write>(
    rt: &R,
    alloc: Global,
    question: &Question<'_>,
    output: &mut W,
    faults: &mut F,
) -> u8 {
    let words = question.words.as_slice();
    match program_asking::ask(rt, alloc, question.socket, words, output) {
        Ok(Verdict::Done) => DONE,
        Ok(Verdict::Refused) => REFUSED,
        Err(error) => {
            let _ = writeln!(faults, "newsd: {error}");
            error.status()
        }
    }
}

/// Files a batch in a volume, and prints what became of its articles. Answers `DONE` if each was filed, was there
/// already or has no group there, otherwise `REFUSED`. Why it stopped before its batch ended goes to `faults`.
pub fn import<R: Files<File = File> + Clock, I: BufRead, W: Write, F: Write>(
    rt: &R,
    alloc: Global,
    path: &str,
    input: &mut I,
    output: &mut W,
    faults: &mut F,
    is_terminal: bool,
) -> u8 {
    let report = match program_imports::import(rt, alloc, path, input, faults, is_terminal) {
        Ok(report) => report,
        Err(error) => return fail(faults, &Failure::Command(error)),
    };
    let printed = print_counts(&report.counts, output);
    if let Some(stop) = &report.stop {
        let _ = writeln!(faults, "newsd: {stop}");
    }
    if let Err(error) = printed {
        return fail(faults, &Failure::from(error));
    }
    if report.stop.is_none() && report.counts.refused == 0 {
        DONE
    } else {
        REFUSED
    }
}

/// Prints what became of the articles of a batch.
fn print_counts<W: Write>(counts: &ImportCounts, output: &mut W) -> io::Result<()> {
    writeln!(output, "{counts}")?;
    output.flush()
}

/// Renews a volume, and prints what that did. Answers `DONE`, or `REFUSED` with the refusal on `faults`. A report that can't
/// be printed is a refusal, too; the volume is renewed then.
pub fn renew<R: Files<File = File> + Clock, W: Write, F: Write>(
    rt: &R,
    alloc: Global,
    asked: &Renewal<'_>,
    output: &mut W,
    faults: &mut F,
    is_terminal: bool,
) -> u8 {
    let order = Order {
        old: asked.old,
        new: asked.new,
        blocks: asked.blocks,
        inodes: asked.inodes,
    };
    let report = match program_renewal::renew(rt, alloc, &order, faults, is_terminal) {
        Ok(report) => report,
        Err(refusal) => {
            let _ = writeln!(faults, "newsd: {refusal}");
            return REFUSED;
        }
    };
    match print_report(alloc, &report, asked.is_json, output) {
        Ok(()) => DONE,
        Err(failure) => fail(faults, &failure),
    }
}

/// Prints what a renewal did, for a person or as JSON on one line.
fn print_report<W: Write>(
    alloc: Global,
    report: &Report,
    is_json: bool,
    output: &mut W,
) -> Result<(), Failure> {
    if is_json {
        let text = json_text(alloc, report)?;
        writeln!(output, "{text}")?;
    } else {
        writeln!(output, "{report}")?;
    }
    Ok(output.flush()?)
}

/// Does what the words ask for.
fn carry_out<R: Files<File = File> + Wait + Clock, I: BufRead, W: Write>(
    rt: &R,
    alloc: Global,
    asked: Asked<'_>,
    input: &mut I,
    output: &mut W,
) -> Result<(), Failure> {
    match asked {
        Asked::Nothing(_)
        | Asked::Serve(_)
        | Asked::Import(_)
        | Asked::Renew(_)
        | Asked::Ask(_)
        | Asked::Groups(_)
        | Asked::Format(_) => Ok(()),
        Asked::Version => print_version(rt, output),
        Asked::Simulation(plan, is_cached) => simulate(alloc, &plan, is_cached, input, output),
        Asked::Group(path, group) => {
            let serial = program_changes::group(rt, alloc, path, &group)?;
            print_serial(&serial, output)
        }
        Asked::Expire(path, name, number) => {
            let serial = program_changes::expire_to(rt, alloc, path, &name, number)?;
            print_serial(&serial, output)
        }
        Asked::ExpireOlder(asked) => expire_older(rt, alloc, asked, output),
        Asked::ExpireBy(asked) => expire_by(rt, alloc, asked, output),
        Asked::Dump(path) => {
            program_reports::dump(rt, alloc, path, output)?;
            Ok(())
        }
        Asked::Status(path, is_json) => {
            program_reports::status(rt, alloc, path, is_json, output)?;
            Ok(())
        }
        Asked::Export(asked) => export(rt, alloc, asked, output),
    }
}

/// Removes the articles that the words ask for by their age, and prints what was removed. `BadWord` if the clock gives no time,
/// since nothing has an age then.
fn expire_older<R: Files<File = File> + Wait + Clock, W: Write>(
    rt: &R,
    alloc: Global,
    asked: AgedExpiry<'_>,
    output: &mut W,
) -> Result<(), Failure> {
    let Some(now) = moment(rt) else {
        let days = format!(in alloc; "{}", asked.days)?;
        return Err(Failure::bad_word(alloc, "--older-than", days.as_str(), NO_TIME));
    };
    let order = AgeOrder {
        path: asked.path,
        wildmat: &wildmat(alloc, asked.wildmat.as_bytes())?,
        days: asked.days,
        now,
        is_dry: asked.is_dry,
    };
    program_changes::expire_older(rt, alloc, &order, output)?;
    Ok(())
}

/// The wildmat that a word writes.
fn wildmat(alloc: Global, text: &[u8]) -> Result<Wildmat, Failure> {
    match Wildmat::read(alloc, text) {
        Ok(wildmat) => Ok(wildmat),
        Err(NameError::Bad) => Err(Failure::Bad),
        Err(NameError::Memory) => Err(Failure::Memory),
    }
}

/// Makes an empty volume, and says on `faults` what it replaced. `BadWord` if it has to be a new file, and one that isn't
/// empty is there; this leaves each octet of that as it was.
fn format<R: Files<File = File>, F: Write>(
    rt: &R,
    alloc: Global,
    asked: &NewVolume<'_>,
    faults: &mut F,
) -> Result<(), Failure> {
    let Some(octets) = octets_at(rt, alloc, asked.path)? else {
        program_files::format_new(rt, alloc, asked.path, &asked.plan)?;
        return Ok(());
    };
    if octets == 0 {
        program_files::format_empty(rt, alloc, asked.path, &asked.plan)?;
        return Ok(());
    }
    if asked.is_new {
        return Err(Failure::bad_word(alloc, "PATH", asked.path, "is a file that isn't empty"));
    }
    let changes = changes_at(rt, alloc, asked.path);
    program_files::format(rt, alloc, asked.path, &asked.plan)?;
    // whether it can be said changes nothing of what was done
    let _ = match changes {
        Some(1) => writeln!(faults, "newsd: replaced a volume of 1 change"),
        Some(changes) => writeln!(faults, "newsd: replaced a volume of {changes} changes"),
        None => writeln!(faults, "newsd: replaced a file of {octets} octets"),
    };
    Ok(())
}

/// Writes the articles that the words ask for.
fn export<R: Files<File = File>, W: Write>(
    rt: &R,
    alloc: Global,
    asked: Export<'_>,
    output: &mut W,
) -> Result<(), Failure> {
    let group = match asked.group {
        Some(name) => Some(group_name(name.as_bytes())?),
        None => None,
    };
    let ends = if asked.has_crlf {
        LineEnds::Crlf
    } else {
        LineEnds::Lf
    };
    program_reports::export(rt, alloc, asked.path, group.as_ref(), ends, output)?;
    Ok(())
}

/// Prints the serial of a change that is durable.
fn print_serial<W: Write>(serial: &Durable<u64>, output: &mut W) -> Result<(), Failure> {
    Ok(writeln!(output, "{}", serial.get())?)
}

/// The group that a word names.
fn group_name(name: &[u8]) -> Result<GroupName, Failure> {
    GroupName::read(name).map_err(|_| Failure::Bad)
}

/// Prints why the program ends, and answers its status.
pub fn fail<F: Write>(faults: &mut F, failure: &Failure) -> u8
    ensures { result ≡ status_of failure.now }
{
    let _ = writeln!(faults, "newsd: {failure}");
    failure.status()
}
