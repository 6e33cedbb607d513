//! `newsd`, a Usenet server that releases no reply before the changes that it depends on are on disk.
#![tactic(auto)]

mod closed;

use closed::{ClosedStreams, NULL_DEVICE};
use program::{AfterRun, Failure, Streams, ask, fail, import, renew, run, serve};
use std::alloc::Global;
use std::fs::File;
use std::io::{BufReader, BufWriter, ErrorKind, IsTerminal, Stderr, StdinLock, Stdout, Write};
use std::net::{Net, TcpListener, TcpStream};
use std::process::ExitCode;
use std::rt::Files;
use std::sync::Wait;
use std::thread::Threads;
use std::time::Clock;

/// The variable with the name of the socket where the service manager listens, if one does (sd_notify(3)).
const MANAGER: &str = "NOTIFY_SOCKET";

/// What is said of words of which one isn't UTF-8.
const NOT_UTF_8: &str = "one of the words, or of the names of files, isn't UTF-8";

/// What the program starts with.
#[derive(Drop)]
struct Start {
    words: Vec<String>,
    input: BufReader<StdinLock<'static>>,
    output: BufWriter<Stdout>,
    /// Where the service manager listens, if it does.
    manager: Option<String>,
}

impl Start {
    /// The words that the program was called with, and its streams.
    fn new(rt: &HostRuntime) -> Result<Start, Failure> {
        let alloc = rt.alloc();
        Ok(Start {
            words: words_of(rt, alloc)?,
            input: BufReader::new(alloc, rt.reader())?,
            output: BufWriter::new(alloc, rt.stdout())?,
            manager: std::env::var(rt, MANAGER).ok(),
        })
    }
}

/// The words that the program was called with. `BadWord` if one of them isn't UTF-8.
fn words_of(rt: &HostRuntime, alloc: Global) -> Result<Vec<String>, Failure> {
    match std::env::args(rt) {
        Ok(words) => Ok(words.collect(alloc)?),
        Err(error) if error.kind() == ErrorKind::InvalidData => {
            Err(Failure::BadWord(String::from_str(alloc, NOT_UTF_8)?))
        }
        Err(error) => Err(Failure::from(error)),
    }
}

fn main(rt: HostRuntime) -> ExitCode {
    let mut faults = rt.stderr();
    let _closed = match ClosedStreams::hold(&rt) {
        Ok(closed) => closed,
        Err(error) => {
            let _ = writeln!(faults, "newsd: {NULL_DEVICE}: {error}");
            return ExitCode::FAILURE;
        }
    };
    let status = match Start::new(&rt) {
        Ok(start) => carry_out(&rt, rt.alloc(), start, &mut faults, rt.stderr()),
        Err(failure) => fail(&mut faults, &failure),
    };
    ExitCode::from(status)
}

/// Does what the words ask for, and answers the status. A server's log goes to `log`.
fn carry_out<
    R: Files<File = File>
        + Net<Listener = TcpListener, Stream = TcpStream>
        + Threads
        + Wait
        + Clock
        + Copy
        + Send
        + Sync
        + 'static,
>(rt: &R, alloc: Global, start: Start, faults: &mut Stderr, log: Stderr) -> u8 {
    let Start {
        words,
        mut input,
        mut output,
        manager,
    } = start;
    match run(rt, alloc, words.as_slice(), &mut input, &mut output, faults) {
        AfterRun::Ends(status) => status,
        AfterRun::Imports(path) => {
            let is_terminal = faults.is_terminal();
            import(
                rt,
                alloc,
                path,
                &mut input,
                &mut output,
                faults,
                is_terminal,
            )
        }
        AfterRun::Renews(asked) => {
            let is_terminal = faults.is_terminal();
            renew(rt, alloc, &asked, &mut output, faults, is_terminal)
        }
        AfterRun::Asks(question) => ask(rt, alloc, &question, &mut output, faults),
        AfterRun::Serves(service) => {
            let streams = Streams {
                lines: input,
                answers: output,
                faults: log,
            };
            let manager = manager.as_deref();
            serve(rt, alloc, &service, manager, streams, faults)
        }
    }
}
