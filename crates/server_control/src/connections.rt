//! The connections to the control socket. One thread accepts them, and each has a thread. None of them is joined, as those of the operator
//! aren't: they may wait for whoever has connected, and nobody waits for them.

use crossbeam_channel::Sender;
use server_backup::{BackupPlan, Backups, FileWork, path_of};
use server_consoles::{CONSOLES, Console, Kept, write_end};
use std::alloc::{AllocError, Global};
use std::io::{self, BufRead, BufReader, BufWriter, ErrorKind, Read, Write};
use std::os::unix::net::{UnixListener, UnixStream};
use std::sync::atomic::{AtomicUsize, Ordering};
use std::sync::{Arc, Wait};
use std::thread::{self, Threads};
use std::time::{Clock, Duration, Instant};

/// A connection from which no whole line comes for so many seconds is closed, and so is one that takes nothing of an answer.
const SILENT_SECS: u64 = 10;

/// How long nobody is accepted if the system gives no socket, in milliseconds.
const PAUSE_MILLIS: u64 = 100;

/// What a connection is answered beyond the most that there may be.
const TOO_MANY: &[u8] = b"E7 TooManySessions\n";

/// Starts the thread that accepts connections. Refused if memory is, a descriptor or a thread.
pub fn start<R: Threads + Wait + Clock + Copy + Send + 'static>(
    rt: &R,
    alloc: Global,
    listener: &UnixListener,
    console: Console,
    plan: BackupPlan,
    files: Sender<FileWork>,
) -> io::Result<()> {
    let entry = Entry {
        alloc,
        listener: listener.try_clone()?,
        console,
        plan: Arc::new(alloc, plan)?,
        files,
        places: Arc::new(alloc, AtomicUsize::new(0))?,
    };
    let own = *rt;
    let _acceptor = thread::spawn(rt, move || entry.accept_all(&own))?;
    Ok(())
}

/// Where connections come in.
#[derive(Drop)]
struct Entry {
    alloc: Global,
    listener: UnixListener,
    console: Console,
    /// What a backup has in common with the volume.
    plan: Arc<BackupPlan, Global>,
    /// A way to the thread that may make files.
    files: Sender<FileWork>,
    /// How many connections there are.
    places: Arc<AtomicUsize, Global>,
}

impl Entry {
    /// Accepts connections while the process lasts.
    fn accept_all<R: Threads + Wait + Clock + Copy + Send + 'static>(self, rt: &R) {
        for _ in rt.forever() {
            let is_done = match self.listener.accept() {
                Ok((stream, _)) => self.let_in(rt, stream).is_ok(),
                Err(_) => false,
            };
            if !is_done {
                let _ = thread::sleep(rt, Duration::from_millis(PAUSE_MILLIS));
            }
        }
        unreachable!()
    }

    /// Gives a connection its thread, or tells it that there are too many.
    fn let_in<R: Threads + Wait + Clock + Copy + Send + 'static>(
        &self,
        rt: &R,
        stream: UnixStream,
    ) -> io::Result<()> {
        let Some(place) = Place::take(&self.places)? else {
            return turn_away(&stream);
        };
        let (own, alloc) = (*rt, self.alloc);
        let (console, plan) = (self.console.another()?, Arc::try_clone(&self.plan)?);
        let files = self.files.clone()?;
        let _connection = thread::spawn(rt, move || {
            let backups = Backups {
                console: &console,
                plan: &plan,
                files: &files,
            };
            // whoever connected finds how that ended
            let _ = attend(&own, alloc, &stream, backups);
            drop(stream);
            drop(place);
        })?;
        Ok(())
    }
}

/// A place for a connection. It is free again once this is dropped.
struct Place {
    places: Arc<AtomicUsize, Global>,
}

impl Drop for Place {
    fn drop(self) {
        let Place { places } = self;
        places.fetch_sub(1, Ordering::SeqCst);
    }
}

impl Place {
    /// Takes one, if one is free. One thread alone takes them.
    fn take(places: &Arc<AtomicUsize, Global>) -> Result<Option<Place>, AllocError> {
        if places.load(Ordering::SeqCst) >= CONSOLES {
            return Ok(None);
        }
        let own = Arc::try_clone(places)?;
        own.fetch_add(1, Ordering::SeqCst);
        Ok(Some(Place { places: own }))
    }
}

/// Tells a connection that there are too many. So few octets wait for nobody.
fn turn_away(stream: &UnixStream) -> io::Result<()> {
    let mut answers = stream;
    stream.set_nonblocking(true)?;
    // it may be gone
    let _ = answers.write_all(TOO_MANY);
    let _ = write_end(&mut answers);
    Ok(())
}

/// Answers the lines of a connection one after the other, until they end, the next one doesn't come in time, or an answer isn't taken.
fn attend<R: Wait + Clock>(
    rt: &R,
    alloc: Global,
    stream: &UnixStream,
    backups: Backups<'_>,
) -> io::Result<()> {
    stream.set_write_timeout(Some(Duration::from_secs(SILENT_SECS)))?;
    let mut lines = BufReader::new(alloc, Patient::new(rt, stream)?)?;
    let mut answers = BufWriter::new(alloc, stream)?;
    for _ in rt.forever() {
        lines.get_mut().begin()?;
        if !answer_next(rt, alloc, backups, &mut lines, &mut answers)? {
            return Ok(());
        }
    }
    unreachable!()
}

/// Answers the next line. Answers false where there are no more lines.
fn answer_next<R: Wait, L: BufRead, A: Write>(
    rt: &R,
    alloc: Global,
    backups: Backups<'_>,
    lines: &mut L,
    answers: &mut A,
) -> io::Result<bool> {
    match backups.console.next(rt, alloc, lines)? {
        Some(line) => {
            answer(rt, alloc, backups, line, answers)?;
            Ok(true)
        }
        None => Ok(false),
    }
}

/// Answers a line. A backup is made here, since it takes long, and so that nobody but its own console waits for its file.
fn answer<R: Wait, A: Write>(
    rt: &R,
    alloc: Global,
    backups: Backups<'_>,
    line: Kept,
    answers: &mut A,
) -> io::Result<()> {
    let path = match &line {
        Ok(octets) => path_of(alloc, octets.as_slice())?,
        Err(_) => None,
    };
    match path {
        Some(path) => back_up(rt, alloc, backups, path.as_slice(), answers),
        None => backups.console.answer(rt, alloc, line, answers),
    }
}

/// Makes a backup at a path, and writes the answer.
fn back_up<R: Wait, A: Write>(
    rt: &R,
    alloc: Global,
    backups: Backups<'_>,
    path: &[u8],
    answers: &mut A,
) -> io::Result<()> {
    let _unwritten = backups.console.write_before_end(rt, alloc)?;
    match backups.make(rt, alloc, path) {
        Ok(changes) => writeln!(answers, "changes {changes}")?,
        Err(refused) => writeln!(answers, "{refused}")?,
    }
    write_end(answers)
}

/// A connection from which a line has to come in time.
struct Patient<'a, R> {
    rt: &'a R,
    stream: &'a UnixStream,
    since: Instant,
}

impl<'a, R> Drop for Patient<'a, R> {
    fn drop(self) {
        let Patient {
            rt: _,
            stream: _,
            since: _,
        } = self;
    }
}

impl<'a, R: Clock> Patient<'a, R> {
    fn new(rt: &'a R, stream: &'a UnixStream) -> io::Result<Patient<'a, R>> {
        Ok(Patient {
            rt,
            stream,
            since: Instant::now(rt)?,
        })
    }

    /// The time for a line begins.
    fn begin(&mut self) -> io::Result<()> {
        self.since = Instant::now(self.rt)?;
        Ok(())
    }
}

impl<'a, R: Clock> Read for Patient<'a, R> {
    fn read(&mut self, buf: &mut [u8]) -> io::Result<usize> {
        let waited = self.since.elapsed(self.rt)?;
        let left = Duration::from_secs(SILENT_SECS).saturating_sub(waited);
        if left.is_zero() {
            return Err(io::Error::from(ErrorKind::TimedOut));
        }
        self.stream.set_read_timeout(Some(left))?;
        let mut stream = self.stream;
        stream.read(buf)
    }
}
