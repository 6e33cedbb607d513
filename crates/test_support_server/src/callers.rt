//! The callers of a test: each is a socket that is read line by line, and whose reads end in time.

use std::alloc::Global;
use std::io::{BufRead, BufReader, Read, Write};
use std::net::{Ipv4Addr, Net, Shutdown, SocketAddr, TcpListener, TcpStream};
use std::time::Duration;

/// A read of a test ends after this many seconds.
const READ_SECS: u64 = 30;

pub const GREETING: &str = "200 news.example ready, posting permitted";

/// The reply to a caller that gets no session.
pub const SERVICE_ENDS: &str = "400 Service ends";

/// `POST` and an article whose message-id is <1@a.example>.
pub const POST: &str =
    "POST\r\nPath: p!not-for-mail\r\nDate: Sun, 09 Sep 2001 01:46:40 +0000\r\nMessage-ID: <1@a.example>\r\n\
    From: a@example.org\r\nNewsgroups: x.a\r\nSubject: one\r\n\r\nhi\r\n.\r\n";

/// A listener on a free port of the loopback interface.
pub fn listen<R: Net<Listener = TcpListener, Stream = TcpStream>>(rt: &R) -> Option<TcpListener> {
    TcpListener::bind(rt, SocketAddr::from((Ipv4Addr::LOCALHOST, 0))).ok()
}

/// A caller.
pub struct Caller {
    stream: TcpStream,
    replies: BufReader<TcpStream>,
    alloc: Global,
}

// By hand: a crate of tests that drops one would otherwise prove the derived one again, field by field.
impl Drop for Caller {
    fn drop(self) {
        let Caller {
            stream: _,
            replies: _,
            alloc: _,
        } = self;
    }
}

impl Caller {
    pub fn connect<R: Net<Listener = TcpListener, Stream = TcpStream>>(
        rt: &R,
        alloc: Global,
        address: SocketAddr,
    ) -> Option<Caller> {
        let stream = TcpStream::connect(rt, address).ok()?;
        let wait = Duration::from_secs(READ_SECS);
        stream.set_read_timeout(Some(wait)).ok()?;
        let replies = BufReader::new(alloc, stream.try_clone().ok()?).ok()?;
        Some(Caller {
            stream,
            replies,
            alloc,
        })
    }

    /// Whether the octets were sent.
    pub fn sends(&self, text: &str) -> bool {
        let mut stream = &self.stream;
        stream.write_all(text.as_bytes()).is_ok()
    }

    /// The next line, with its CRLF. It is empty at the end, and if the socket fails.
    pub fn line(&mut self) -> Vec<u8> {
        let mut line = Vec::new(self.alloc);
        let _ = self.replies.read_until(b'\n', &mut line);
        line
    }

    /// Whether the next line is this one.
    pub fn reads(&mut self, text: &str) -> bool {
        match self.line().as_slice() {
            [read @ .., b'\r', b'\n'] => read == text.as_bytes(),
            _ => false,
        }
    }

    /// Whether these lines come next.
    pub fn reads_all(&mut self, lines: &[&str]) -> bool {
        for line in lines {
            if !self.reads(line) {
                return false;
            }
        }
        true
    }

    /// Whether the server sends nothing more.
    pub fn reads_end(&mut self) -> bool {
        let mut octets = [0; 1];
        matches!(self.replies.read(&mut octets), Ok(0))
    }

    /// Reads one octet, and leaves the others to the system. So its socket fails when it is dropped.
    pub fn takes_one(&self) -> bool {
        let mut octets = [0; 1];
        let mut stream = &self.stream;
        matches!(stream.read(&mut octets), Ok(1))
    }

    /// Sends nothing more.
    pub fn ends(&self) -> bool {
        self.stream.shutdown(Shutdown::Write).is_ok()
    }
}
