//! The caller of a play, whose reads end in time, and the octets that fill a socket.

use std::alloc::Global;
use std::io::{BufRead, BufReader, Read, Write};
use std::net::{Ipv4Addr, Net, SocketAddr, TcpListener, TcpStream};
use std::time::Duration;

/// A read of a test ends after this many seconds.
const READ_SECS: u64 = 10;

/// The octets that fill a socket, and the most writes of them.
const FILLING: [u8; 4096] = [b'x'; 4096];

const FILLINGS: u32 = 100_000;

/// If a socket takes nothing of this many writes in a row, it is full. After fewer its two buffers may still be
/// settling.
const REFUSALS: u32 = 30;

/// A caller.
#[derive(Drop)]
pub struct Caller {
    replies: BufReader<TcpStream>,
    alloc: Global,
}

impl Caller {
    /// Both ends of a new connection: the server's, and a caller with the other one.
    pub fn connect<R: Net<Listener = TcpListener, Stream = TcpStream>>(
        rt: &R,
        alloc: Global,
    ) -> Option<(TcpStream, Caller)> {
        let listener = TcpListener::bind(rt, SocketAddr::from((Ipv4Addr::LOCALHOST, 0))).ok()?;
        let replies = replies_from(rt, alloc, listener.local_addr().ok()?)?;
        let (near, _) = listener.accept().ok()?;
        near.set_nodelay(true).ok()?;
        Some((near, Caller { replies, alloc }))
    }

    /// Whether the next line is this one, after the octets that filled the socket.
    pub fn reads(&mut self, text: &[u8]) -> bool {
        let mut line = Vec::new(self.alloc);
        if self.replies.read_until(b'\n', &mut line).is_err() {
            return false;
        }
        let filled = line.iter().take_while(|octet| **octet == b'x').count();
        line.iter().skip(filled).eq(text.iter())
    }

    /// Whether these lines come next.
    pub fn reads_all(&mut self, lines: &[&[u8]]) -> bool {
        for line in lines {
            if !self.reads(line) {
                return false;
            }
        }
        true
    }

    /// Takes a little, and answers how many octets that was, 0 at the end.
    pub fn takes(&mut self, piece: &mut [u8]) -> Option<u64> {
        let count = self.replies.read(piece).ok()?;
        Some(count as u64)
    }
}

/// A new connection, whose reads end in time.
fn replies_from<R: Net<Listener = TcpListener, Stream = TcpStream>>(
    rt: &R,
    alloc: Global,
    address: SocketAddr,
) -> Option<BufReader<TcpStream>> {
    let stream = TcpStream::connect(rt, address).ok()?;
    stream
        .set_read_timeout(Some(Duration::from_secs(READ_SECS)))
        .ok()?;
    BufReader::new(alloc, stream).ok()
}

/// Fills a socket, whose writes hardly wait, until it takes no more. It answers the number of octets; `None` if it was
/// never full.
pub fn fill(stream: &TcpStream) -> Option<u64> {
    let mut stream = stream;
    let (mut filled, mut refusals) = (0u64, 0u32);
    for _ in 0..FILLINGS {
        match stream.write(&FILLING) {
            Ok(count) => {
                filled = filled.checked_add(count as u64)?;
                refusals = 0;
            }
            Err(_) => refusals = refusals.saturating_add(1),
        }
        if refusals >= REFUSALS {
            return Some(filled);
        }
    }
    None
}
