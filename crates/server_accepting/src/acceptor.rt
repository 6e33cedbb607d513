//! The acceptors: each has a listener, and joins a session for each caller that is let in.

use crate::lingering::read_at_once;
use crate::{Caller, Way};
use crossbeam_channel::Sender;
use kernel_shared::{JoinError, Kern};
use server_logging::{Log, SessionRefusal};
use server_releasing::{Shared, give_short_writes};
use std::alloc::Global;
use std::io::{self, Write};
use std::net::{IpAddr, Net, Shutdown, SocketAddr, TcpListener, TcpStream};
use std::os::fd::OwnedFd;
use std::sync::atomic::{AtomicBool, Ordering};
use std::sync::{Arc, Mutex, Wait};
use std::thread;
use std::time::{Clock, Duration};
use text_networks::{Admitted, Guest, Guests, Network, NoSeat, admit};

/// The reply to a caller that gets no session (RFC 3977, section 5.1.1).
pub(crate) const SERVICE_ENDS: &[u8] = b"400 Service ends\r\n";

/// The reply to a caller from an address that is not let in (RFC 3977, section 5.1.1).
pub(crate) const ACCESS_DENIED: &[u8] = b"502 Access denied\r\n";

/// How long an acceptor waits if the system gives it no socket, in milliseconds.
const PAUSE_MILLIS: u64 = 10;

/// The most callers of a listener that are told at the end that the service ends: more than can wait at a listener that
/// std made.
const WAITING: u32 = 256;

/// The doors of a server: one for each of its listeners.
pub struct Doors<'a> {
    listeners: &'a [TcpListener],
    /// The listeners for proxies.
    proxied: &'a [TcpListener],
    /// The networks from which callers are let in, besides the loopback networks.
    pub networks: &'a [Network],
    /// One seat for each session's thread. They are those of all listeners.
    guests: Mutex<Guests>,
    /// A second handle of each listener, as a stream, since std shuts only streams down.
    handles: Vec<TcpStream>,
    /// The doors let nobody in any more.
    are_shut: AtomicBool,
}

impl<'a> Drop for Doors<'a> {
    fn drop(self) {
        let Doors {
            listeners: _,
            proxied: _,
            networks: _,
            guests,
            handles,
            are_shut: _,
        } = self;
        drop(guests);
        drop(handles);
    }
}

impl<'a> Doors<'a> {
    /// Open doors to these seats. `None` if memory is refused, or a descriptor: each listener takes one more.
    pub fn new(
        alloc: Global,
        listeners: &'a [TcpListener],
        proxied: &'a [TcpListener],
        networks: &'a [Network],
        guests: Guests,
    ) -> Option<Doors<'a>> {
        let mut handles = Vec::new(alloc);
        push_handles(&mut handles, listeners)?;
        push_handles(&mut handles, proxied)?;
        Some(Doors {
            listeners,
            proxied,
            networks,
            guests: Mutex::new(guests),
            handles,
            are_shut: AtomicBool::new(false),
        })
    }

    /// Shuts the doors, once. The callers that wait are told that the service ends. After that the listeners take no
    /// caller, and each acceptor ends: on Linux a call of `accept` fails once its listener was shut down, even a call
    /// that is waiting. So nobody has to connect to a listener to end its acceptor.
    pub fn shut(&self) {
        if self.are_shut.swap(true, Ordering::SeqCst) {
            return;
        }
        for listener in self.listeners {
            turn_waiting_away(listener);
        }
        for listener in self.proxied {
            turn_waiting_away(listener);
        }
        for handle in &self.handles {
            let _ = handle.shutdown(Shutdown::Read);
        }
    }

    /// The listeners to which callers come in this way.
    pub fn listeners(&self, way: Way) -> &'a [TcpListener] {
        match way {
            Way::Direct => self.listeners,
            Way::Proxied => self.proxied,
        }
    }

    /// Whether the doors let nobody in any more.
    pub fn are_shut(&self) -> bool {
        self.are_shut.load(Ordering::SeqCst)
    }

    /// Frees the seat of a caller whose session's thread is free for another.
    pub fn free<R: Wait>(&self, rt: &R, seat: usize) {
        self.guests.lock(rt).leave(seat);
    }

    /// Gives the caller of a seat one by its address, which is known now, and answers which. Refused if its address has as
    /// many as it may have; then it has none.
    pub(crate) fn name<R: Wait>(
        &self,
        rt: &R,
        seat: usize,
        address: IpAddr,
    ) -> Result<usize, SessionRefusal> {
        let named = self.guests.lock(rt).name(seat, address);
        match named {
            Ok(seat) => Ok(seat),
            Err(why) => Err(no_seat(why)),
        }
    }
}

/// Puts a second handle of each of these listeners behind the others. `None` if memory is refused, or a descriptor.
fn push_handles(handles: &mut Vec<TcpStream>, listeners: &[TcpListener]) -> Option<()> {
    for listener in listeners {
        let handle = OwnedFd::from(listener.try_clone().ok()?);
        handles.push(TcpStream::from(handle)).ok()?;
    }
    Some(())
}

/// Tells the callers that wait at a listener that the service ends. From then on the listener waits for nobody.
fn turn_waiting_away(listener: &TcpListener) {
    if listener.set_nonblocking(true).is_err() {
        return;
    }
    for _ in 0..WAITING {
        let Ok((stream, _)) = listener.accept() else {
            return;
        };
        turn_away(&stream, SERVICE_ENDS);
    }
}

/// The entrance for the callers of a listener. It keeps a second handle of the listener as a spare descriptor. If the
/// system has none left for a caller, the spare is given up, so that the caller can be told that the service ends.
#[derive(Drop)]
struct Entrance<'a> {
    listener: &'a TcpListener,
    spare: Option<TcpListener>,
}

/// A caller that has no session yet, and its address.
#[derive(Drop)]
struct Newcomer {
    stream: TcpStream,
    peer: SocketAddr,
}

/// A caller that is let in and has no session yet.
#[derive(Drop)]
struct Entrant {
    stream: TcpStream,
    peer: Admitted,
}

impl<'a> Entrance<'a> {
    fn new(listener: &'a TcpListener) -> Entrance<'a> {
        Entrance {
            listener,
            spare: listener.try_clone().ok(),
        }
    }

    /// The next caller, possibly accepted with the spare descriptor. `None` if the system gives none: then a pause is
    /// due.
    fn next(&mut self) -> Option<Newcomer> {
        let (stream, peer) = match self.listener.accept() {
            Ok(accepted) => accepted,
            Err(_) => {
                self.spare.take()?;
                self.listener.accept().ok()?
            }
        };
        Some(Newcomer { stream, peer })
    }

    /// Whether there is a spare descriptor, after an attempt to get one. Without it no caller is served, because the
    /// next one could not be refused with a reply.
    fn is_open(&mut self) -> bool {
        if self.spare.is_none() {
            self.spare = self.listener.try_clone().ok();
        }
        self.spare.is_some()
    }
}

/// Who starts the threads of sessions, as callers come.
pub trait Crew {
    /// Has threads for so many sessions run. Answers false if the system cannot start them.
    fn has_threads(&self, sessions: usize) -> bool;
}

/// An acceptor.
pub struct Acceptor<'a, 'b, R, K, G, C> {
    /// What the threads of the server share.
    pub shared: &'b Shared<'a, R, K, G>,
    pub doors: &'b Doors<'a>,
    pub log: &'b Log,
    /// How its callers come.
    pub way: Way,
    pub calls: Sender<Caller>,
    pub crew: C,
}

impl<'a, 'b, R, K, G, C: Drop> Drop for Acceptor<'a, 'b, R, K, G, C> {
    fn drop(self) {
        let Acceptor {
            shared: _,
            doors: _,
            log: _,
            way: _,
            calls,
            crew,
        } = self;
        drop(calls);
        drop(crew);
    }
}

impl<
    'a,
    'b,
    R: Net<Listener = TcpListener, Stream = TcpStream> + Wait + Clock,
    K: Kern,
    G,
    C: Crew,
> Acceptor<'a, 'b, R, K, G, C> {
    /// Accepts the callers of a listener until the kernel is halted. A caller that cannot be served gets the reply that
    /// the service ends, and one that is not let in the reply that says so. The first acceptor that finds the kernel
    /// halted shuts the other doors, too, and wakes the flusher's thread.
    pub fn accept_all(&self, listener: &TcpListener) {
        let mut entrance = Entrance::new(listener);
        for _ in self.shared.rt.forever() {
            let newcomer = entrance.next();
            if self.doors.are_shut() {
                if let Some(newcomer) = newcomer {
                    turn_away(&newcomer.stream, SERVICE_ENDS);
                }
                return;
            }
            let Some(newcomer) = newcomer else {
                thread::sleep(self.shared.rt, Duration::from_millis(PAUSE_MILLIS));
                continue;
            };
            match self.admit(newcomer, &mut entrance) {
                Ok(()) => {}
                Err(Over) => {
                    self.doors.shut();
                    self.shared.bells.flusher.unpark();
                    return;
                }
            }
        }
    }

    /// Gives a caller that may call a seat and a session. One that may not is told so. For whom a proxy connects is read by the
    /// session's thread, so whether that caller is let in is seen there. `Over` if there will be no more sessions.
    fn admit(&self, newcomer: Newcomer, entrance: &mut Entrance<'_>) -> Result<(), Over> {
        let Newcomer { stream, peer } = newcomer;
        match admit(self.doors.networks, peer) {
            Some(peer) => self.seat(Entrant { stream, peer }, entrance),
            None => {
                self.note(peer, SessionRefusal::Access);
                turn_away(&stream, ACCESS_DENIED);
                Ok(())
            }
        }
    }

    /// Joins a session for a caller that gets a seat, and hands the caller to a session's thread, which is started if it is the
    /// first caller at this seat. A caller that gets no session is refused. `Over` if there will be no more sessions.
    fn seat(&self, entrant: Entrant, entrance: &mut Entrance<'_>) -> Result<(), Over> {
        let guest = match self.way {
            Way::Direct => Guest::At(entrant.peer.peer().ip()),
            Way::Proxied => Guest::Unnamed,
        };
        let entered = self.doors.guests.lock(self.shared.rt).enter(guest);
        let seat = match entered {
            Ok(seat) => seat,
            Err(why) => {
                self.refuse(&entrant.stream, entrant.peer, no_seat(why));
                return Ok(());
            }
        };
        if !self.crew.has_threads(seat.saturating_add(1)) {
            self.doors.free(self.shared.rt, seat);
            self.refuse(&entrant.stream, entrant.peer, SessionRefusal::Memory);
            return Ok(());
        }
        match self.join(entrant, seat, entrance.is_open()) {
            Ok(true) => Ok(()),
            Ok(false) => {
                self.doors.free(self.shared.rt, seat);
                Ok(())
            }
            Err(over) => Err(over),
        }
    }

    /// Joins a session for a caller that has a seat, and hands the caller to a session's thread. Answers false if the caller is
    /// refused, and has no use for the seat. `Over` if there will be no more sessions.
    fn join(&self, entrant: Entrant, seat: usize, has_room: bool) -> Result<bool, Over> {
        match self.shared.kern.join(self.shared.rt, self.shared.alloc) {
            Ok(sid) => self.welcome(entrant, sid, seat, has_room),
            Err(error) => {
                self.refuse(&entrant.stream, entrant.peer, refusal_of(error));
                if error == JoinError::Halted {
                    return Err(Over);
                }
                Ok(false)
            }
        }
    }

    /// Hands a caller whose session was joined to a session's thread. If that is not possible, or if the operator stops
    /// the server, the session is left and the caller refused, which answers false. `Over` if there are no more such
    /// threads.
    fn welcome(
        &self,
        entrant: Entrant,
        sid: u64,
        seat: usize,
        has_room: bool,
    ) -> Result<bool, Over> {
        let Shared {
            rt,
            alloc,
            kern,
            bells,
            limits,
            ..
        } = self.shared;
        let Entrant { stream, peer } = entrant;
        if let Some(why) = obstacle(&stream, limits.first, has_room, bells.is_stopping()) {
            kern.leave(*rt, sid);
            self.refuse(&stream, peer, why);
            return Ok(false);
        }
        match Arc::new(*alloc, stream) {
            Ok(stream) => {
                let caller = Caller {
                    sid,
                    seat,
                    way: self.way,
                    peer,
                    stream,
                };
                match self.calls.send(*rt, caller) {
                    Ok(()) => Ok(true),
                    Err(_) => Err(Over),
                }
            }
            Err(refused) => {
                kern.leave(*rt, sid);
                self.refuse(&refused.value, peer, SessionRefusal::Memory);
                Ok(false)
            }
        }
    }

    /// Tells a caller that the service ends, and notes why it got no session.
    fn refuse(&self, stream: &TcpStream, peer: Admitted, why: SessionRefusal) {
        self.note(peer.peer(), why);
        turn_away(stream, SERVICE_ENDS);
    }

    fn note(&self, peer: SocketAddr, why: SessionRefusal) {
        self.log.note_refused(self.shared.rt, peer, why);
    }
}

/// No more callers get a session.
#[derive(Clone, Copy)]
struct Over;

/// Why a caller got no seat, as the log says it.
fn no_seat(why: NoSeat) -> SessionRefusal {
    match why {
        NoSeat::Full => SessionRefusal::Sessions,
        NoSeat::Address => SessionRefusal::Address,
    }
}

/// Why a caller got no session of the kernel.
fn refusal_of(error: JoinError) -> SessionRefusal {
    match error {
        JoinError::Halted => SessionRefusal::Halted,
        JoinError::TooManySessions => SessionRefusal::Sessions,
        JoinError::Memory => SessionRefusal::Memory,
    }
}

/// Why a caller whose session was joined is not served, if it is not. Otherwise its socket is set up.
fn obstacle(
    stream: &TcpStream,
    silence: Duration,
    has_room: bool,
    is_stopping: bool,
) -> Option<SessionRefusal> {
    if is_stopping {
        return Some(SessionRefusal::Halted);
    }
    if !has_room {
        return Some(SessionRefusal::Descriptors);
    }
    match set_up(stream, silence) {
        Ok(()) => None,
        Err(_) => Some(SessionRefusal::Failed),
    }
}

/// Sets up a caller's socket: octets are sent at once, a write hardly waits, and a read of a silent caller ends.
fn set_up(stream: &TcpStream, silence: Duration) -> io::Result<()> {
    stream.set_nodelay(true)?;
    give_short_writes(stream)?;
    stream.set_read_timeout(Some(silence))
}

/// Sends a caller its only reply, and waits for nothing. What the caller has already sent is read first, since a close
/// with unread octets could discard the reply.
pub(crate) fn turn_away(stream: &TcpStream, reply: &[u8]) {
    if stream.set_nonblocking(true).is_err() {
        return;
    }
    let mut writing = stream;
    let _ = writing.write_all(reply);
    let _ = stream.shutdown(Shutdown::Write);
    read_at_once(stream);
}
