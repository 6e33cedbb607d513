//! Callers by a proxy, as by stunnel with `protocol = proxy`: their connection begins with a line that says for whom the
//! proxy connects. The session's thread reads it, so that no caller waits for a proxy that sends none.

use crate::acceptor::{ACCESS_DENIED, SERVICE_ENDS, turn_away};
use crate::{Caller, Doors, Way};
use kernel_shared::Kern;
use server_logging::{Log, SessionRefusal};
use server_releasing::Shared;
use std::io::{ErrorKind, Read};
use std::net::{SocketAddr, TcpStream};
use std::sync::Wait;
use std::time::{Clock, Duration, Instant};
use text_networks::{Admitted, PROXY_LINE, Proxied, admit_proxied, read_proxy_line};

/// How long a read of the line waits before it looks whether the server ends, in milliseconds.
const LOOK_MILLIS: u64 = 200;

/// A caller by a proxy that is not served.
#[derive(Clone, Copy)]
struct Refused {
    peer: SocketAddr,
    why: SessionRefusal,
}

/// The caller, with its own address. One that comes by a proxy, which doesn't say for whom it connects, or for somebody who is
/// not let in or has as many sessions as it may have, is refused: its session is left, and its seat is free.
pub fn identify<R: Wait + Clock, K: Kern, G>(
    shared: &Shared<'_, R, K, G>,
    doors: &Doors<'_>,
    log: &Log,
    caller: Caller,
) -> Option<Caller> {
    if caller.way == Way::Direct {
        return Some(caller);
    }
    let found = find(shared, doors, &caller);
    let Caller {
        sid,
        way,
        stream,
        ..
    } = caller;
    match found {
        Ok((peer, seat)) => Some(Caller {
            sid,
            seat,
            way,
            peer,
            stream,
        }),
        Err(Refused { peer, why }) => {
            shared.kern.leave(shared.rt, sid);
            log.note_refused(shared.rt, peer, why);
            refuse(&stream, why);
            None
        }
    }
}

/// The caller for whom a proxy connects, and its seat by its address. One that is refused has no seat.
fn find<R: Wait + Clock, K, G>(
    shared: &Shared<'_, R, K, G>,
    doors: &Doors<'_>,
    caller: &Caller,
) -> Result<(Admitted, usize), Refused> {
    let peer = match let_in(shared, doors, caller) {
        Ok(peer) => peer,
        Err(refused) => {
            doors.free(shared.rt, caller.seat);
            return Err(refused);
        }
    };
    match doors.name(shared.rt, caller.seat, peer.peer().ip()) {
        Ok(seat) => Ok((peer, seat)),
        Err(why) => Err(Refused {
            peer: peer.peer(),
            why,
        }),
    }
}

/// The caller for whom a proxy connects, if its line says so and that caller may call.
fn let_in<R: Wait + Clock, K, G>(
    shared: &Shared<'_, R, K, G>,
    doors: &Doors<'_>,
    caller: &Caller,
) -> Result<Admitted, Refused> {
    let named = match read_line(shared, &caller.stream) {
        Ok(named) => named,
        Err(why) => {
            let peer = caller.peer.peer();
            return Err(Refused { peer, why });
        }
    };
    match admit_proxied(doors.networks, caller.peer, named) {
        Ok(peer) => Ok(peer),
        Err(peer) => Err(Refused {
            peer,
            why: SessionRefusal::Access,
        }),
    }
}

/// Tells a caller why it is not served. Whoever speaks another protocol than that of a proxy is told nothing.
fn refuse(stream: &TcpStream, why: SessionRefusal) {
    let reply = match why {
        SessionRefusal::Proxy => b"",
        SessionRefusal::Access => ACCESS_DENIED,
        _ => SERVICE_ENDS,
    };
    turn_away(stream, reply);
}

/// For whom a proxy connects, as its line says. The line has to come within the time of a first command. Octet by octet is read,
/// so that none behind the line is taken.
fn read_line<R: Wait + Clock, K, G>(
    shared: &Shared<'_, R, K, G>,
    stream: &TcpStream,
) -> Result<Proxied, SessionRefusal> {
    let since = set_up(shared, stream, Duration::from_millis(LOOK_MILLIS))?;
    let mut line = [0; PROXY_LINE];
    for at in 0..PROXY_LINE {
        let octet = read_octet(shared, stream, since)?;
        line[at] = octet;
        if octet == b'\n' {
            set_up(shared, stream, shared.limits.first)?;
            return read_proxy_line(&line[..at + 1]).ok_or(SessionRefusal::Proxy);
        }
    }
    Err(SessionRefusal::Proxy)
}

/// Has a read wait for so long, and answers when that was.
fn set_up<R: Clock, K, G>(
    shared: &Shared<'_, R, K, G>,
    stream: &TcpStream,
    wait: Duration,
) -> Result<Instant, SessionRefusal> {
    if stream.set_read_timeout(Some(wait)).is_err() {
        return Err(SessionRefusal::Failed);
    }
    match Instant::now(shared.rt) {
        Ok(now) => Ok(now),
        Err(_) => Err(SessionRefusal::Failed),
    }
}

/// The next octet of a line that is awaited since then.
fn read_octet<R: Wait + Clock, K, G>(
    shared: &Shared<'_, R, K, G>,
    stream: &TcpStream,
    since: Instant,
) -> Result<u8, SessionRefusal> {
    let mut octet = [0];
    let mut stream = stream;
    'reads: for _ in shared.rt.forever() {
        if shared.closing.has_begun() || shared.bells.is_stopping() {
            return Err(SessionRefusal::Halted);
        }
        match since.elapsed(shared.rt) {
            Ok(waited) if waited < shared.limits.first => {}
            _ => return Err(SessionRefusal::Proxy),
        }
        match stream.read(&mut octet) {
            Ok(0) => return Err(SessionRefusal::Proxy),
            Ok(_) => return Ok(octet[0]),
            Err(error) => {
                if is_broken(error.kind()) {
                    return Err(SessionRefusal::Failed);
                }
            }
        }
    }
    unreachable!()
}

/// Whether a read that failed is not tried again.
fn is_broken(kind: ErrorKind) -> bool {
    !matches!(
        kind,
        ErrorKind::Interrupted | ErrorKind::WouldBlock | ErrorKind::TimedOut
    )
}
