//! What the callers of a play do.

use crate::props::{Callers, Props};
use std::alloc::Global;
use std::net::{Net, SocketAddr, TcpListener, TcpStream};
use std::sync::Wait;
use std::sync::atomic::Ordering;
use std::thread::{Threads, join};
use std::time::Clock;
use test_support_server::{Caller, GREETING, SERVICE_ENDS, sleep_until};

/// The most articles of a caller that posts until the server ends. The volume has room for those of four callers.
const ARTICLES: u64 = 12;

/// The operator stops the server once this many were acknowledged, and all callers were greeted: who comes after the stop is refused.
pub(crate) const LEAST: u64 = 10;

/// The callers that post.
const POSTERS: u64 = 4;

/// Such an article, before and after the number in its message-id.
const FRONT: &str =
    "Path: p!not-for-mail\r\nDate: Sun, 09 Sep 2001 01:46:40 +0000\r\nMessage-ID: <";

const BACK: &str =
    "@a.example>\r\nFrom: a@example.org\r\nNewsgroups: x.a\r\nSubject: one\r\n\r\nhi\r\n.\r\n";

/// Where a server of a play is called, and what is shared with it.
pub(crate) struct Visit<'a, R> {
    pub(crate) rt: &'a R,
    pub(crate) alloc: Global,
    pub(crate) address: SocketAddr,
    pub(crate) props: &'a Props,
}

impl<'a, R> Drop for Visit<'a, R> {
    fn drop(self) {
        let Visit {
            rt: _,
            alloc: _,
            address: _,
            props: _,
        } = self;
    }
}

impl<'a, R: Net<Listener = TcpListener, Stream = TcpStream> + Threads + Wait + Clock + Sync> Visit<
    'a,
    R,
> {
    /// Does what the callers of a play do. Answers false if one of them read what it must not.
    pub(crate) fn call(&self, callers: Callers) -> bool {
        match callers {
            Callers::None => self.makes_due(),
            Callers::Late => self.props.answers.are(self.rt, 1) && self.makes_due(),
            Callers::Post => self.post_all(),
            Callers::Ask => self.ask(),
        }
    }

    /// Has the operator's last lines come.
    fn makes_due(&self) -> bool {
        self.props.is_due.store(true, Ordering::SeqCst);
        true
    }

    /// Four callers post until the server ends. Answers false if one of them read what it must not.
    fn post_all(&self) -> bool {
        let (front, back) = join(self.rt, || self.post_two(1), || self.post_two(3));
        front && back
    }

    /// Two callers post until the server ends, the first with this number.
    fn post_two(&self, first: u64) -> bool {
        let (one, other) = join(
            self.rt,
            || self.post_until_end(first),
            || self.post_until_end(first.wrapping_add(1)),
        );
        one && other
    }

    /// A caller posts one article after another until the server ends, and then reads the end. It counts those that are
    /// acknowledged. Answers false if the caller reads another reply.
    fn post_until_end(&self, name: u64) -> bool {
        let Some(mut caller) = Caller::connect(self.rt, self.alloc, self.address) else {
            return false;
        };
        if !caller.reads(GREETING) {
            return false;
        }
        let _ = self.props.greeted.fetch_add(1, Ordering::SeqCst);
        for number in 0..ARTICLES {
            match post(&mut caller, self.alloc, number_of(name, number)) {
                Some(true) => self.note_post(),
                Some(false) => return true,
                None => return false,
            }
        }
        caller.line().is_empty()
    }

    /// A caller asks, and asks again while the reply is held. It reads that reply, and then the end and no failure.
    fn ask(&self) -> bool {
        let Some(mut caller) = Caller::connect(self.rt, self.alloc, self.address) else {
            return false;
        };
        let is_asked = caller.reads(GREETING)
            && caller.sends("STAT <8@a.example>\r\n")
            && sleep_until(self.rt, &self.props.is_held)
            && caller.sends("STAT <9@a.example>\r\n");
        self.makes_due();
        is_asked && caller.reads("430 No such article") && caller.reads_end()
    }

    /// Counts an article that was acknowledged.
    fn note_post(&self) {
        let before = self.props.posted.fetch_add(1, Ordering::SeqCst);
        if before.wrapping_add(1) >= LEAST && self.props.greeted.load(Ordering::SeqCst) == POSTERS {
            self.props.is_due.store(true, Ordering::SeqCst);
        }
    }
}

/// The number of an article, from that of its caller and that among the caller's articles.
fn number_of(caller: u64, number: u64) -> u64 {
    caller.wrapping_mul(ARTICLES).wrapping_add(number)
}

/// Posts an article. Answers whether it was acknowledged, which is false if the server ended; `None` if another reply
/// came.
fn post(caller: &mut Caller, alloc: Global, number: u64) -> Option<bool> {
    caller.sends("POST\r\n");
    if !goes_on(caller, "340 Send article")? {
        return Some(false);
    }
    let text = format!(in alloc; "{FRONT}{number}{BACK}").ok()?;
    caller.sends(&text);
    goes_on(caller, "240 Article received")
}

/// What the server says next to a caller that expects this line: whether it is that. `None` if it is neither that nor
/// the end of the service.
fn goes_on(caller: &mut Caller, text: &str) -> Option<bool> {
    let line = caller.line();
    match line.as_slice() {
        [] => Some(false),
        [read @ .., b'\r', b'\n'] if read == text.as_bytes() => Some(true),
        [read @ .., b'\r', b'\n'] if read == SERVICE_ENDS.as_bytes() => Some(false),
        _ => None,
    }
}
