//! The octets of one session that have left the kernel, on their way into its socket.

use kernel_outbox::{RELEASE_ENTRIES, RELEASE_OCTETS, ReadyBuf};
use kernel_shared::{ExecError, ExecOutcome, Hooks, Kern};
use model::{Message, Moment};
use server_delivering::{Taking, Written, deliver, deliver_at_once};
use server_places::Held;
use std::alloc::{AllocError, Global};
use std::net::{IpAddr, Shutdown, TcpStream};
use std::sync::{Arc, Wait};
use std::time::{Clock, Duration};
use text_networks::Guest;

/// Whether a write may wait until its socket takes more.
#[derive(Clone, Copy, PartialEq, Eq)]
pub enum Patience {
    /// The thread has other sessions to serve. Octets that the socket does not take at once are left.
    None,
    /// The thread serves only this session, and waits until the socket has taken nothing for `Limits::stall`.
    Long,
}

/// Why nothing more is written to a caller.
#[derive(Clone, Copy, Debug, PartialEq, Eq)]
pub enum Cut {
    /// The socket took nothing for `Limits::stall`.
    Stalled,
    /// In this time it took too little, while its session had a place for a large reply, or asked for one.
    Slow,
    /// The socket failed.
    Failed,
    /// The operator ended the session.
    Dropped,
}

/// What was written to a caller.
#[derive(Clone, Copy, Debug, PartialEq, Eq)]
pub struct Delivery {
    pub octets: u64,
    /// `None` if all that was released to the caller was written, and the operator did not end the session.
    pub cut: Option<Cut>,
}

/// A block that a session's thread has left to the thread that flushes, and when it came.
#[derive(Drop)]
pub struct LeftBlock {
    pub block: Message,
    pub moment: Moment,
}

/// The octets taken from the kernel for a session, and how many of them are written.
#[derive(Drop)]
pub struct Outgoing {
    pub sid: u64,
    /// By its address.
    pub guest: Guest,
    /// Its place among the sessions that hold a large reply, if it has one.
    pub place: Option<Held>,
    /// It asked for a place that it doesn't have yet.
    pub asks: bool,
    /// `None` if there is no caller.
    stream: Option<Arc<TcpStream, Global>>,
    pub ready: ReadyBuf,
    written: usize,
    /// A block that waits for the thread that flushes. As long as there is one, nothing is ready, and the kernel holds no
    /// output of the session.
    left: Option<LeftBlock>,
    /// What became of the last block that was left, until the session's thread asks.
    filed: Option<Result<ExecOutcome, ExecError>>,
    /// What was written to this caller so far.
    sent: Delivery,
    /// How fast it takes that.
    taking: Taking,
}

impl Outgoing {
    /// Nothing, of no session. Refused only for want of memory.
    pub fn new(alloc: Global) -> Result<Outgoing, AllocError> {
        Ok(Outgoing {
            sid: 0,
            guest: Guest::Unnamed,
            place: None,
            asks: false,
            stream: None,
            ready: ReadyBuf::new(alloc)?,
            written: 0,
            left: None,
            filed: None,
            sent: Delivery {
                octets: 0,
                cut: None,
            },
            taking: Taking::new(),
        })
    }

    /// Begins a session of this number with a caller at this address. `stream` is its socket.
    pub fn begin(&mut self, sid: u64, caller: IpAddr, stream: Arc<TcpStream, Global>) {
        self.sid = sid;
        self.guest = Guest::At(caller);
        self.asks = false;
        self.taking = Taking::new();
        self.stream = Some(stream);
        self.sent = Delivery {
            octets: 0,
            cut: None,
        };
    }

    /// Ends the session, discards what was taken, and answers what was written to the caller.
    pub fn end(&mut self) -> Delivery {
        self.stream = None;
        self.left = None;
        self.filed = None;
        self.clear();
        self.sent
    }

    /// Whether nothing more is written to the caller.
    pub fn is_cut(&self) -> bool {
        self.sent.cut.is_some()
    }

    /// The octets that were written to this caller so far.
    pub fn octets_out(&self) -> u64 {
        self.sent.octets
    }

    /// Leaves a block. It is given back if something is ready.
    pub fn leave(&mut self, block: LeftBlock) -> Result<(), LeftBlock> {
        if !self.ready.is_empty() {
            return Err(block);
        }
        self.left = Some(block);
        Ok(())
    }

    /// Takes a block that was left.
    pub fn take_left(&mut self) -> Option<LeftBlock> {
        self.left.take()
    }

    /// Notes what became of a block that was left. If the session is closed, or a refusal ends it, nothing more is read from
    /// the caller: so the session's thread, which may wait for octets, meets that end.
    pub fn note_filed(&mut self, answer: Result<ExecOutcome, ExecError>) {
        self.filed = Some(answer);
        let goes_on = match answer {
            Ok(answered) => answered.next.is_some(),
            Err(_) => false,
        };
        if !goes_on {
            self.shut_down(Shutdown::Read);
        }
    }

    /// What became of the last block that was left. It is answered once.
    pub fn take_filed(&mut self) -> Option<Result<ExecOutcome, ExecError>> {
        self.filed.take()
    }

    /// Whether what was taken must be written before more is taken.
    pub fn is_full(&self) -> bool {
        self.ready.len() >= RELEASE_ENTRIES || self.ready.octets().len() >= RELEASE_OCTETS
    }

    /// Discards what was taken.
    pub fn clear(&mut self) {
        self.ready.clear();
        self.written = 0;
    }

    /// Writes what was taken and discards it, unless the socket takes no more and the patience runs out. The patience of a thread
    /// that waits lasts until the socket has taken nothing for `stall`. If it runs out so, or the socket fails, the session ends.
    /// After the last reply of a session nothing more is written to its socket.
    pub fn write<R: Wait + Clock, K: Kern, H: Hooks>(
        &mut self,
        rt: &R,
        kern: &K,
        hooks: &H,
        stall: Duration,
        patience: Patience,
    ) {
        if self.ready.is_empty() {
            return;
        }
        hooks.before_release(self.sid);
        let before = self.written;
        let written = self.write_rest(rt, stall, patience);
        let count = self.written.saturating_sub(before) as u64;
        self.sent.octets = self.sent.octets.saturating_add(count);
        hooks.after_release(self.sid);
        match written {
            Written::Part => return,
            Written::All if !self.ends() => {}
            Written::All => self.shut_down(Shutdown::Write),
            Written::Stalled => self.cut_off(rt, kern, Cut::Stalled),
            Written::Slow => self.cut_off(rt, kern, Cut::Slow),
            Written::Failed => self.cut_off(rt, kern, Cut::Failed),
        }
        self.clear();
    }

    /// Ends the session and the socket, since nothing more can be written.
    fn cut_off<R: Wait, K: Kern>(&mut self, rt: &R, kern: &K, cut: Cut) {
        self.sent.cut = Some(cut);
        self.shut_down(Shutdown::Both);
        kern.leave(rt, self.sid);
    }

    /// Whether the session ends with what was taken.
    fn ends(&self) -> bool {
        let count = self.ready.len();
        if count == 0 {
            return false;
        }
        let (_, _, ends) = self.ready.entry(count - 1);
        ends
    }

    fn shut_down(&self, how: Shutdown) {
        if let Some(stream) = &self.stream {
            let _ = stream.shutdown(how);
        }
    }

    /// Writes what is not written yet, as long as the patience lasts.
    fn write_rest<R: Wait + Clock>(
        &mut self,
        rt: &R,
        stall: Duration,
        patience: Patience,
    ) -> Written {
        let Outgoing {
            stream,
            ready,
            written,
            taking,
            place,
            asks,
            ..
        } = self;
        // one that asks may be given a place at any time
        taking.set(stall, *asks || place.is_some());
        match (stream, patience) {
            (Some(stream), Patience::Long) => deliver(rt, stream, ready.octets(), written, taking),
            (Some(stream), Patience::None) => {
                deliver_at_once(rt, stream, ready.octets(), written)
            }
            (None, _) => Written::Failed,
        }
    }
}
