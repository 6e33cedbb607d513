//! What callers do, and what the log reports of them.

use kernel_shared::SESSIONS;
use std::alloc::Global;
use std::net::{Net, SocketAddr, TcpListener, TcpStream};
use std::sync::Wait;
use std::thread;
use std::time::{Clock, Duration};
use test_support_server::{Caller, GREETING, Lines, POST, SERVICE_ENDS};

/// What a play is about.
#[derive(Clone, Copy, Debug, PartialEq, Eq)]
pub(crate) enum Scene {
    /// Callers that end in different ways, on both listeners.
    Ends,
    /// A caller that sends no command for longer than it may.
    Nothing,
    /// A caller that is silent after a command for longer than it may be.
    Silence,
    /// A caller whose second line comes more slowly than it may.
    Slow,
    /// A caller that takes nothing for longer than it may.
    Stall,
    /// More callers than are served.
    Crowd,
    /// The device fails.
    Fault,
}

/// How a caller leaves.
#[derive(Clone, Copy, PartialEq, Eq)]
enum Leaves {
    /// The server ends its session.
    Quits,
    /// It sends nothing more, and reads to the end.
    Ends,
    /// It drops its socket with octets that it has not read.
    Breaks,
}

/// What a caller sends, what it reads after the greeting, how it leaves, and what the log then reports of its session.
#[derive(Clone, Copy)]
struct Row {
    sends: &'static str,
    reads: &'static [&'static str],
    leaves: Leaves,
    tells: &'static str,
}

/// The calls, one after another. They come to the two listeners in turn.
const ROWS: &[Row] = &[
    Row {
        sends: "QUIT\r\n",
        reads: &["205 Bye"],
        leaves: Leaves::Quits,
        tells: " session=1 messages=1 taken=0 refused=0 in=6 out=52 why=quit",
    },
    Row {
        sends: POST,
        reads: &["340 Send article", "240 Article received"],
        leaves: Leaves::Ends,
        tells: " session=2 messages=2 taken=1 refused=0 in=155 out=83 why=closed",
    },
    Row {
        sends: POST,
        reads: &["340 Send article", "441 Article not accepted"],
        leaves: Leaves::Ends,
        tells: " session=3 messages=2 taken=0 refused=1 in=155 out=87 why=closed",
    },
    Row {
        sends: "STAT <9@a.example>\r\nST",
        reads: &["430 No such article"],
        leaves: Leaves::Ends,
        tells: " session=4 messages=1 taken=0 refused=0 in=22 out=64 why=closed",
    },
    Row {
        sends: "",
        reads: &[],
        leaves: Leaves::Breaks,
        tells: " session=5 messages=0 taken=0 refused=0 in=0 out=43 why=failed",
    },
    // the kernel finds no memory for it
    Row {
        sends: "DATE\r\n",
        reads: &[],
        leaves: Leaves::Quits,
        tells: " session=6 messages=0 taken=0 refused=0 in=6 out=43 why=memory",
    },
];

/// What a caller asks for that takes nothing, and how often it sends that.
const ASKED: &str = "HELP\r\nHELP\r\nHELP\r\nHELP\r\nHELP\r\nHELP\r\nHELP\r\nHELP\r\n";

const ASKS: u32 = 8_000;

/// How many octets a caller sends that is slow, and the milliseconds between them.
const DRIPS: u32 = 1_000;

const DRIP_MILLIS: u64 = 20;

/// The callers of a play.
pub(crate) struct Visit<'a, R> {
    pub(crate) rt: &'a R,
    pub(crate) alloc: Global,
    /// The addresses of the two listeners.
    pub(crate) addresses: [SocketAddr; 2],
    pub(crate) answers: &'a Lines,
    pub(crate) logged: &'a Lines,
}

impl<'a, R> Drop for Visit<'a, R> {
    fn drop(self) {
        let Visit {
            rt: _,
            alloc: _,
            addresses: _,
            answers: _,
            logged: _,
        } = self;
    }
}

impl<'a, R: Net<Listener = TcpListener, Stream = TcpStream> + Wait + Clock> Visit<'a, R> {
    /// Whether the callers of a scene read, and the log reports, what they have to.
    pub(crate) fn is_as_it_must(&self, scene: Scene) -> bool {
        match scene {
            Scene::Ends => self.answers.have(self.rt, "1") && self.all_end(),
            Scene::Nothing => match self.come(0) {
                Some(_caller) => {
                    self.tells(" messages=0 taken=0 refused=0 in=0 out=43 why=silent")
                }
                None => false,
            },
            Scene::Silence => match self.ask_once() {
                Some(_caller) => {
                    self.tells(" messages=1 taken=0 refused=0 in=20 out=64 why=silent")
                }
                None => false,
            },
            Scene::Slow => match self.ask_once() {
                Some(caller) => self.drip(&caller) && self.tells(" why=silent"),
                None => false,
            },
            Scene::Stall => match self.come(0) {
                Some(caller) => asks_much(&caller) && self.tells(" why=stalled"),
                None => false,
            },
            // the volume is full, a caller is refused, and each session begins and ends
            Scene::Crowd => self.crowd() && self.logged.are(self.rt, 2 * SESSIONS + 2),
            Scene::Fault => self.tells(" event=fault error=other")
                && self.is_told()
                && self.tells(" why=halted times=1"),
        }
    }

    fn tells(&self, end: &str) -> bool {
        self.logged.have(self.rt, end)
    }

    /// A caller of one of the listeners that was greeted.
    fn come(&self, place: usize) -> Option<Caller> {
        let mut caller = Caller::connect(self.rt, self.alloc, self.addresses[place % 2])?;
        if caller.reads(GREETING) {
            Some(caller)
        } else {
            None
        }
    }

    /// A caller whose first command was answered.
    fn ask_once(&self) -> Option<Caller> {
        let mut caller = self.come(0)?;
        if caller.sends("STAT <9@a.example>\r\n") && caller.reads("430 No such article") {
            Some(caller)
        } else {
            None
        }
    }

    /// Sends octets that end no line, one after another, until the socket takes no more. Answers false if it takes all.
    fn drip(&self, caller: &Caller) -> bool {
        for _ in 0..DRIPS {
            if !caller.sends("D") {
                return true;
            }
            thread::sleep(self.rt, Duration::from_millis(DRIP_MILLIS));
        }
        false
    }

    /// Whether the second listener tells its next caller that the service ends.
    fn is_told(&self) -> bool {
        match Caller::connect(self.rt, self.alloc, self.addresses[1]) {
            Some(mut caller) => caller.reads(SERVICE_ENDS) && caller.reads_end(),
            None => false,
        }
    }

    /// Whether the callers of all rows read, and the log reports, what they have to.
    fn all_end(&self) -> bool {
        for (place, row) in ROWS.iter().enumerate() {
            if !self.ends(place, row) || !self.tells(row.tells) {
                return false;
            }
        }
        true
    }

    fn ends(&self, place: usize, row: &Row) -> bool {
        if row.leaves == Leaves::Breaks {
            return match Caller::connect(self.rt, self.alloc, self.addresses[place % 2]) {
                Some(caller) => caller.takes_one(),
                None => false,
            };
        }
        let Some(mut caller) = self.come(place) else {
            return false;
        };
        let is_read = caller.sends(row.sends) && caller.reads_all(row.reads);
        let is_ended = row.leaves == Leaves::Quits || caller.ends();
        is_read && is_ended && caller.reads_end()
    }

    /// Whether as many callers come as there are sessions, and the next one is told that the service ends.
    fn crowd(&self) -> bool {
        let mut callers = Vec::new(self.alloc);
        for place in 0..SESSIONS {
            let Some(caller) = self.come(place) else {
                return false;
            };
            if callers.push(caller).is_err() {
                return false;
            }
        }
        self.is_told() && self.tells(" why=sessions times=1")
    }
}

/// Asks for more than its socket takes. The server may end the socket meanwhile.
fn asks_much(caller: &Caller) -> bool {
    for _ in 0..ASKS {
        if !caller.sends(ASKED) {
            break;
        }
    }
    true
}
