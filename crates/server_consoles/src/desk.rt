//! The operator's threads: one reads the lines, one makes the changes and waits until they are durable, and one writes
//! the answers.
//!
//! The first and the last may wait for the operator forever, so neither is joined. The second waits for neither of
//! them: at most `LINES` lines are under way, the channel of the lines has room for all of them, and that of the answers has no
//! limit. A line about ages has an answer for each group; any other line has one.
//! Other consoles hand their lines to the second thread, too (`consoles.rt`).

ghost use Rattle.std.specs.Prelude.{◌≡◌};

use crate::consoles::Console;
use crossbeam_channel::{Receiver, Sender, bounded, unbounded};
use kernel_shared::{Hand, Kern};
use server_copying::CopyJob;
use server_mark::Seat;
use server_operator::{OperatorService, Refused, Reply, answer, hand_on, write_answer};
use server_operator_lines::{LINE_OCTETS, Next, next_line};
use std::alloc::{AllocError, Global};
use std::io::{BufRead, Write};
use std::sync::Wait;
use std::thread::{self, Threads};
use std::time::{Clock, Duration};

/// The most lines that are under way: handed on, with their answers not yet written. One more may be read; the others
/// stay in the stream.
const LINES: usize = 64;

/// The most consoles at a time besides the streams with which the server was started. Each has one line under way at most.
pub const CONSOLES: usize = 8;

/// At the end the operator has this many seconds to read the answers that are due.
const ENDING_SECS: u64 = 1;

/// A line without its LF, or why it was not kept.
pub type Kept = Result<Vec<u8>, Refused>;

/// What the thread that makes the changes waits for.
#[derive(Drop)]
pub(crate) enum Order {
    /// A line of the streams with which the server was started.
    Asked(Kept),
    /// A line of another console, and where its answer goes.
    AskedThere(Kept, Sender<Reply>),
    /// A copy of the volume's blocks, which another console writes.
    Copy(CopyJob),
    /// A portion of it is on the way back to be filled.
    Emptied,
    /// There is something to do for the thread that watches files.
    Watch,
    /// Another console has something to write, and asks for what makes the server wait with its end.
    Writes(Sender<Reply>),
    /// The server ends.
    Ends,
}

/// The operator's side of a running server.
#[derive(Drop)]
pub struct Operator {
    order: Sender<Order>,
    orders: Receiver<Order>,
    replies: Sender<Reply>,
    /// It is disconnected once the last answer is written.
    written: Receiver<()>,
}

/// The thread that reads the lines.
#[derive(Drop)]
struct Reading {
    alloc: Global,
    /// The buffer for the next line.
    line: Vec<u8>,
    orders: Sender<Order>,
    /// One message for each line that is under way.
    under_way: Sender<()>,
}

/// The thread that writes the answers.
#[derive(Drop)]
struct Writing {
    replies: Receiver<Reply>,
    under_way: Receiver<()>,
    /// It sends no message. It is dropped with the thread.
    _written: Sender<()>,
}

impl Operator {
    /// Starts the threads that read the lines and write the answers. After an `Err` they end at the next line or
    /// answer.
    pub fn start<
        R: Threads + Wait + Copy + Send + 'static,
        L: BufRead + Send + Drop + 'static,
        A: Write + Send + Drop + 'static,
    >(rt: &R, alloc: Global, lines: L, answers: A) -> Result<Operator, AllocError> {
        let (order, orders) = bounded(alloc, LINES + CONSOLES + 1)?;
        let (replies, to_write) = unbounded(alloc)?;
        let (begun, under_way) = bounded(alloc, LINES)?;
        let written = Writing::start(rt, alloc, answers, to_write, under_way)?;
        Reading::start(rt, alloc, lines, order.clone()?, begun)?;
        Ok(Operator {
            order,
            orders,
            replies,
            written,
        })
    }

    /// A way in for the lines of other consoles. Refused only for want of memory.
    pub fn console(&self) -> Result<Console, AllocError> {
        Ok(Console::new(self.order.clone()?))
    }

    /// Does what the lines ask for and answers each line, until `end` is called. Lines that were handed on
    /// before that are still answered. The operator has a second to read the answers, and so have those at other consoles. Then it
    /// returns, whether they are read or not.
    pub fn answer_all<R: Wait + Clock, K: Kern>(
        &self,
        service: &OperatorService<'_, R, K>,
        seat: Seat,
    )
        requires { seat.mark ≡ service.now.mark.now }
    {
        let mut seat = seat;
        let mut hand = Hand::new();
        let unwritten = Unwritten::new(service.alloc);
        'orders: for _ in service.rt.forever() {
            match self.orders.recv(service.rt) {
                Ok(Order::Asked(line)) => {
                    let answer = answer(service, &mut seat, &mut hand, line, &self.replies);
                    hand_on(service.rt, &self.replies, Reply::Answer(answer));
                }
                Ok(Order::AskedThere(line, replies)) => {
                    let answer = answer(service, &mut seat, &mut hand, line, &replies);
                    hand_on(
                        service.rt,
                        &replies,
                        Reply::AnswerThere(answer, unwritten.one()),
                    );
                }
                Ok(Order::Copy(job)) => service.copy(job),
                Ok(Order::Emptied) => service.bells.flusher.unpark(),
                Ok(Order::Watch) => service.bells.watcher.unpark(),
                Ok(Order::Writes(replies)) => {
                    hand_on(service.rt, &replies, Reply::Unwritten(unwritten.one()));
                }
                Ok(Order::Ends) | Err(_) => break,
            }
        }
        hand_on(service.rt, &self.replies, Reply::Ends);
        unwritten.wait(service.rt);
        let _ = self
            .written
            .recv_timeout(service.rt, Duration::from_secs(ENDING_SECS));
    }

    /// Makes `answer_all` end. It is called once, after the flusher has stopped and its bells were rung.
    pub fn end<R: Wait>(&self, rt: &R) {
        let _ = self.order.send(rt, Order::Ends);
    }
}

/// Those answers of other consoles that are not written yet.
#[derive(Drop)]
struct Unwritten {
    /// Each of them has one more of these.
    each: Option<Sender<()>>,
    /// It is disconnected once all are written.
    written: Option<Receiver<()>>,
}

impl Unwritten {
    /// None. Where memory is refused, nobody waits for any.
    fn new(alloc: Global) -> Unwritten {
        match bounded(alloc, 1) {
            Ok((each, written)) => Unwritten {
                each: Some(each),
                written: Some(written),
            },
            Err(_) => Unwritten {
                each: None,
                written: None,
            },
        }
    }

    /// What an answer has until it is written.
    fn one(&self) -> Option<Sender<()>> {
        self.each.as_ref()?.clone().ok()
    }

    /// Waits until all are written, for `ENDING_SECS` at most.
    fn wait<R: Wait + Clock>(self, rt: &R) {
        let Unwritten { each, written } = self;
        drop(each);
        if let Some(written) = written {
            let _ = written.recv_timeout(rt, Duration::from_secs(ENDING_SECS));
        }
    }
}

impl Reading {
    /// Starts the thread.
    fn start<R: Threads + Wait + Copy + Send + 'static, L: BufRead + Send + Drop + 'static>(
        rt: &R,
        alloc: Global,
        lines: L,
        orders: Sender<Order>,
        under_way: Sender<()>,
    ) -> Result<(), AllocError> {
        let reading = Reading {
            alloc,
            line: Vec::with_capacity(alloc, LINE_OCTETS)?,
            orders,
            under_way,
        };
        let own = *rt;
        let _reader = thread::spawn(rt, move || reading.read_all(&own, lines))?;
        Ok(())
    }

    /// Reads lines and hands them on, until they end or the server does.
    fn read_all<R: Wait, L: BufRead + Drop>(self, rt: &R, lines: L) {
        let (mut own, mut lines) = (self, lines);
        for _ in rt.forever() {
            let asked = match next_line(rt, &mut lines, &mut own.line) {
                Ok(Next::Line) => own.kept(),
                Ok(Next::TooLong) => Err(Refused::Bad),
                Ok(Next::End) | Err(_) => return,
            };
            if own.under_way.send(rt, ()).is_err() {
                return;
            }
            if own.orders.send(rt, Order::Asked(asked)).is_err() {
                return;
            }
        }
    }

    /// A copy of the line that was read.
    fn kept(&self) -> Result<Vec<u8>, Refused> {
        Ok(Vec::from_slice(self.alloc, self.line.as_slice())?)
    }
}

impl Writing {
    /// Starts the thread, and answers the channel that is disconnected once the last answer is written.
    fn start<R: Threads + Wait + Copy + Send + 'static, A: Write + Send + Drop + 'static>(
        rt: &R,
        alloc: Global,
        answers: A,
        replies: Receiver<Reply>,
        under_way: Receiver<()>,
    ) -> Result<Receiver<()>, AllocError> {
        let (_written, written) = bounded(alloc, 1)?;
        let writing = Writing {
            replies,
            under_way,
            _written,
        };
        let own = *rt;
        let _writer = thread::spawn(rt, move || writing.write_all(&own, answers))?;
        Ok(written)
    }

    /// Writes the answers until the last one. An answer that cannot be written is lost, since nobody reads it.
    fn write_all<R: Wait, A: Write + Drop>(self, rt: &R, answers: A) {
        let mut answers = answers;
        for _ in rt.forever() {
            match self.replies.recv(rt) {
                Ok(Reply::Part(told)) => {
                    let _ = write_answer(&mut answers, &Ok(told));
                }
                Ok(Reply::Answer(answer)) => {
                    let _ = write_answer(&mut answers, &answer);
                    let _ = self.under_way.recv(rt);
                }
                // another console's, which has a channel of its own
                Ok(Reply::AnswerThere(answer, unwritten)) => {
                    drop(answer);
                    drop(unwritten);
                }
                Ok(Reply::Unwritten(unwritten)) => drop(unwritten),
                Ok(Reply::Ends) | Err(_) => return,
            }
        }
    }
}
