//! One session over a kernel, its writer, and what the threads of a play do with them.

ghost use Rattle.std.specs.Prelude.{◌≡◌, IfSome};

use crate::callers::Caller;
use disk_memory::MemDisk;
use journal::Journal;
use journal_volume::BatchBuf;
use kernel::{Kernel, Opened, open};
use kernel_locked::Locked;
use kernel_shared::{Asking, Bells, Closing, Hooks, Kern, Receipt, SESSIONS, Ticket};
use model::{Message, Moment, Status, Text};
use server_flusher::commit_batch;
use server_metrics::LongestTime;
use server_releasing::{
    Hand, Limits, ReplyWriter, Shared, TakenBack, Untold, Writers, give_short_writes,
};
use server_roster::Guest;
use session_received::Received;
use std::alloc::{AllocError, Global};
use std::net::{Net, TcpListener, TcpStream};
use std::sync::{Arc, Mutex, Wait};
use std::time::Clock;
use text_names::{Description, GroupName, GroupRequest, is_host};
use volume_new::{FORMAT_3, VolumePlan, are_sizes, device_octets, format};

/// The host of the volumes.
const HOST: &[u8] = b"news.example";

pub const GREETING: &[u8] = b"200 news.example ready, posting permitted\r\n";

pub const REPLIES: [&[u8]; 2] = [b"340 Send article\r\n", b"240 Article received\r\n"];

/// The moment of all messages.
pub fn moment() -> Option<Moment> {
    Moment::at(1_000_000_000)
}

/// One session, whose caller has connected, and its writer.
#[derive(Drop)]
pub struct Stage {
    alloc: Global,
    limits: Limits,
    bells: Bells,
    closing: Closing,
    asking: Asking,
    longest: LongestTime,
    /// There is one.
    writers: Writers,
    pub sid: u64,
    pub near: Arc<TcpStream, Global>,
}

impl Stage {
    pub fn new<R: Net<Listener = TcpListener, Stream = TcpStream> + Wait + Clock>(
        rt: &R,
        alloc: Global,
        kernel: &Locked,
        limits: Limits,
    ) -> Option<(Stage, Caller)> {
        let sid = kernel.join(rt, alloc).ok()?;
        let (near, caller) = Caller::connect(rt, alloc)?;
        let near = shared_socket(alloc, near)?;
        let writers = begun(rt, alloc, sid, &near)?;
        let stage = Stage {
            alloc,
            limits,
            bells: Bells::new(),
            closing: Closing::new(),
            asking: Asking::new(),
            longest: LongestTime::new(),
            writers,
            sid,
            near,
        };
        Some((stage, caller))
    }

    /// The session's writer.
    pub fn writer(&self) -> Option<&ReplyWriter> {
        self.writers.get(0)
    }

    pub fn shared<'a, R, K, H>(
        &'a self,
        rt: &'a R,
        kern: &'a K,
        hooks: &'a H,
    ) -> Shared<'a, R, K, H> {
        Shared {
            rt,
            alloc: self.alloc,
            kern,
            hooks,
            bells: &self.bells,
            writers: &self.writers,
            closing: &self.closing,
            asking: &self.asking,
            limits: self.limits,
            longest: &self.longest,
        }
    }
}

/// The server's end of a connection, whose writes are short.
fn shared_socket(alloc: Global, near: TcpStream) -> Option<Arc<TcpStream, Global>> {
    give_short_writes(&near).ok()?;
    Arc::new(alloc, near).ok()
}

/// The writer of a session, which has begun.
fn begun<R: Wait + Clock>(
    rt: &R,
    alloc: Global,
    sid: u64,
    near: &Arc<TcpStream, Global>,
) -> Option<Writers> {
    let guest = guest(sid, near)?;
    let writing = Arc::try_clone(near).ok()?;
    let writers = Writers::new(alloc, 1).ok()?;
    writers
        .make(rt, alloc)?
        .begin(rt, &mut Hand::new(), guest, writing);
    Some(writers)
}

/// The caller of a session.
fn guest(sid: u64, near: &Arc<TcpStream, Global>) -> Option<Guest> {
    Some(Guest {
        session: sid,
        peer: near.peer_addr().ok()?,
        since: moment()?,
        socket: Arc::try_clone(near).ok()?,
    })
}

/// The most device calls of a batch that is carried home.
const MOST_CALLS: u64 = 4_629;

/// A kernel under its lock, and the journal of its batches.
#[derive(Drop)]
pub struct Store {
    pub kernel: Locked,
    pub journal: Mutex<Journal<MemDisk>>,
    /// Room for a batch.
    pub batch: Mutex<BatchBuf>,
}

/// A kernel and a journal over a new volume with the group `x.a`.
pub fn make_store<R: Wait>(rt: &R, alloc: Global) -> Option<Store> {
    let (kernel, mut journal) = new_kernel(alloc, 1024, 256)?;
    let kernel = Locked::new(kernel);
    add_group(rt, alloc, &kernel, &mut journal)?;
    Some(Store {
        kernel,
        journal: Mutex::new(journal),
        batch: Mutex::new(BatchBuf::new(alloc).ok()?),
    })
}

/// The kernel and the journal of a new volume. The sizes are not constants here, because a proof would count with them.
fn new_kernel(alloc: Global, blocks: u64, inodes: u64) -> Option<(Kernel, Journal<MemDisk>)> {
    if !is_host(HOST) || !are_sizes(blocks, inodes) {
        return None;
    }
    let plan = VolumePlan {
        host: HOST,
        blocks,
        inodes,
        format: FORMAT_3,
    };
    let disk = MemDisk::new(alloc, device_octets(plan.blocks)).ok()?;
    let Ok(disk) = format(alloc, disk, &plan) else {
        return None;
    };
    match open(alloc, disk, SESSIONS) {
        Ok(Opened { journal, kernel }) => Some((kernel, journal)),
        Err(_) => None,
    }
}

/// A group that takes posts.
fn group(alloc: Global) -> Option<GroupRequest> {
    Some(GroupRequest {
        name: GroupName::read(b"x.a").ok()?,
        status: Status::Open,
        description: Description::read(alloc, b"test").ok()?,
        moment: moment()?,
    })
}

/// Makes that group, whose change is durable.
fn add_group<R: Wait>(
    rt: &R,
    alloc: Global,
    kern: &Locked,
    journal: &mut Journal<MemDisk>,
) -> Option<()> {
    kern.admin(rt, alloc, &group(alloc)?).ok()?;
    let mut batch = BatchBuf::new(alloc).ok()?;
    let ticket = kern.take_batch(rt, &mut batch)?;
    let receipt = written(rt, journal, &batch, ticket)?;
    kern.committed(rt, ticket, receipt).ok()
}

/// Writes a batch to the device, once the batch before it is carried home.
fn written<R: Wait>(
    rt: &R,
    journal: &mut Journal<MemDisk>,
    batch: &BatchBuf,
    ticket: Ticket,
) -> Option<Receipt>
    ensures { IfSome result (λ receipt. receipt.last ≡ ticket.last) }
{
    for _ in 0..MOST_CALLS {
        if journal.is_idle() {
            break;
        }
        journal.step().ok()?;
    }
    if !journal.is_idle() {
        return None;
    }
    commit_batch(rt, journal, batch, ticket.last()).ok()
}

/// The server's side of a play.
pub struct Session<'a, R, K, H> {
    pub shared: &'a Shared<'a, R, K, H>,
    pub stage: &'a Stage,
    pub writer: &'a ReplyWriter,
    pub journal: &'a Mutex<Journal<MemDisk>>,
    pub batch: &'a Mutex<BatchBuf>,
}

impl<'a, R, K, H> Drop for Session<'a, R, K, H> {
    fn drop(self) {
        let Session {
            shared: _,
            stage: _,
            writer: _,
            journal: _,
            batch: _,
        } = self;
    }
}

impl<'a, R: Wait + Clock, K: Kern, H: Hooks> Session<'a, R, K, H> {
    pub fn rt(&self) -> &R {
        self.shared.rt
    }

    pub fn writer(&self) -> &ReplyWriter {
        self.writer
    }

    /// Has a command answered.
    pub fn asks(&self, line: &[u8]) -> Option<()> {
        let line = Text::new(line.to_vec(self.shared.alloc).ok()?);
        self.has_answered(&Message::Line(line))
    }

    /// Has an article answered, whose message-id has this number.
    pub fn posts(&self, number: u64) -> Option<()> {
        let text = text(self.shared.alloc, number).ok()?;
        self.has_answered(&Message::Block(Text::new(text)))
    }

    /// Leaves such an article. Answers false if it is given back.
    pub fn leaves(&self, number: u64) -> Option<bool> {
        match self.leaves_untold(number) {
            Some(untold) => {
                untold.tell(self.shared.bells);
                Some(true)
            }
            None => Some(false),
        }
    }

    /// Leaves such an article, and tells nobody yet. `None` if it is given back.
    pub fn leaves_untold(&self, number: u64) -> Option<Untold> {
        let text = text(self.shared.alloc, number).ok()?;
        let block = Message::Block(Text::new(text));
        self.writer()
            .leave(self.rt(), &mut Hand::new(), block, moment()?)
            .ok()
    }

    /// Whether an article that was left is filed now.
    pub fn files(&self) -> bool {
        match self.writer().file_left(self.shared) {
            Some(filed) => filed.answer.is_ok(),
            None => false,
        }
    }

    /// Takes back an article that was left, and has it answered. Answers false if it was filed before.
    pub fn takes_back(&self) -> Option<bool> {
        match self.writer().take_back(self.rt(), &mut Hand::new())? {
            TakenBack::Block(block) => {
                self.has_answered(&block)?;
                Some(true)
            }
            TakenBack::Filed(answer) => {
                answer.ok()?;
                Some(false)
            }
        }
    }

    /// Has a text answered that is no article.
    pub fn posts_refused(&self) -> Option<()> {
        let text = b"hi\r\n".to_vec(self.shared.alloc).ok()?;
        self.has_answered(&Message::Block(Text::new(text)))
    }

    fn has_answered(&self, message: &Message) -> Option<()> {
        let moment = moment()?;
        let received = Received::of(self.shared.alloc, message);
        self.writer()
            .answer(self.shared, &mut Hand::new(), received, moment)
            .ok()?;
        Some(())
    }

    /// Takes the changed blocks as a batch.
    pub fn takes(&self, batch: &mut BatchBuf) -> Option<Ticket> {
        self.shared.kern.take_batch(self.rt(), batch)
    }

    /// Writes the batch to the device, and reports it as committed.
    pub fn commits(&self, ticket: Ticket, batch: &BatchBuf) -> Option<()> {
        let receipt = written(self.rt(), &mut self.journal.lock(self.rt()), batch, ticket)?;
        self.shared.kern.committed(self.rt(), ticket, receipt).ok()
    }
}

/// An article as it is posted.
fn text(alloc: Global, number: u64) -> Result<Vec<u8>, AllocError> {
    let text = format!(in alloc;
        "Path: p!not-for-mail\r\nDate: Sun, 09 Sep 2001 01:46:40 +0000\r\nMessage-ID: <{number}@a.example>\r\n\
        From: a@example.org\r\nNewsgroups: x.a\r\nSubject: one\r\n\r\nhi\r\n"
    )?;
    text.as_bytes().to_vec(alloc)
}
