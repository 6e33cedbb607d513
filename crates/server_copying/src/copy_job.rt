//! One copy, from the flusher's side.

ghost use Rattle.std.specs.Prelude.{◌≡◌, []};
ghost use Rattle.server_copying.specs.Jobs.{GetsBatch};

use copy_portions::{Left, Portion};
use crossbeam_channel::{Receiver, Sender, TryRecvError};
use journal_volume::BatchBuf;
use kernel_shared::Kern;
use std::sync::Wait;

/// The most blocks that are copied under the kernel's lock at once.
const AT_ONCE: usize = 64;

/// The most times that the lock is taken for a portion.
const ROUNDS: u32 = 32;

/// What whoever writes the copy gets.
#[derive(Drop)]
pub enum Filled {
    /// Blocks, after which others come.
    More(Portion),
    /// The last ones. With them the copy is what the device was when so many changes were durable.
    Last { portion: Portion, changes: u64 },
}

/// A copy that was asked for: the blocks that it lacks, and the ways of its portions.
#[derive(Drop)]
pub struct CopyJob {
    left: Left,
    filled: Sender<Filled>,
    /// A portion comes back from whoever writes once it is written.
    emptied: Receiver<Portion>,
    /// One that has come back and was not filled yet.
    kept: Option<Portion>,
}

impl CopyJob {
    /// A copy that lacks these blocks. There is a portion on the way back for it already.
    pub fn new(left: Left, filled: Sender<Filled>, emptied: Receiver<Portion>) -> CopyJob {
        CopyJob {
            left,
            filled,
            emptied,
            kept: None,
        }
    }

    /// Fills a portion, if one has come back, and hands it on: first with the batch that has become durable, if one has, and then with
    /// other blocks that are clean. Without a portion the copy lacks what the batch has changed. Answers whether the copy goes on.
    pub(crate) fn go_on<R: Wait, K: Kern>(
        &mut self,
        rt: &R,
        kern: &K,
        batch: Option<&BatchBuf>,
    ) -> bool {
        let mut portion = match self.next_portion(rt) {
            Ok(portion) => portion,
            Err(TryRecvError::Disconnected) => return false,
            Err(_) => {
                self.miss(batch);
                return true;
            }
        };
        portion.clear();
        if let Some(batch) = batch {
            put_batch(&mut self.left, &mut portion, batch);
        }
        fill(rt, kern, &mut self.left, &mut portion);
        if self.left.is_empty() {
            let changes = kern.counts(rt).durable;
            let _ = self.filled.send(rt, Filled::Last { portion, changes });
            return false;
        }
        if portion.is_empty() {
            // all that is left is dirty, so it comes with the next batch
            self.kept = Some(portion);
            return true;
        }
        self.filled.send(rt, Filled::More(portion)).is_ok()
    }

    /// The portion that is kept, or the one that has come back.
    fn next_portion<R: Wait>(&mut self, rt: &R) -> Result<Portion, TryRecvError> {
        match self.kept.take() {
            Some(portion) => Ok(portion),
            None => self.emptied.try_recv(rt),
        }
    }

    /// The copy lacks the blocks of a batch.
    fn miss(&mut self, batch: Option<&BatchBuf>) {
        if let Some(batch) = batch {
            self.left.add(batch.numbers());
        }
    }
}

/// Puts a batch that is durable into an empty portion, which has room for it.
fn put_batch(left: &mut Left, portion: &mut Portion, batch: &BatchBuf)
    requires { portion.old ≡ record { numbers = []; images = [] } }
    ensures { GetsBatch batch.now left.old left.new portion.new }
{
    for (place, number) in batch.numbers().iter().enumerate() {
        portion.push(*number, batch.image(place));
    }
    left.remove(batch.numbers());
}

/// Puts blocks that the copy lacks and that are clean into a portion, until it is full or a pass over the blocks has ended.
fn fill<R: Wait, K: Kern>(rt: &R, kern: &K, left: &mut Left, portion: &mut Portion) {
    let mut numbers = [0; AT_ONCE];
    for _ in 0..ROUNDS {
        let found = left.next(&mut numbers);
        let before = portion.numbers().len();
        kern.copy_clean(rt, &numbers[..found], portion);
        left.remove(portion.numbers().get(before..).unwrap_or_default());
        if found < AT_ONCE || portion.is_full() {
            return;
        }
    }
}
