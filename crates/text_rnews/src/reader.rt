//! A batch that arrives in pieces.

ghost use Rattle.std.specs.Prelude.{◌≡◌, ◌-◌, ◌<◌, ◌≤◌, [], drop, vec_len, length, min, ◌↔◌};
ghost use Rattle.std.specs.Prelude.{Some, None, Ok, Err, IfOk, IfErr, IfSome, IfNone, OnSome, OnOk, OnErr, IsOk};
ghost use Rattle.text_rnews.specs.Batch.{Unread, fed, next, whole};
ghost use Rattle.text_rnews.specs.Held.{Held, counted, handed_out};
ghost use Rattle.text_rnews.specs.Refusals.{IsDue};
ghost use Rattle.text_rnews.specs.declared.rnews_batches.BatchCause.TheVariants.{CutShort};
ghost use Rattle.text_rnews.specs.declared.reader.BatchError.TheVariants.{Memory};

use crate::rnews_batches::{BatchCause, Front, find_text};
use std::alloc::{AllocError, Global};
use std::marker::Model;
use thiserror::Error;

/// Why the octets are not a batch, and how many octets come before the header line at which they stop being one; where they end within a
/// text that is too long, how many there are.
#[derive(Clone, Copy, Debug, PartialEq, Eq, Error)]
#[error("octet {place}: {cause}")]
pub struct BatchRefusal {
    pub cause: BatchCause,
    pub place: u64,
}

/// Why nothing is handed out.
#[derive(Clone, Copy, Debug, PartialEq, Eq, Error)]
pub enum BatchError {
    /// An allocation was refused.
    #[error("E2 Memory")]
    Memory,
    /// No batch continues with these octets.
    #[error("{0}")]
    Refused(BatchRefusal),
}

impl From<AllocError> for BatchError {
    ghost from_gives = { λ _ error. error ≡ Memory };

    fn from(_error: AllocError) -> BatchError {
        BatchError::Memory
    }
}

/// What a batch has next.
#[derive(Debug, Drop)]
pub enum Member {
    /// The text of an article.
    Text(Vec<u8>),
    /// A text of so many octets, more than an article may have. Nothing of it is kept.
    TooLong(u64),
}

/// A batch that arrives in pieces.
#[derive(Drop)]
pub struct BatchReader {
    octets: Vec<u8>,
    alloc: Global,
    /// The number of octets in `octets` that were handed out or passed over.
    start: usize,
    /// The octets of a text that is too long which have not arrived, and are passed over as they do. Until then `octets` has none that
    /// was not passed over.
    over: u64,
    /// The number of octets of the batch before those that were not handed out or passed over, up to 2^64 - 1.
    place: u64,
}

impl Model for BatchReader {
    ghost use Rattle.std.specs.Prelude.{◌≡◌, ◌<◌, ◌≤◌, drop, vec_len};
    ghost use Rattle.text_rnews.specs.Held.{Held};

    ghost Value = { Held };

    ghost view = { λ r. record { unread = record { over = r.over; rest = drop r.start r.octets.items }; place = r.place } };

    ghost invariant = { λ r. (r.start ≤ vec_len r.octets) × (0 < r.over → r.start ≡ vec_len r.octets) };
}

impl BatchReader {
    /// A reader of an empty batch.
    pub fn new(alloc: Global) -> BatchReader
        ensures unread { result.unread ≡ whole [] }
        ensures place { result.place ≡ 0 }
    {
        BatchReader {
            octets: Vec::new(alloc),
            alloc,
            start: 0,
            over: 0,
            place: 0,
        }
    }

    /// Takes the next piece of the batch, but for what is passed over. Refused only for want of memory; then nothing is taken.
    pub fn feed(&mut self, piece: &[u8]) -> Result<(), AllocError>
        ensures ok { OnOk result (self.new.unread ≡ fed self.old.unread piece.now) }
        ensures place { OnOk result (self.new.place ≡ counted self.old.place (min self.old.unread.over (length piece.now))) }
        ensures err { OnErr result (self.new ≡ self.old) }
    {
        let passed = self.over.min(piece.len() as u64);
        forget_front(&mut self.octets, self.start);
        self.start = 0;
        self.octets.extend_from_slice(&piece[passed as usize..])?;
        self.over -= passed;
        self.place = self.place.saturating_add(passed);
        Ok(())
    }

    /// The next member, or `None` if more octets are needed. A text is handed out once all of it has arrived, and one that is too
    /// long once its header line has: its octets are passed over as they arrive. With `None`, the reader holds at most the octets of
    /// a header line and of the longest text. A refusal changes nothing.
    pub fn next(&mut self) -> Result<Option<Member>, BatchError>
        ensures member { IfOk result (λ found. IfSome found (λ member.
            next self.old.unread ≡ Ok (Some (handed_out member, self.new.unread)))) }
        ensures place { IfOk result (λ found. OnSome found
            (self.new.place ≡ counted self.old.place (length self.old.unread.rest - length self.new.unread.rest))) }
        ensures wanted { IfOk result (λ found. IfNone found (next self.old.unread ≡ Ok None)) }
        ensures bound { IfOk result (λ found. IfNone found (length self.old.unread.rest ≤ 262_170)) }
        ensures same { IfOk result (λ found. IfNone found (self.new ≡ self.old)) }
        ensures refused { IfErr result (λ error. IsDue self.old error) }
        ensures err { OnErr result (self.new ≡ self.old) }
    {
        if self.over > 0 {
            return Ok(None);
        }
        let rest = &self.octets[self.start..];
        match find_text(rest) {
            Ok(None) => Ok(None),
            Ok(Some(Front::Text(start, end))) => {
                let text = Vec::from_slice(self.alloc, &rest[start..end])?;
                self.advance(end, 0);
                Ok(Some(Member::Text(text)))
            }
            Ok(Some(Front::TooLong(start, size))) => {
                let passed = size.min((rest.len() - start) as u64);
                self.advance(start + passed as usize, size - passed);
                Ok(Some(Member::TooLong(size)))
            }
            Err(cause) => Err(BatchError::Refused(self.refusal(cause))),
        }
    }

    /// Leaves the first n octets behind, after which so many that have not arrived are passed over.
    fn advance(&mut self, n: usize, over: u64)
        requires within { n ≤ length self.old.unread.rest }
        requires none_left { 0 < over → n ≡ length self.old.unread.rest }
        ensures unread { self.new.unread ≡ record { over = over; rest = drop n self.old.unread.rest } }
        ensures place { self.new.place ≡ counted self.old.place n }
    {
        self.start += n;
        self.over = over;
        self.place = self.place.saturating_add(n as u64);
    }

    /// Ends the batch here. It is refused as cut short if octets are left, or some were to be passed over.
    pub fn end(&self) -> Result<(), BatchRefusal>
        ensures ok { IsOk result ↔ (self.now.unread ≡ whole []) }
        ensures err { IfErr result (λ refusal. (refusal.cause ≡ CutShort) × (refusal.place ≡ self.now.place)) }
    {
        if self.start < self.octets.len() || self.over > 0 {
            return Err(self.refusal(BatchCause::CutShort));
        }
        Ok(())
    }

    /// A refusal at the octets that come next.
    fn refusal(&self, cause: BatchCause) -> BatchRefusal
        ensures { result ≡ record { cause = cause; place = self.now.place } }
    {
        BatchRefusal {
            cause,
            place: self.place,
        }
    }
}

/// Removes the first n octets.
fn forget_front(octets: &mut Vec<u8>, n: usize)
    requires { n ≤ vec_len octets.old }
    ensures { octets.new.items ≡ drop n octets.old.items }
{
    if n == 0 {
        return;
    }
    let left = octets.len() - n;
    octets.copy_within(n.., 0);
    octets.truncate(left);
}
