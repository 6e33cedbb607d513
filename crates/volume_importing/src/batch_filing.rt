//! Files the texts of a batch, in order.

ghost use Rattle.std.specs.Prelude.{◌≡◌, ◌≢◌, ◌∷◌, ◌<◌, [], IfOk, List, None, Ok, OnErr, OnOk, false, length, true, ℕ};
ghost use Rattle.std.specs.Io.KnownBytes.{Consumes, IsAtEnd};
ghost use Rattle.volume_importing.specs.Imported.{AreCounted, BecomesOf, HasImported, HasRead, HasTried};
ghost use Rattle.volume_importing.specs.Imported.{Imports, IsNoted, IsSame, is_refused};
ghost use Rattle.text_rnews.specs.Batch.{Unread, fed, whole};
ghost use Rattle.text_rnews.specs.Held.{handed_out};
ghost use Rattle.spool.specs.View.{SpoolView};
ghost use Rattle.volume_store.specs.Saved.{GoesOn, IsSaved};
ghost use Rattle.volume_store.specs.declared.outcome.TextOutcome.{TextOutcome};

use disk::Disk;
use journal::JournalError;
use model::{Cause, Moment};
use std::alloc::{AllocError, Global};
use std::fmt::{self, Display, Formatter};
use std::io::{self, ErrorKind, Read};
use text_rnews::{BatchError, BatchReader, BatchRefusal, Member};
use thiserror::Error;
use volume_store::{CAUSES, FULL_GROUP, Lack, Store, TextOutcome, TextRefusal, words_at};

/// The most octets that are read at once.
const PIECE: usize = 65_536;

/// The place of a text in its batch.
#[derive(Clone, Copy, Debug, PartialEq, Eq, Error)]
#[error("article {number} at octet {octet}")]
pub struct Place {
    /// Its number, from 1.
    pub number: u64,
    /// The octets of the batch before its header line.
    pub octet: u64,
}

/// The number of texts with each outcome.
#[derive(Clone, Copy, Debug, PartialEq, Eq)]
pub struct ImportCounts {
    pub filed: u64,
    /// An article with the message-id was filed before.
    pub here: u64,
    pub no_group: u64,
    pub refused: u64,
    /// The refused texts, by cause.
    by_cause: [u64; CAUSES],
}

impl ImportCounts {
    /// No text yet.
    const NONE: ImportCounts = ImportCounts {
        filed: 0,
        here: 0,
        no_group: 0,
        refused: 0,
        by_cause: [0; CAUSES],
    };

    /// The number of texts.
    pub fn all(&self) -> u64 {
        self.filed
            .saturating_add(self.here)
            .saturating_add(self.no_group)
            .saturating_add(self.refused)
    }

    /// Counts a text that was not refused.
    fn add(&mut self, outcome: TextOutcome)
        ensures { is_refused outcome ≡ false → AreCounted self.old (outcome ∷ []) self.new }
    {
        match outcome {
            TextOutcome::Filed(_) => self.filed = self.filed.saturating_add(1),
            TextOutcome::Here => self.here = self.here.saturating_add(1),
            TextOutcome::NoGroup => self.no_group = self.no_group.saturating_add(1),
            TextOutcome::Refused(_) | TextOutcome::Full => {}
        }
    }

    /// Counts a text that was refused for the cause at this place.
    fn refuse(&mut self, cause: usize)
        requires { cause < 10 }
        ensures { (outcome : TextOutcome) → is_refused outcome ≡ true → AreCounted self.old (outcome ∷ []) self.new }
    {
        self.refused = self.refused.saturating_add(1);
        self.by_cause[cause] = self.by_cause[cause].saturating_add(1);
    }
}

impl Display for ImportCounts {
    /// Four lines, and one more for each cause for which a text was refused. The last line has no line end.
    fn fmt<W: fmt::Write>(&self, f: &mut Formatter<W>) -> fmt::Result {
        writeln!(f, "filed {}", self.filed)?;
        writeln!(f, "here {}", self.here)?;
        writeln!(f, "no group {}", self.no_group)?;
        write!(f, "refused {}", self.refused)?;
        for (cause, count) in self.by_cause.iter().enumerate() {
            if *count > 0 {
                write!(f, "\n  {count} {}", words_at(cause))?;
            }
        }
        Ok(())
    }
}

/// Why an import stopped before the end of its batch.
#[derive(Debug, Drop, Error)]
pub enum ImportStop {
    /// The volume has no room for the text here, nor for any other.
    #[error("E6 Full: {0}: {1}")]
    Full(Place, Lack),
    /// From here on the octets are not a batch.
    #[error("E14 Bad: {0}")]
    NotABatch(BatchRefusal),
    /// At this octet the batch could not be read, or the watcher could not take a report about it.
    #[error("octet {0}: {1}")]
    Stream(u64, io::Error),
}

/// What an import did. All that it filed is durable.
#[derive(Debug, Drop)]
pub struct Report {
    pub counts: ImportCounts,
    /// `None` if it came to the end of its batch.
    pub stop: Option<ImportStop>,
}

/// Why an import failed. The first texts that it filed may be durable.
#[derive(Debug, Drop, Error)]
pub enum ImportError {
    /// An allocation was refused.
    #[error("E2 Memory")]
    Memory,
    /// The device failed, or had failed before.
    #[error("{0}")]
    Device(JournalError),
}

impl From<AllocError> for ImportError {
    fn from(_error: AllocError) -> ImportError {
        ImportError::Memory
    }
}

impl From<JournalError> for ImportError {
    fn from(error: JournalError) -> ImportError {
        match error {
            JournalError::Memory => ImportError::Memory,
            error => ImportError::Device(error),
        }
    }
}

/// Gives an import the time, and learns what the import does.
pub trait Watcher {
    /// The moment of what is filed now.
    fn moment(&mut self) -> Moment;

    /// The text at this place was refused, for this cause in words.
    fn refused(&mut self, place: Place, cause: &'static str) -> io::Result<()>;

    /// This many octets of the batch were read, and the texts in them were filed.
    fn progress(&mut self, octets: u64, counts: &ImportCounts) -> io::Result<()>;
}

/// A batch on its way into a store.
#[derive(Drop)]
struct Batch {
    reader: BatchReader,
    counts: ImportCounts,
}

impl Batch {
    /// The place of the next text, if octets are left: the reader names it in its refusal to end there.
    fn place(&self) -> Place {
        let octet = match self.reader.end() {
            Ok(()) => 0,
            Err(refusal) => refusal.place,
        };
        Place {
            number: self.counts.all().saturating_add(1),
            octet,
        }
    }

    /// Why the import stops at the end of its input, if the reader still has octets.
    fn end(&self) -> Option<ImportStop>
        ensures { result ≡ None → self.now.reader.unread ≡ whole [] }
    {
        match self.reader.end() {
            Ok(()) => None,
            Err(refusal) => Some(ImportStop::NotABatch(refusal)),
        }
    }
}

/// Files the texts of a batch, in order, each at the moment at which its last octet was read. It ends with a report at
/// the end of the batch, and also if the octets stop being a batch, a stream fails, or the volume has no room for a
/// text; what it filed is durable then. If only one of a text's groups is full, the text is refused; so is one that is too long for an
/// article, as soon as its header line is read, and its octets are passed over as they come.
///
/// `Memory` (E2) if an allocation was refused, and `Device` if the device failed or had failed before; then the changes
/// are those of the first texts, after the ones that were there. A crash at any moment, also within a call of the device,
/// leaves the first of the changes, at least those that were durable when the import began.
pub fn import<D: Disk, I: Read, W: Watcher>(
    alloc: Global,
    store: &mut Store<D>,
    input: &mut I,
    watcher: &mut W,
) -> Result<Report, ImportError>
    ensures saved { OnOk result (IsSaved D.device store.new) }
    ensures imported { IfOk result (λ report. HasImported store.old.spool store.new.spool
        (I.remaining input.old) (I.remaining input.new) report.counts report.stop) }
    ensures failed { OnErr result (HasTried store.old.spool store.new.spool (I.remaining input.old) (I.remaining input.new)) }
    ensures goes_on { GoesOn D.device store.old store.new }
{
    let mut batch = Batch {
        reader: BatchReader::new(alloc),
        counts: ImportCounts::NONE,
    };
    let stop = file_all(alloc, store, &mut batch, input, watcher)?;
    store.commit()?;
    Ok(Report {
        counts: batch.counts,
        stop,
    })
}

/// Reads the batch piece by piece, and files its texts. Answers why the import stops before the end, if it does.
fn file_all<D: Disk, I: Read, W: Watcher>(
    alloc: Global,
    store: &mut Store<D>,
    batch: &mut Batch,
    input: &mut I,
    watcher: &mut W,
) -> Result<Option<ImportStop>, ImportError>
    ensures read { (left : Unread) × HasRead store.old.spool store.new.spool (I.remaining input.old)
        (I.remaining input.new) batch.old.reader.unread left batch.old.counts batch.new.counts
        × (result ≡ Ok None → (left ≡ whole []) × IsAtEnd (I.remaining input.new)) }
    ensures goes_on { GoesOn D.device store.old store.new }
{
    let mut piece = vec![in alloc; 0; PIECE]?;
    let mut octets: u64 = 0;
    'pieces: for _ in 0..u64::MAX {
        let read = match read_piece(&mut batch.reader, input, &mut piece) {
            Ok(0) => return Ok(batch.end()),
            Ok(read) => read,
            Err(error) => return stream_stop(octets, error),
        };
        let stop = file_ready(alloc, store, batch, watcher)?;
        if stop.is_some() {
            return Ok(stop);
        }
        octets = octets.saturating_add(read as u64);
        if let Err(error) = watcher.progress(octets, &batch.counts) {
            return stream_stop(octets, error);
        }
    }
    stream_stop(octets, io::Error::from(ErrorKind::FileTooLarge))
}

/// Reads the next octets into this room and feeds them to the reader. Answers how many there were, 0 at the end of the
/// input.
fn read_piece<I: Read>(
    reader: &mut BatchReader,
    input: &mut I,
    room: &mut [u8],
) -> io::Result<usize>
    ensures read { IfOk result (λ n. (piece : List ℕ) × Consumes (I.remaining input.old) (I.remaining input.new) piece
        × (reader.new.unread ≡ fed reader.old.unread piece) × (n ≡ 0 → 0 < length room.old → IsAtEnd (I.remaining input.new))) }
    ensures failed { OnErr result ((piece : List ℕ) × Consumes (I.remaining input.old) (I.remaining input.new) piece
        × (reader.new ≡ reader.old)) }
    ensures room { length room.new ≡ length room.old }
{
    let read = input.read(room)?;
    reader.feed(&room[..read])?;
    Ok(read)
}

/// Why the import stops if a stream failed at this octet. What failed for want of memory counts as any other refusal of
/// memory.
fn stream_stop(octet: u64, error: io::Error) -> Result<Option<ImportStop>, ImportError>
    ensures { IfOk result (λ stop. stop ≢ None) }
{
    match error.kind() {
        ErrorKind::OutOfMemory => Err(ImportError::Memory),
        _ => Ok(Some(ImportStop::Stream(octet, error))),
    }
}

/// Files the texts of which all octets have been read, and refuses those that are too long. Answers why the import stops, if it does.
fn file_ready<D: Disk, W: Watcher>(
    alloc: Global,
    store: &mut Store<D>,
    batch: &mut Batch,
    watcher: &mut W,
) -> Result<Option<ImportStop>, ImportError>
    ensures going { IfOk result (λ stop. stop ≡ None → Imports store.old.spool store.new.spool
        batch.old.reader.unread batch.new.reader.unread batch.old.counts batch.new.counts) }
    ensures tried { (left : Unread) × Imports store.old.spool store.new.spool
        batch.old.reader.unread left batch.old.counts batch.new.counts }
    ensures goes_on { GoesOn D.device store.old store.new }
{
    let moment = watcher.moment();
    'texts: for _ in 0..u64::MAX {
        let place = batch.place();
        let member = match batch.reader.next() {
            Ok(Some(member)) => member,
            Ok(None) => break,
            Err(BatchError::Refused(refusal)) => return Ok(Some(ImportStop::NotABatch(refusal))),
            Err(BatchError::Memory) => return Err(ImportError::Memory),
        };
        let outcome = file_member(alloc, store, &member, moment)?;
        let stop = note(store, &mut batch.counts, watcher, place, outcome)?;
        if stop.is_some() {
            return Ok(stop);
        }
    }
    Ok(None)
}

/// Files a text that was read, unless it is too long.
fn file_member<D: Disk>(
    alloc: Global,
    store: &mut Store<D>,
    member: &Member,
    moment: Moment,
) -> Result<TextOutcome, ImportError>
    ensures ok { IfOk result (λ outcome. (now : SpoolView) × IsSame store.old.spool now
        × BecomesOf now store.new.spool (handed_out member.now) moment outcome) }
    ensures err { OnErr result (IsSame store.old.spool store.new.spool) }
    ensures goes_on { GoesOn D.device store.old store.new }
{
    match member {
        Member::Text(text) => {
            store.make_room()?;
            Ok(store.file(alloc, text, moment)?)
        }
        Member::TooLong(_) => Ok(TextOutcome::Refused(TextRefusal::NotAnArticle(Cause::Long))),
    }
}

/// Counts what became of a text, and tells the watcher if it was refused. Answers why the import stops, if it does.
fn note<D: Disk, W: Watcher>(
    store: &mut Store<D>,
    counts: &mut ImportCounts,
    watcher: &mut W,
    place: Place,
    outcome: TextOutcome,
) -> Result<Option<ImportStop>, ImportError>
    ensures spool { IsSame store.old.spool store.new.spool }
    ensures noted { IsNoted counts.old outcome counts.new }
    ensures going { IfOk result (λ stop. stop ≡ None → AreCounted counts.old (outcome ∷ []) counts.new) }
    ensures goes_on { GoesOn D.device store.old store.new }
{
    let cause = match outcome {
        TextOutcome::Refused(why) => why.place(),
        TextOutcome::Full => match lack(store)? {
            Some(lack) => return Ok(Some(ImportStop::Full(place, lack))),
            None => FULL_GROUP,
        },
        TextOutcome::Filed(_) | TextOutcome::Here | TextOutcome::NoGroup => {
            counts.add(outcome);
            return Ok(None);
        }
    };
    counts.refuse(cause);
    match watcher.refused(place, words_at(cause)) {
        Ok(()) => Ok(None),
        Err(error) => stream_stop(place.octet, error),
    }
}

/// What the volume has too little of for any text, once all that was filed is durable.
fn lack<D: Disk>(store: &mut Store<D>) -> Result<Option<Lack>, JournalError>
    ensures spool { IsSame store.old.spool store.new.spool }
    ensures goes_on { GoesOn D.device store.old store.new }
{
    match store.commit() {
        Ok(()) => Ok(store.lack()),
        Err(error) => Err(error),
    }
}
