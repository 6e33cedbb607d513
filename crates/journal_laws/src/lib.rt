//! What an image stands for while its segments are filled, opened, carried home and closed: a law for each kind of write.
//! There may be any number of segments, in any places, with batches of any numbers. The functions do nothing.
#![tactic(auto)]

ghost use Rattle.std.specs.Prelude.{◌≡◌, ◌≢◌, ◌⊎◌, ◌<◌, ◌≤◌, ◌+◌, ◌*◌, ◌++◌, ℕ, List, [], ◌∷◌, false, true, length, slice_index};
ghost use Rattle.std.specs.Prelude.{slice_index_or};
ghost use Rattle.std.specs.List.{All};
ghost use Rattle.disk.specs.Image.{Torn, overwritten};
ghost use Rattle.model.specs.News.{Stands};
ghost use Rattle.model.specs.Spool.{Spool};
ghost use Rattle.model.specs.Volume.{Batch, IsDescriptor, IsSuperblock, StandsFor, all_laid_over, batch_in, block, descriptor_place};
ghost use Rattle.model.specs.Volume.{epoch_at, epoch_of, other_epoch};
ghost use Rattle.model.specs.Volume.{format_2_at, format_3_at, format_number, gate_place, home, home_place, home_size, is_open, label_of};
ghost use Rattle.model.specs.Volume.{laid_over, logical_blocks, number_at, segment_count};
ghost use Rattle.journal_laws.specs.Held.{AreOpen, HaveLess, HeldBatch, IsHomeOfHeld};
ghost use Rattle.journal_laws.specs.Held.{IsHomeOnTheWay, IsWrittenIn, batch_of, batches_of, held_in};
ghost use Rattle.journal_laws.specs.Images.{IsCarried, IsHomeOfOpen, IsInside, IsOpenIn, SameBut, open_batches};

/// What an image stands for has as many blocks as its superblock says, of 4,096 octets each. The segments that are open
/// in the image are found by their gates and sorted by number.
pub fn an_image_is_read()
    ensures count { (image label : List ℕ) (blocks : List (List ℕ)) → StandsFor image label blocks → length blocks ≡ home_size image }
    ensures whole { (image label : List ℕ) (blocks : List (List ℕ)) → StandsFor image label blocks
        → All (λ block. length block ≡ 4096) blocks }
    ensures open { (image label : List ℕ) (blocks : List (List ℕ)) → StandsFor image label blocks → AreOpen (held_in image) image }
{}

/// Two open segments of a volume have different batch numbers. A volume needs only this, a valid superblock, and valid
/// descriptors of its open segments.
pub fn a_volume_is_judged_by_its_segments()
    ensures apart { (image label : List ℕ) (blocks : List (List ℕ)) (s t : ℕ) → StandsFor image label blocks → IsOpenIn s image
        → IsOpenIn t image → s ≢ t
        → (batch_in s image).number ≢ (batch_in t image).number }
    ensures stands { (image : List ℕ) → IsSuperblock (block 0 image) (length image)
        → ((s : ℕ) → IsOpenIn s image → IsDescriptor (home_size image) (block (descriptor_place s) image))
        → ((s t : ℕ) → IsOpenIn s image → IsOpenIn t image → s ≢ t → (batch_in s image).number ≢ (batch_in t image).number)
        → StandsFor image (label_of image) (logical_blocks image) }
{}

/// The two gates of the format are not read. So a crash while one is opened leaves the same blocks.
pub fn the_gates_of_the_format_are_not_read()
    ensures stands { (old new label : List ℕ) (blocks : List (List ℕ)) → StandsFor old label blocks → Torn format_2_at 2 old new
        → StandsFor new label blocks }
    ensures open { (old new label : List ℕ) (blocks : List (List ℕ)) (held : List HeldBatch) → StandsFor old label blocks
        → Torn format_2_at 2 old new → AreOpen held old → AreOpen held new }
{}

/// So an image stands for the same spool after the gate of format 3 is opened, and has format 3. An image of format 1 or 2
/// also stands for the same spool after a crash during that write, whatever the crash leaves of the gate.
pub fn an_opened_format_keeps_the_spool()
    ensures opened { (host image : List ℕ) (S : Spool) → Stands host image S
        → Stands host (overwritten format_3_at (3 ∷ []) image) S × (format_number (overwritten format_3_at (3 ∷ []) image) ≡ 3) }
    ensures torn { (host old new : List ℕ) (S : Spool) → Stands host old S → format_number old ≤ 2 → Torn format_3_at 1 old new
        → Stands host new S × (format_number old ≤ format_number new) }
{}

/// A closed segment is not read. So a crash while its descriptor and images are written leaves the volume as it was.
pub fn a_closed_segment_is_not_read()
    ensures stands { (old new label : List ℕ) (blocks : List (List ℕ)) (s : ℕ) → StandsFor old label blocks → is_open s old ≡ false
        → s < segment_count old
        → SameBut (IsInside s) old new → StandsFor new label blocks }
    ensures open { (old new label : List ℕ) (blocks : List (List ℕ)) (s : ℕ) (held : List HeldBatch) → StandsFor old label blocks
        → is_open s old ≡ false → s < segment_count old
        → SameBut (IsInside s) old new → AreOpen held old → AreOpen held new }
{}

/// What was written into a segment is the batch that it holds.
pub fn a_segment_holds_what_was_written()
    ensures { (s : ℕ) (descriptor : List ℕ) (images : List (List ℕ)) (image : List ℕ) → IsWrittenIn s descriptor images image
        → number_at 16 4 descriptor ≡ length images
        → batch_in s image ≡ batch_of descriptor images }
{}

/// The batch with the greatest number is laid over last, wherever its segment is. So a crash while its gate is opened
/// leaves the blocks without the batch, or with it.
pub fn an_opened_gate_lays_its_batch_last()
    ensures stands { (old new label : List ℕ) (blocks : List (List ℕ)) (s : ℕ) → StandsFor old label blocks → is_open s old ≡ false
        → s < segment_count old
        → IsDescriptor (home_size old) (block (descriptor_place s) old)
        → ((t : ℕ) → IsOpenIn t old → (batch_in t old).number < (batch_in s old).number)
        → SameBut (λ k. k ≡ gate_place s) old new
        → StandsFor new label blocks ⊎ StandsFor new label (laid_over blocks (batch_in s old).numbers (batch_in s old).images) }
    ensures open { (old new label : List ℕ) (blocks : List (List ℕ)) (s : ℕ) (held : List HeldBatch) → StandsFor old label blocks
        → is_open s old ≡ false → s < segment_count old
        → IsDescriptor (home_size old) (block (descriptor_place s) old) → AreOpen held old → HaveLess (batch_in s old).number held
        → SameBut (λ k. k ≡ gate_place s) old new → is_open s new ≡ true
        → StandsFor new label (laid_over blocks (batch_in s old).numbers (batch_in s old).images)
        × AreOpen (held ++ record { place = s; batch = batch_in s old } ∷ []) new }
{}

/// Home blocks of which an open segment has an image do not matter. So a crash while images are carried home leaves the
/// volume as it was.
pub fn torn_homes_are_laid_over()
    ensures stands { (old new label : List ℕ) (blocks : List (List ℕ)) → StandsFor old label blocks → SameBut (IsHomeOfOpen old) old new
        → StandsFor new label blocks }
    ensures open { (old new label : List ℕ) (blocks : List (List ℕ)) (held : List HeldBatch) → StandsFor old label blocks
        → SameBut (IsHomeOfOpen old) old new → AreOpen held old → AreOpen held new }
    ensures held { (old new label : List ℕ) (blocks : List (List ℕ)) (held : List HeldBatch) → StandsFor old label blocks → AreOpen held old
        → SameBut (IsHomeOfHeld (segment_count old) held) old new → StandsFor new label blocks }
{}

/// A home write carries one more image of the next batch. After its last image the batch is done.
pub fn a_home_write_carries_one_image()
    ensures one { (first : List (List ℕ)) (done : List HeldBatch) (next : Batch) (i : ℕ) (image : List ℕ) → i < length next.numbers
        → i < length next.images
        → length (slice_index_or next.images i []) ≡ 4096 → slice_index next.numbers i < home_size image
        → 4096 * home_place (segment_count image) (home_size image) ≤ length image
        → IsHomeOnTheWay first done next i image
        → IsHomeOnTheWay first done next (i + 1)
        (overwritten (4096 * home_place (segment_count image) (slice_index next.numbers i)) (slice_index_or next.images i []) image) }
    ensures all { (first : List (List ℕ)) (done : List HeldBatch) (h : HeldBatch) (image : List ℕ)
        → length h.batch.images ≡ length h.batch.numbers
        → IsHomeOnTheWay first done h.batch (length h.batch.numbers) image
        → home image ≡ all_laid_over first (batches_of (done ++ h ∷ [])) }
{}

/// Once the home is what the open segments say, it stays so however many of the first ones are closed.
pub fn what_lies_at_home_is_carried()
    ensures { (image : List ℕ) (first : List (List ℕ)) → home image ≡ all_laid_over first (open_batches image) → IsCarried image }
{}

/// Then the segment with the least number may be closed, and after it the next one. So a crash while a gate is closed
/// leaves the volume as it was.
pub fn the_oldest_gate_may_be_closed()
    ensures stands { (old new label : List ℕ) (blocks : List (List ℕ)) (s : ℕ) → StandsFor old label blocks → IsOpenIn s old
        → ((t : ℕ) → IsOpenIn t old → t ≢ s → (batch_in s old).number < (batch_in t old).number) → IsCarried old
        → SameBut (λ k. k ≡ gate_place s) old new → StandsFor new label blocks × IsCarried new }
    ensures open { (old new label : List ℕ) (blocks : List (List ℕ)) (h : HeldBatch) (held : List HeldBatch) → StandsFor old label blocks
        → AreOpen (h ∷ held) old → IsCarried old
        → SameBut (λ k. k ≡ gate_place h.place) old new → is_open h.place new ≡ false
        → StandsFor new label blocks × (IsCarried new × AreOpen held new) }
{}

/// If every segment is open, the other epoch closes all of them at once: no gate has it. So a crash while it is written leaves
/// all of them open or none, and the volume as it was, in the same format.
pub fn the_other_epoch_closes_all()
    ensures stands { (old new label : List ℕ) (blocks : List (List ℕ)) (held : List HeldBatch) → StandsFor old label blocks
        → AreOpen held old → length held ≡ segment_count old → IsCarried old → Torn epoch_at 1 old new
        → StandsFor new label blocks × (format_number new ≡ format_number old) }
    ensures closed { (old new label : List ℕ) (blocks : List (List ℕ)) (held : List HeldBatch) → StandsFor old label blocks
        → AreOpen held old
        → length held ≡ segment_count old → IsCarried old → Torn epoch_at 1 old new → epoch_of new ≡ other_epoch (epoch_of old)
        → AreOpen [] new × IsCarried new }
{}
