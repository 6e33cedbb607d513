//! The segments of a volume, read from its device into memory and written to it. The open ones are found by their gates and sorted by
//! batch number. `specs/Staged.antt` says what a segment in memory is, `specs/Found.antt` what is read.
#![tactic(auto)]

mod device_reads;
mod laying;
mod open_segments;
mod segment;
mod writing;

pub use device_reads::load_superblock;
pub use laying::lay_over;
pub use open_segments::find_open;
pub use segment::Segment;
use thiserror::Error;
pub use writing::{write_descriptor, write_epoch, write_gate, write_home, write_image};

/// Why a read of a volume was refused. Nothing was written.
#[derive(Clone, Copy, Debug, PartialEq, Eq, Error)]
pub enum SegmentError {
    /// The device failed in this call.
    #[error("E1 Fault")]
    Fault,
    /// The length, the superblock or an open segment's descriptor is not valid, or two open segments share a batch
    /// number.
    #[error("E3 NotAVolume")]
    NotAVolume,
}
