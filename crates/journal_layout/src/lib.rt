//! The places on a volume's device, the octets of its superblock and of a batch's descriptor, and the writing of a new
//! volume. `Volume.antt` of the model says the same as definitions, docs/FORMATS.md in words.
#![tactic(auto)]

mod descriptor;
mod formatting;
pub mod layout;
mod superblock;

pub use descriptor::{are_below, are_distinct, describe_batch, read_descriptor};
pub use formatting::{format, format_with};
pub use superblock::{
    Superblock, gate_2_of, gate_3_of, other_epoch, read_epoch, read_format, read_superblock,
};
use thiserror::Error;

/// Why a volume was not written.
#[derive(Clone, Copy, Debug, PartialEq, Eq, Error)]
pub enum FormatError {
    /// The device failed in this call.
    #[error("E1 Fault")]
    Fault,
    /// An allocation was refused in this call.
    #[error("E2 Memory")]
    Memory,
}
