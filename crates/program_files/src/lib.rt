//! A volume in a file: it is made, and opened as a device or with its kernel; what stood there before; a refusal says
//! what is wrong with a volume.
#![tactic(auto)]

mod opening_refusals;
mod volume_file;

pub use opening_refusals::refusal_of;
pub use volume_file::{
    ReadDisk, VolumeDisk, VolumeFile, block_octets, changes_at, find, find_to_read, format,
    format_empty, format_new, new_counts, octets_at, open, open_found, open_store, open_to_read,
};
