//! The label of a volume: the number of inodes, and the host. `model/specs/Layout.antt` has its form.

ghost use Rattle.std.specs.Prelude.{◌≡◌, ◌==◌, ◌↔◌, IsTrue, IsNone, IfSome};
ghost use Rattle.std.specs.List.{list_all};
ghost use Rattle.kernel.specs.Label.{HasRoom, IsNoLabel};
ghost use Rattle.model.specs.Files.{bitmap_blocks};
ghost use Rattle.model.specs.Layout.{IsLabel};

use byteorder::{ByteOrder, LittleEndian};
use text_names::{HOST_LIMIT, is_host};

// The number of octets of a label, and where its host begins.
const LABEL: usize = 128;

const HOST_AT: usize = 5;

/// The contents of a label.
#[derive(Clone, Copy)]
pub struct Label<'a> {
    pub inodes: u64,
    pub host: &'a [u8],
}

/// Reads the label of a volume with this many logical blocks; `None` exactly if it is not valid.
pub fn read_label(octets: &[u8], blocks: u64) -> Option<Label<'_>>
    ensures some { IfSome result (λ label. IsLabel octets.now blocks label.inodes label.host.now) }
    ensures none { IsNone result → IsNoLabel octets.now blocks }
{
    if octets.len() != LABEL {
        return None;
    }
    let inodes = u64::from(LittleEndian::read_u32(octets));
    let size = octets[HOST_AT - 1] as usize;
    if size > HOST_LIMIT || !has_room(inodes, blocks) {
        return None;
    }
    let end = HOST_AT + size;
    let host = &octets[HOST_AT..end];
    if !is_host(host) || !are_zeros(&octets[end..]) {
        return None;
    }
    Some(Label { inodes, host })
}

// Whether a volume with this many blocks may have this many inodes.
fn has_room(inodes: u64, blocks: u64) -> bool
    ensures { IsTrue result ↔ HasRoom inodes blocks }
{
    64 <= inodes
        && inodes <= 4_194_304
        && inodes % 64 == 0
        && bitmap_of(blocks) + 2 * (inodes / 64) + 256 <= blocks
}

// The blocks of the bitmap of a volume with this many blocks.
fn bitmap_of(blocks: u64) -> u64
    ensures { result ≡ bitmap_blocks blocks }
{
    2 + (blocks.saturating_sub(65_536) + 32_767) / 32_768
}

fn are_zeros(octets: &[u8]) -> bool
    ensures { result ≡ list_all (λ octet. octet == 0) octets.now }
{
    octets.iter().all(|octet| *octet == 0)
}
