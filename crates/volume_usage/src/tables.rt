//! The set bits of each block of a bitmap.

ghost use Rattle.std.specs.Prelude.{◌≡◌, ◌≤◌, length};

/// The most blocks that a bitmap has.
pub(crate) const MOST_TABLES: usize = 128;

/// The set bits of each block of the bitmap, which are the first logical blocks (docs/FORMATS.md).
#[derive(Clone, Copy)]
pub struct BitmapMarks {
    pub(crate) tables: usize,
    pub(crate) bits: [u32; MOST_TABLES],
    ghost few: { tables ≤ 128 },
    ghost whole: { length bits ≡ 128 },
}
