//! What an article adds to the numbers and the overviews of its groups.

ghost use Rattle.std.specs.Prelude.{◌≡◌, ◌+◌, ◌^◌, ◌<◌, ◌≤◌, ◌++◌, ◌∷◌, [], ℕ, List, length, IfOk, OnOk};
ghost use Rattle.std.specs.List.{All};
ghost use Rattle.model.specs.Files.{table};
ghost use Rattle.model.specs.Indexed.{ArePlaces};
ghost use Rattle.model.specs.Spool.{Spool};
ghost use Rattle.spool_groups.specs.Filing.{AreLineSizes};
ghost use Rattle.spool_index.specs.View.{Indexes};
ghost use Rattle.spool_growing.specs.Articles.{ArePieces, ArePiecesOf, CanFile, CanFileIn};

use crate::Piece;
use model::Text;
use spool_index::{Index, Places};
use spool_records::number_record;
use std::alloc::{AllocError, Global};
use text_article::Article;
use text_overview::Overview;

/// What an article adds to its groups.
#[derive(Drop)]
pub(crate) struct Lines {
    /// for each group its number, and its line in the overview
    pub(crate) pieces: Vec<Piece>,
    /// the number of octets of each line
    pub(crate) sizes: Vec<u64>,
}

impl Lines {
    /// Adds what the article adds to one more group.
    fn push(&mut self, number: Piece, line: Piece) -> Result<(), AllocError>
        ensures sizes { OnOk result (self.new.sizes.items ≡ self.old.sizes.items ++ length line.octets.items ∷ []) }
        ensures pieces { OnOk result (self.new.pieces.items ≡ self.old.pieces.items ++ number ∷ line ∷ []) }
    {
        self.sizes.push(line.octets.len() as u64)?;
        self.pieces.push(number)?;
        self.pieces.push(line)?;
        Ok(())
    }
}

/// What an article adds to the numbers and to the overview of a group.
fn line_in(
    alloc: Global,
    index: &Index,
    places: &Places,
    serial: u64,
    overview: &Overview<'_>,
    name: &[u8],
) -> Result<(Piece, Piece), AllocError>
    requires { CanFileIn index.now places.now overview.now name.now }
    ensures pieces { IfOk result (λ p. (S : Spool) → Indexes S index.now → serial ≡ length S + 1 → (inodes : ℕ) (blocks : List (List ℕ))
        → ArePlaces inodes blocks S places.now
        → ArePiecesOf (table inodes blocks) S overview.now name.now p.0 p.1) }
    ensures short { IfOk result (λ p. length p.1.octets.items ≤ 8191) }
{
    let Some(place) = index.place(name) else {
        unreachable!()
    };
    let group = &index.groups()[place];
    let line = overview.line(alloc, group.high() + 1)?;
    let record = number_record(serial, group.overview_size() as u32, &line);
    let number = Piece {
        at: places.numbers()[place],
        octets: Vec::from_slice(alloc, &record)?,
    };
    let line = Piece {
        at: places.overviews()[place],
        octets: line,
    };
    Ok((number, line))
}

/// What an article adds to its groups.
pub(crate) fn lines_of(
    alloc: Global,
    index: &Index,
    places: &Places,
    serial: u64,
    article: &Article<'_>,
    filed: &[Text],
) -> Result<Lines, AllocError>
    requires { CanFile index.now places.now article.now filed.now }
    ensures pieces { IfOk result (λ l. (S : Spool) → Indexes S index.now → serial ≡ length S + 1 → (inodes : ℕ) (blocks : List (List ℕ))
        → ArePlaces inodes blocks S places.now
        → ArePieces (table inodes blocks) S article.now filed.now l.pieces.items) }
    ensures sizes { IfOk result (λ l. (S : Spool) → Indexes S index.now → serial ≡ length S + 1 → (inodes : ℕ) (blocks : List (List ℕ))
        → ArePlaces inodes blocks S places.now
        → AreLineSizes S article.now filed.now l.sizes.items) }
    ensures count { IfOk result (λ l. length l.sizes.items ≡ length filed.now) }
    ensures small { IfOk result (λ l. All (λ n. n < 2 ^ 32) l.sizes.items) }
{
    let overview = Overview::new(alloc, article)?;
    let mut lines = Lines {
        pieces: Vec::with_capacity(alloc, filed.len().saturating_mul(2))?,
        sizes: Vec::with_capacity(alloc, filed.len())?,
    };
    for name in filed {
        let (number, line) = line_in(alloc, index, places, serial, &overview, name.as_slice())?;
        lines.push(number, line)?;
    }
    Ok(lines)
}
