//! What holds for batches and for line ends.

ghost use Rattle.text_rnews.specs.Laws.{IsReadBack, IsReadAsOne, MemberStays, CauseStays};
ghost use Rattle.text_rnews.specs.LineEnds.{LinesGetLf, LinesGetCrlf, CrlfStays};

/// A batch is read as the texts that were written and as no others, whatever pieces it arrives in. Of one that is too long the number of
/// its octets is read.
pub fn batches_are_read_back()
    ensures back { IsReadBack }
    ensures one { IsReadAsOne }
    ensures member { MemberStays }
    ensures cause { CauseStays }
{}

/// Lines that end in CRLF become lines that end in LF, and these become the same lines again. Lines that already end in
/// CRLF stay as they are.
pub fn line_ends_are_kept()
    ensures lf { LinesGetLf }
    ensures crlf { LinesGetCrlf }
    ensures stays { CrlfStays }
{}
