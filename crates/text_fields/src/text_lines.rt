//! The lines of a text, and where its header ends.

ghost use Rattle.std.specs.Prelude.{◌≡◌, ◌<◌, ◌≤◌, ◌↔◌, ◌∷◌, IsTrue, MatchOption, false, length, take, drop, bytes_eq};
ghost use Rattle.std.specs.List.{list_all};
ghost use Rattle.model.specs.Stream.{crlf, lines};
ghost use Rattle.model.specs.Article as article;
ghost use Rattle.text_fields.specs.Header.{IsHeader};
ghost use Rattle.memchr.specs.Find.{FindsNeedle, OccursAt};

use memchr::memchr;

/// The number of octets of a text's first line, with its CRLF if it has one: 1 or more. The text must not be empty.
pub fn line_length(text: &[u8]) -> usize
    requires { 0 < length text.now }
    ensures some { 0 < result }
    ensures within { result ≤ length text.now }
    ensures first { lines text.now ≡ take result text.now ∷ lines (drop result text.now) }
{
    match crlf_in(text) {
        Some(at) => at + 2,
        None => text.len(),
    }
}

/// The place of the first CRLF of a text. A text of whole lines is searched for LF once.
fn crlf_in(text: &[u8]) -> Option<usize>
    ensures { FindsNeedle text.now crlf 0 result }
{
    let mut from = 0;
    while let Some(place) = memchr(b'\n', &text[from..]) {
        let at = from + place;
        if at > 0 && text[at - 1] == b'\r' {
            return Some(at - 1);
        }
        from = at + 1;
    }
    None
}

/// Whether a line is empty.
pub(crate) fn is_empty_line(line: &[u8]) -> bool
    ensures { result ≡ bytes_eq line.now crlf }
{
    line == b"\r\n".as_slice()
}

/// Whether a text consists of whole lines, at least one. A whole line ends in CRLF, and has no NUL, CR or LF before it. So
/// no octet is NUL, one is LF exactly if it follows a CR, and the last one is LF. Each octet is tested, also after a wrong
/// one, since a loop without a branch is compiled to vectors.
pub fn has_lines_alone(text: &[u8]) -> bool
    ensures { result ≡ article.has_lines_alone text.now }
{
    let mut is_whole = true;
    let mut before = 0;
    for octet in text {
        is_whole &= *octet != 0;
        is_whole &= (before == b'\r') == (*octet == b'\n');
        before = *octet;
    }
    is_whole && before == b'\n'
}

/// The number of octets of a text's header: the lines before the first empty one, or all lines if none is empty.
pub fn header_length(text: &[u8]) -> usize
    ensures { IsHeader text.now result }
{
    let mut at = 0;
    let mut rest = text;
    while !rest.is_empty() {
        let (line, later) = rest.split_at(line_length(rest));
        if is_empty_line(line) {
            return at;
        }
        at += line.len();
        rest = later;
    }
    at
}

/// The number of lines of a text. The last one may have no CRLF.
pub fn line_count(text: &[u8]) -> usize
    ensures { result ≡ length (lines text.now) }
{
    let mut count = 0;
    let mut rest = text;
    while !rest.is_empty() {
        rest = &rest[line_length(rest)..];
        count += 1;
    }
    count
}
