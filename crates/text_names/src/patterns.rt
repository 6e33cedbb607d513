//! Checks of wildmats, and whether a wildmat matches a name.

ghost use Rattle.std.specs.Prelude.{◌≡◌, ◌∷◌, ◌==◌, map, is_some, IsTrue};
ghost use Rattle.model.specs.Names as model;
ghost use Rattle.text_names.specs.Patterns.{fits, verdict_of};

use crate::checks::is_visible;

/// Whether the text is a wildmat: patterns separated by commas, none empty, the first without `!` (RFC 3977, 4.1).
pub fn is_wildmat(text: &[u8]) -> bool
    ensures { result ≡ model.is_wildmat text.now }
{
    !begins_negated(text)
        && text
            .split(|octet| *octet == b',')
            .all(|pattern| is_pattern(pattern))
}

fn begins_negated(text: &[u8]) -> bool
    ensures { result ≡ model.begins (λ octet. octet == 33) text.now }
{
    matches!(text, [b'!', ..])
}

/// Whether the text is a pattern, which may begin with `!`.
fn is_pattern(text: &[u8]) -> bool
    ensures { result ≡ is_some (model.later_pattern_of text.now) }
{
    match text {
        [b'!', items @ ..] => are_items(items),
        items => are_items(items),
    }
}

/// Whether the octets are those of a pattern without a leading `!`, at least one.
fn are_items(text: &[u8]) -> bool
    ensures { result ≡ model.is_run_of model.is_pattern_octet text.now }
{
    !text.is_empty() && text.iter().all(|octet| is_pattern_octet(*octet))
}

/// Whether the octet may occur in a pattern: `!`, `,`, `[`, `\` and `]` may not (RFC 3977, 4.1).
fn is_pattern_octet(octet: u8) -> bool
    ensures { result ≡ model.is_pattern_octet octet }
{
    is_visible(octet)
        && !(octet == b'!' || octet == b',' || octet == b'[' || octet == b'\\' || octet == b']')
}

/// Whether a wildmat matches a name: the rightmost pattern that matches decides; without one the answer is no (RFC
/// 3977, 4.2). The number of steps is at most the wildmat's octets times the name's.
pub fn wildmat_matches(wildmat: &[u8], name: &[u8]) -> bool
    requires { IsTrue (model.is_wildmat wildmat.now) }
    ensures { result ≡ model.wildmat_matches wildmat.now name.now }
{
    let patterns = wildmat.split(|octet| *octet == b',');
    patterns.fold(false, |decided, pattern| {
        verdict(pattern, name).unwrap_or(decided)
    })
}

/// What a pattern decides about a name. `None` if the pattern does not match the name.
fn verdict(pattern: &[u8], name: &[u8]) -> Option<bool>
    ensures { result ≡ verdict_of name.now pattern.now }
{
    match pattern {
        [b'!', items @ ..] => takes(items, name).then_some(false),
        items => takes(items, name).then_some(true),
    }
}

/// Whether an item other than `*` matches the octet.
fn fits(item: u8, octet: u8) -> bool
    ensures { result ≡ fits item octet }
{
    item == b'?' || octet == item
}

/// Whether the items of a pattern match the whole name.
fn takes(items: &[u8], name: &[u8]) -> bool
    ensures { result ≡ model.takes (map model.item_of items.now) name.now }
{
    let mut at = 0;
    while at < items.len() && items[at] != b'*' {
        if at == name.len() || !fits(items[at], name[at]) {
            return false;
        }
        at += 1;
    }
    if at == items.len() {
        return at == name.len();
    }
    takes_behind_run(&items[at + 1..], &name[at..])
}

/// Whether `*` and these items match the whole name. After the last `*` the items are tried at each place of the name
/// in turn. What an earlier `*` matches then no longer matters.
fn takes_behind_run(items: &[u8], name: &[u8]) -> bool
    ensures { result ≡ model.takes (model.AnyRun ∷ map model.item_of items.now) name.now }
{
    let mut behind = 0;
    let mut tried = 0;
    let mut at = 0;
    let mut from = 0;
    while from < name.len() {
        if at < items.len() && items[at] == b'*' {
            at += 1;
            behind = at;
            tried = from;
        } else if at < items.len() && fits(items[at], name[from]) {
            at += 1;
            from += 1;
        } else {
            tried += 1;
            at = behind;
            from = tried;
        }
    }
    items[at..].iter().all(|item| *item == b'*')
}
