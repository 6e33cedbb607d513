//! The line by which a proxy says for whom it connects: the PROXY protocol, version 1 (proxy-protocol.txt of HAProxy, 2.1).

ghost use Rattle.std.specs.Prelude.{◌≡◌, ◌∷◌, ◌≤◌, [], List, ℕ, All, IfSome, IfNone};
ghost use Rattle.std.specs.declared.net.ip_addr.IpAddr.{IpAddr};
ghost use Rattle.text_networks.specs.Proxies.{IsEnds, IsProxyLine, IsProxyText, IsSaid, family_word, words_of};
ghost use Rattle.text_networks.specs.declared.proxies.Proxied.{Proxied};

use crate::numerals::read_number;
use memchr::memchr;
use std::net::IpAddr;

/// The most octets of the line, with its CRLF.
pub const PROXY_LINE: usize = 107;

/// The first word of the line.
const SIGNATURE: &[u8] = b"PROXY";

/// In place of a family: the proxy doesn't say for whom it connects.
const UNKNOWN: &[u8] = b"UNKNOWN";

/// The greatest port.
const MOST_OF_A_PORT: u32 = 65_535;

/// For whom a proxy connects.
#[derive(Clone, Copy)]
pub enum Proxied {
    /// For a caller of this address and port.
    From(IpAddr, u16),
    /// It doesn't say.
    Unknown,
}

/// The two ends of a caller's connection to a proxy.
#[derive(Clone, Copy)]
struct Ends {
    from: IpAddr,
    to: IpAddr,
    port: u16,
}

/// The words of two ends.
#[derive(Clone, Copy)]
struct EndWords<'a> {
    from: &'a [u8],
    to: &'a [u8],
    port: &'a [u8],
    to_port: &'a [u8],
}

/// For whom a proxy connects that sends this line: `PROXY TCP4 FROM TO PORT PORT`, with the addresses of the caller and of the
/// proxy, and their ports; the same with `TCP6`; or `PROXY UNKNOWN`, behind which anything may stand. The line ends with
/// CRLF and has at most 107 octets with it. Between two words stands one space. A port is a decimal number up to 65,535 that has no
/// sign and no leading zero. `None` for any other line.
pub fn read_proxy_line(line: &[u8]) -> Option<Proxied>
    ensures found { IfSome result (IsProxyLine line.now) }
    ensures none { IfNone result ((proxied : Proxied) → ¬ (IsProxyLine line.now proxied)) }
{
    if line.len() > PROXY_LINE || !line.ends_with(b"\r\n") {
        return None;
    }
    read_text(&line[..line.len() - 2])
}

/// For whom a proxy connects that sends this text and CRLF.
fn read_text(text: &[u8]) -> Option<Proxied>
    ensures found { IfSome result (IsProxyText text.now) }
    ensures none { IfNone result ((proxied : Proxied) → ¬ (IsProxyText text.now proxied)) }
{
    let Some((signature, rest)) = cut(text) else {
        return None;
    };
    if signature != SIGNATURE {
        return None;
    }
    match cut(rest) {
        Some((family, ends)) => read_family(family, ends),
        None if rest == UNKNOWN => Some(Proxied::Unknown),
        None => None,
    }
}

/// For whom a proxy connects that sends this word behind the first one, and behind it this text.
fn read_family(family: &[u8], ends: &[u8]) -> Option<Proxied>
    ensures found { IfSome result (IsSaid (family.now ∷ words_of ends.now)) }
    ensures none { IfNone result ((proxied : Proxied) → ¬ (IsSaid (family.now ∷ words_of ends.now) proxied)) }
{
    if family == UNKNOWN {
        return Some(Proxied::Unknown);
    }
    let Some(Ends { from, to, port }) = read_ends(ends) else {
        return None;
    };
    if family == word_of(from) && family == word_of(to) {
        Some(Proxied::From(from, port))
    } else {
        None
    }
}

/// The ends of a caller's connection that a text says by four words.
fn read_ends(text: &[u8]) -> Option<Ends>
    ensures found { IfSome result (λ ends. IsEnds (words_of text.now) ends.from ends.to ends.port) }
    ensures none { IfNone result ((from to : IpAddr) (port : ℕ) → ¬ (IsEnds (words_of text.now) from to port)) }
{
    let Some(words) = four_words(text) else {
        return None;
    };
    let Ok(from) = IpAddr::parse_ascii(words.from) else {
        return None;
    };
    let Ok(to) = IpAddr::parse_ascii(words.to) else {
        return None;
    };
    let Some(port) = read_number(words.port, MOST_OF_A_PORT) else {
        return None;
    };
    match read_number(words.to_port, MOST_OF_A_PORT) {
        Some(_) => Some(Ends {
            from,
            to,
            port: port as u16,
        }),
        None => None,
    }
}

/// The four words of a text.
fn four_words(text: &[u8]) -> Option<EndWords<'_>>
    ensures some { IfSome result (λ w. words_of text.now ≡ w.from.now ∷ w.to.now ∷ w.port.now ∷ w.to_port.now ∷ []) }
    ensures none { IfNone result ((a b c d : List ℕ) → ¬ (words_of text.now ≡ a ∷ b ∷ c ∷ d ∷ [])) }
{
    let Some((from, rest)) = cut(text) else {
        return None;
    };
    let Some((to, rest)) = cut(rest) else {
        return None;
    };
    let Some((port, to_port)) = cut(rest) else {
        return None;
    };
    match cut(to_port) {
        None => Some(EndWords {
            from,
            to,
            port,
            to_port,
        }),
        Some(_) => None,
    }
}

/// The first word of a text, and what stands behind the space after it. `None` if there is no space.
fn cut(text: &[u8]) -> Option<(&[u8], &[u8])>
    ensures some { IfSome result (λ parts. words_of text.now ≡ parts.0.now ∷ words_of parts.1.now) }
    ensures none { IfNone result (words_of text.now ≡ text.now ∷ []) }
{
    match memchr(b' ', text) {
        Some(at) => Some((&text[..at], &text[at + 1..])),
        None => None,
    }
}

/// The word of the family of an address.
fn word_of(address: IpAddr) -> &'static [u8]
    ensures { result.now ≡ family_word address }
{
    match address {
        IpAddr::V4(_) => b"TCP4",
        IpAddr::V6(_) => b"TCP6",
    }
}
