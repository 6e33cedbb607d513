//! What each word may be.

ghost use Rattle.std.specs.Prelude.{◌≡◌, ◌≤◌, ◌&&◌, not, ℕ, Some, IfSome, IfNone};
ghost use Rattle.program_script.specs.Words.{is_blank, number_of};
ghost use Rattle.text_names.specs.Descriptions.{is_description};

use kernel_shared::MOST_SESSIONS;
use program_script::{days, is_blank, moment, number, status};
use text_names::{GROUP_NAME_LIMIT, is_description, is_group_name, is_host, is_wildmat, number_of};
use text_networks::{Network, is_loopback, read_endpoint};
use volume_new::{FEWEST_INODES, MOST_BLOCKS, are_sizes};

/// The moment at which a command reads the clock.
const NOW: &str = "now";

/// What a word may be.
#[derive(Clone, Copy)]
pub enum Grammar {
    /// Any text.
    Any,
    /// The name of a server.
    Host,
    /// A number of blocks.
    Blocks,
    /// A number of inodes.
    Inodes,
    /// The format of a volume.
    Format,
    /// The name of a group.
    Group,
    /// Whether posting is permitted.
    Status,
    /// `now`, or seconds since 1970, before the year 10000.
    Moment,
    /// The description of a group, which isn't blank.
    Description,
    /// The number of an article.
    Article,
    /// A wildmat.
    Wildmat,
    /// A number of days.
    Days,
    /// Where a server listens.
    Endpoint,
    /// Where it listens for proxies: on the machine itself.
    OwnEndpoint,
    /// A network of callers.
    Network,
    /// A number of sessions.
    Seats,
    /// A number of articles in a minute.
    Articles,
    /// A word of a line, or several.
    LineWord,
}

impl Grammar {
    /// Whether a word follows the grammar.
    pub fn holds(self, word: &str) -> bool {
        let octets = word.as_bytes();
        match self {
            Grammar::Any => true,
            Grammar::Host => is_host(octets),
            // the fewest inodes and the most blocks go with every permitted number of the other
            Grammar::Blocks => number(octets).is_some_and(|n| are_sizes(n, FEWEST_INODES)),
            Grammar::Inodes => number(octets).is_some_and(|n| are_sizes(MOST_BLOCKS, n)),
            Grammar::Format => word == "1" || word == "2" || word == "3",
            Grammar::Group => is_group_name(octets),
            Grammar::Status => status(octets).is_some(),
            Grammar::Moment => word == NOW || moment(octets).is_some(),
            Grammar::Description => is_shown(octets),
            Grammar::Article => number_of(octets).is_some(),
            Grammar::Wildmat => is_wildmat(octets),
            Grammar::Days => days(octets).is_some(),
            Grammar::Endpoint => read_endpoint(word).is_some(),
            Grammar::OwnEndpoint => read_endpoint(word).is_some_and(|at| is_loopback(at.ip())),
            Grammar::Network => Network::read(word).is_some(),
            Grammar::Seats => session_number(octets).is_some(),
            Grammar::Articles => article_number(octets).is_some(),
            Grammar::LineWord => !octets.contains(&b'\n'),
        }
    }

    /// What a refusal says of this word, which doesn't follow the grammar.
    pub fn fault(self, word: &str) -> &'static str {
        match self {
            Grammar::Group if word.len() > GROUP_NAME_LIMIT => "has more than 40 octets",
            Grammar::Any => "is no text",
            Grammar::Host => "is no name of a server",
            Grammar::Blocks => "is no number from 1024 to 4194304",
            Grammar::Inodes => "is no multiple of 64 from 64 to 4194304",
            Grammar::Format => "is not 1, 2 or 3",
            Grammar::Group => "is no name of a group",
            Grammar::Status => "is neither y nor n",
            Grammar::Moment => "is neither now nor a number of seconds before the year 10000",
            Grammar::Description => "is no line of at most 200 octets of ASCII, or is blank",
            Grammar::Article => "is no number of an article",
            Grammar::Wildmat => "is no wildmat",
            Grammar::Days => "is no number of days from 1 to 36500",
            Grammar::Endpoint => "is no ADDRESS:PORT",
            Grammar::OwnEndpoint => "is no ADDRESS:PORT of 127.0.0.0/8 or ::1",
            Grammar::Network => "is no ADDRESS or ADDRESS/LENGTH",
            Grammar::Seats => "is no number from 1 to 4096",
            Grammar::Articles => "is no number from 1 to 1000000",
            Grammar::LineWord => "is more than one line",
        }
    }
}

/// Whether the operator may give this description to a group: it is one, and readers can be shown it as RFC 3977 asks (section
/// 9.7), since it isn't blank.
fn is_shown(text: &[u8]) -> bool
    ensures { result ≡ (is_description text.now && not (is_blank text.now)) }
{
    is_description(text) && !is_blank(text)
}

/// The number of sessions that a word names: one from 1 to `MOST_SESSIONS`.
pub fn session_number(word: &[u8]) -> Option<usize>
    ensures some { IfSome result (λ most. (number_of word.now ≡ Some most) × (1 ≤ most) × (most ≤ 4096)) }
    ensures none { IfNone result ((most : ℕ) → number_of word.now ≡ Some most → 1 ≤ most → most ≤ 4096 → ⊥) }
{
    match number(word) {
        Some(most) if most >= 1 && most <= MOST_SESSIONS as u64 => Some(most as usize),
        _ => None,
    }
}

/// The most articles of an address in a minute that an operator may name.
const MOST_ARTICLES: u64 = 1_000_000;

/// The number of articles in a minute that a word names: one from 1 to `MOST_ARTICLES`.
pub fn article_number(word: &[u8]) -> Option<u32>
    ensures some { IfSome result (λ most. (number_of word.now ≡ Some most) × (1 ≤ most) × (most ≤ 1_000_000)) }
    ensures none { IfNone result ((most : ℕ) → number_of word.now ≡ Some most → 1 ≤ most → most ≤ 1_000_000 → ⊥) }
{
    match number(word) {
        Some(most) if most >= 1 && most <= MOST_ARTICLES => Some(most as u32),
        _ => None,
    }
}
