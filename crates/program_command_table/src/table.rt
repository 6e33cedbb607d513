//! The program's words as a table: each subcommand with the words that it takes, and what help says of them.

use crate::grammars::Grammar;

pub const HOST: &str = "host";

pub const BLOCKS: &str = "blocks";

pub const INODES: &str = "inodes";

pub const FORMAT: &str = "format";

pub const NEW: &str = "new";

pub const CACHE: &str = "cache";

pub const PATH: &str = "path";

pub const PORT: &str = "port";

pub const LISTEN: &str = "listen";

pub const PROXIED: &str = "proxied";

pub const ALLOW: &str = "allow";

pub const MOST_FROM: &str = "most-from";

pub const POSTS_FROM: &str = "posts-from";

pub const SESSIONS: &str = "sessions";

pub const METRICS: &str = "metrics";

pub const CONTROL: &str = "control";

pub const LINE: &str = "line";

pub const QUIET: &str = "quiet";

pub const NAME: &str = "name";

pub const STATUS: &str = "status";

pub const MOMENT: &str = "moment";

pub const DESCRIPTION: &str = "description";

pub const NUMBER: &str = "number";

pub const OLDER_THAN: &str = "older-than";

pub const DRY_RUN: &str = "dry-run";

pub const RULES: &str = "rules";

pub const CRLF: &str = "crlf";

pub const JSON: &str = "json";

pub const OLD: &str = "old";

pub const IN_PLACE: &str = "in-place";

/// A word of a subcommand, as it is read and as help shows it.
#[derive(Clone, Copy)]
pub struct Word {
    /// Its name among what was read. An option is written as two hyphens and this name.
    pub id: &'static str,
    /// What help shows in place of its value; empty for a flag.
    pub value: &'static str,
    pub help: &'static str,
    pub kind: Kind,
    pub grammar: Grammar,
}

/// How a word is given.
#[derive(Clone, Copy)]
pub enum Kind {
    /// By its place.
    Operand,
    /// By its place. It may be left out.
    LastOperand,
    /// As an option that has to be given.
    Required,
    /// As an option, with the value that it has if it isn't given.
    Default(&'static str),
    /// As an option that may be left out.
    Optional,
    /// As an option that may be left out: a number from 1 to 65535.
    Port,
    /// As an option that may be left out.
    Option,
    /// As an option that may be given any number of times.
    Repeated,
    /// As an option without a value.
    Flag,
    /// By their places: all that follow, at least one, even such as begin with a hyphen.
    Rest,
}

/// A subcommand.
#[derive(Clone, Copy)]
pub struct Subcommand {
    pub name: &'static str,
    pub about: &'static str,
    /// What its help says at the end, if anything.
    pub after_help: Option<&'static str>,
    pub words: &'static [Word],
    /// Of these words at least one has to be given; empty if none has to.
    pub one_of: &'static [&'static str],
}

const VOLUME: Word = Word {
    id: PATH,
    value: "PATH",
    help: "The file that holds the volume",
    kind: Kind::Operand,
    grammar: Grammar::Any,
};

const SERVER: Word = Word {
    id: HOST,
    value: "HOST",
    help: "The server's name",
    kind: Kind::Required,
    grammar: Grammar::Host,
};

const BLOCKS_OF_FILE: Word = Word {
    id: BLOCKS,
    value: "N",
    help: "Logical blocks of 4096 octets",
    kind: Kind::Default("16384"),
    grammar: Grammar::Blocks,
};

const BLOCKS_OF_MEMORY: Word = Word {
    kind: Kind::Default("1024"),
    ..BLOCKS_OF_FILE
};

const INODES_OF_FILE: Word = Word {
    id: INODES,
    value: "I",
    help: "Files on the volume",
    // the fewest of which a part is left to the operator, and in which short articles share the pack
    kind: Kind::Default("2048"),
    grammar: Grammar::Inodes,
};

const INODES_OF_MEMORY: Word = Word {
    kind: Kind::Default("64"),
    ..INODES_OF_FILE
};

const BLOCKS_OF_RENEWED: Word = Word {
    help: "Logical blocks of 4096 octets, if not as many as OLD has",
    kind: Kind::Optional,
    ..BLOCKS_OF_FILE
};

const INODES_OF_RENEWED: Word = Word {
    help: "Files on the volume, if not as many as OLD has",
    kind: Kind::Optional,
    ..INODES_OF_FILE
};

const FORMAT_OF_FILE: Word = Word {
    id: FORMAT,
    value: "F",
    help: "The format of the volume, 1 to 3",
    kind: Kind::Default("3"),
    grammar: Grammar::Format,
};

/// What `serve` does, in short.
const SERVING: &str = "\
Prints `listening ADDRESS:PORT` for each address, that of --port first. One server at a time serves a volume. \
A caller from 127.0.0.0/8 or ::1 is always let in, any other only from a network of --allow. Else it is told `502 Access denied`. \
A connection to an address of --proxied begins with a line of the PROXY protocol, version 1, as that of stunnel with \
`protocol = proxy`; the address in it counts as the caller's. \
At most 64 sessions are served at one time, or as many as --sessions says; the next caller is told `400 Service ends`. So is one \
whose address has as many sessions as are free, or as --most-from permits. \
Copy the volume for a backup while the server is stopped. \
The file of --metrics is in the text format of Prometheus; each time one beside it is written, whose name ends in .part, and renamed.

Standard input takes these lines. `group NAME STATUS MOMENT DESCRIPTION` makes a group, where MOMENT may be `now`, and `expire NAME N` \
takes the articles of a group up to that number out of it; the serial is printed once it is durable, or the refusal. `expire-older DAYS` \
or `expire-older DAYS WILDMAT` takes out what `newsd expire --older-than` would, and prints `SERIAL expire NAME N` for each group, then \
`articles COUNT`; `list-older` prints the same without serials, and takes nothing out. `status` prints the state of the volume and of the \
server on one line, `sessions` a line for each session and their number; `drop N` disconnects the one with this number, `drop NETWORK` \
those of the callers there. `stop` commits what was accepted, prints `stopped` and ends the server with status 0. Where the device fails, \
the next caller is told `400 Service ends` and the server ends with `E1 Fault`, status 1. Serve the volume again then: what was \
acknowledged is there. The same holds after the process was killed.";

/// What `expire` does, in short.
const EXPIRING: &str = "\
With NAME and N prints the serial of the change. With --older-than it makes a change for each group with such articles, and prints \
`expire NAME N` once that change is durable; the last line, `articles COUNT`, says how many were taken out in all. What counts is when \
an article was filed. In each group it stops before the first article that isn't older than DAYS days, whatever comes behind it.";

/// What `ask` does, in short.
const ASKING: &str = "\
The lines are those of standard input: `newsd serve --help` has them. Status 0 where the server has done what the line asks for, \
status 1 where it answers with a refusal, as `E12 NotFound`, and status 2 where nobody answers, or not to the end.";

/// What `groups` does, in short.
const LISTING: &str = "\
Reads a list from standard input. A line `NAME HIGH LOW FLAG`, as in INN's file active, asks for a group; its flag is y where posting is \
permitted, else n. A line `NAME<TAB>DESCRIPTION`, as in INN's file newsgroups, describes one, wherever it stands in the list. \
Prints what became of each line that asks for a group, once all of it is durable: `line L: made SERIAL NAME`, `line L: here NAME` or \
`line L: refused` and why. What was made stays, and the status is 1 if a line was refused. After a kill it can be run again on the same \
list.";

/// What `expire-by` does, in short.
const RULING: &str = "\
Each line of RULES is `WILDMAT:DAYS` or `WILDMAT:never`, a comment, which begins with #, or blank. The first line whose wildmat matches \
a group decides: its articles that are older than DAYS days are taken out as `expire --older-than` takes them, or never. A group that no \
line matches keeps all. Prints what `expire --older-than` prints.";

/// What `import` does, in short.
const IMPORTING: &str = "\
Reads the batch from standard input. Its lines end in LF or CRLF. Each article is filed as a transfer (IHAVE) would be; one that \
is there already is left out, and so is one none of whose groups is there. Prints how many were filed. After a kill or a fault it can \
be run again on the same batch.";

/// What `renew` does, in short.
const RENEWING: &str = "\
Copies OLD into a new volume: of an article that is in none of its groups any more only the message-id, the groups and the moment, \
of anything else all. Numbers, message-ids and what each client is answered stay as they are, for good. With other sizes it is how a \
volume grows. The new volume is made in a file whose name ends in .part, which is renamed once all of it is on disk. Until then OLD \
has all that it had. Prints how many articles were kept, and how many blocks and inodes are used before and after.";

/// The first subcommands in the order of the help, which make a volume or change one. Functions hand the table out in parts, so that no
/// proof of their callers reads it.
pub fn first_subcommands() -> &'static [Subcommand] {
    FIRST_ROWS
}

/// Those behind them, which serve a volume or ask its server.
pub fn serving_subcommands() -> &'static [Subcommand] {
    SERVING_ROWS
}

/// The last ones.
pub fn last_subcommands() -> &'static [Subcommand] {
    LAST_ROWS
}

const FIRST_ROWS: &[Subcommand] = &[
    Subcommand {
        name: "format",
        about: "Makes an empty volume in a file, in place of any file there",
        after_help: None,
        words: &[
            VOLUME,
            SERVER,
            BLOCKS_OF_FILE,
            INODES_OF_FILE,
            FORMAT_OF_FILE,
            Word {
                id: NEW,
                value: "",
                help: "Replaces no file that isn't empty",
                kind: Kind::Flag,
                grammar: Grammar::Any,
            },
        ],
        one_of: &[],
    },
    Subcommand {
        name: "group",
        about: "Adds a group to a volume that no server serves, and prints its serial",
        after_help: None,
        words: &[
            VOLUME,
            Word {
                id: NAME,
                value: "NAME",
                help: "The group, as in x.announce; at most 40 octets",
                kind: Kind::Operand,
                grammar: Grammar::Group,
            },
            Word {
                id: STATUS,
                value: "STATUS",
                help: "y where posting is permitted, else n",
                kind: Kind::Operand,
                grammar: Grammar::Status,
            },
            Word {
                id: MOMENT,
                value: "MOMENT",
                help: "When it is made: now, or seconds since 1970",
                kind: Kind::Operand,
                grammar: Grammar::Moment,
            },
            Word {
                id: DESCRIPTION,
                value: "DESCRIPTION",
                help: "What it is about, at most 200 octets of ASCII; not blank",
                kind: Kind::Operand,
                grammar: Grammar::Description,
            },
        ],
        one_of: &[],
    },
    Subcommand {
        name: "groups",
        about: "Adds the groups of a list to a volume that no server serves",
        after_help: Some(LISTING),
        words: &[
            VOLUME,
            Word {
                id: MOMENT,
                value: "MOMENT",
                help: "When they are made: now, or seconds since 1970",
                kind: Kind::Default("now"),
                grammar: Grammar::Moment,
            },
        ],
        one_of: &[],
    },
    Subcommand {
        name: "expire",
        about: "Takes articles out of groups of a volume that no server serves: up to a number, or by their age",
        after_help: Some(EXPIRING),
        words: &[
            VOLUME,
            Word {
                id: NAME,
                value: "NAME",
                help: "The group; with --older-than a wildmat, as in x.*,!x.announce, and all groups if it is left out",
                kind: Kind::LastOperand,
                grammar: Grammar::Any,
            },
            Word {
                id: NUMBER,
                value: "N",
                help: "The articles up to this number are taken out",
                kind: Kind::LastOperand,
                grammar: Grammar::Any,
            },
            Word {
                id: OLDER_THAN,
                value: "DAYS",
                help: "The articles before the first one that isn't older are taken out; DAYS is 1 to 36500",
                kind: Kind::Optional,
                grammar: Grammar::Days,
            },
            Word {
                id: DRY_RUN,
                value: "",
                help: "With --older-than: prints what would be taken out, and takes nothing out",
                kind: Kind::Flag,
                grammar: Grammar::Any,
            },
        ],
        one_of: &[],
    },
];

const SERVING_ROWS: &[Subcommand] = &[
    Subcommand {
        name: "expire-by",
        about: "Takes old articles out of groups of a volume that no server serves, by rules in a file",
        after_help: Some(RULING),
        words: &[
            VOLUME,
            Word {
                id: RULES,
                value: "RULES",
                help: "The file of the rules",
                kind: Kind::Operand,
                grammar: Grammar::Any,
            },
            Word {
                id: DRY_RUN,
                value: "",
                help: "Prints what would be taken out, and takes nothing out",
                kind: Kind::Flag,
                grammar: Grammar::Any,
            },
        ],
        one_of: &[],
    },
    Subcommand {
        name: "serve",
        about: "Serves a volume to news readers",
        after_help: Some(SERVING),
        words: &[
            VOLUME,
            Word {
                id: PORT,
                value: "P",
                help: "The same as --listen 127.0.0.1:P; P is 1 to 65535",
                kind: Kind::Port,
                grammar: Grammar::Any,
            },
            Word {
                id: LISTEN,
                value: "ADDRESS:PORT",
                help: "Address to listen on, as in 192.0.2.7:119 or [::]:119; may be given several times",
                kind: Kind::Repeated,
                grammar: Grammar::Endpoint,
            },
            Word {
                id: PROXIED,
                value: "ADDRESS:PORT",
                help: "The same for proxies, on the machine itself; may be given several times",
                kind: Kind::Repeated,
                grammar: Grammar::OwnEndpoint,
            },
            Word {
                id: ALLOW,
                value: "NETWORK",
                help: "Who may call, as in 192.0.2.7 or 2001:db8::/32; may be given several times",
                kind: Kind::Repeated,
                grammar: Grammar::Network,
            },
            Word {
                id: SESSIONS,
                value: "N",
                help: "At most so many sessions at one time, 1 to 4096",
                kind: Kind::Default("64"),
                grammar: Grammar::Seats,
            },
            Word {
                id: MOST_FROM,
                value: "N",
                help: "At most so many sessions for the callers of one address, 1 to 4096",
                kind: Kind::Option,
                grammar: Grammar::Seats,
            },
            Word {
                id: POSTS_FROM,
                value: "N",
                help: "Reads at most so many articles a minute from one address, 1 to 1000000; further ones wait",
                kind: Kind::Option,
                grammar: Grammar::Articles,
            },
            Word {
                id: METRICS,
                value: "FILE",
                help: "Writes what a monitor wants to know into this file, each 15 seconds",
                kind: Kind::Option,
                grammar: Grammar::Any,
            },
            Word {
                id: CONTROL,
                value: "SOCKET",
                help: "Takes the lines of standard input at this Unix socket as well, from `newsd ask`",
                kind: Kind::Option,
                grammar: Grammar::Any,
            },
            Word {
                id: QUIET,
                value: "",
                help: "Logs no beginnings, posts and ends of sessions",
                kind: Kind::Flag,
                grammar: Grammar::Any,
            },
        ],
        one_of: &[PORT, LISTEN, PROXIED],
    },
    Subcommand {
        name: "ask",
        about: "Asks a running server by the socket of --control, and prints its answer",
        after_help: Some(ASKING),
        words: &[
            Word {
                id: PATH,
                value: "SOCKET",
                help: "The socket, as `newsd serve --control` names it",
                kind: Kind::Operand,
                grammar: Grammar::Any,
            },
            Word {
                id: LINE,
                value: "LINE",
                help: "A line of the operator, as in status or expire x.announce 7; each word of it may be one of its own",
                kind: Kind::Rest,
                grammar: Grammar::LineWord,
            },
        ],
        one_of: &[],
    },
];

const LAST_ROWS: &[Subcommand] = &[
    Subcommand {
        name: "status",
        about: "Prints the state of a volume that no server serves: its blocks, its inodes and its groups",
        after_help: None,
        words: &[
            VOLUME,
            Word {
                id: JSON,
                value: "",
                help: "One JSON object on one line",
                kind: Kind::Flag,
                grammar: Grammar::Any,
            },
        ],
        one_of: &[],
    },
    Subcommand {
        name: "dump",
        about: "Prints the accepted changes of a volume that no server serves",
        after_help: None,
        words: &[VOLUME],
        one_of: &[],
    },
    Subcommand {
        name: "export",
        about: "Writes the articles of a volume that no server serves, as a batch for rnews",
        after_help: None,
        words: &[
            VOLUME,
            Word {
                id: NAME,
                value: "GROUP",
                help: "The articles of this group alone, in rising number",
                kind: Kind::LastOperand,
                grammar: Grammar::Group,
            },
            Word {
                id: CRLF,
                value: "",
                help: "Lines end in CRLF, as they are stored, and not in LF",
                kind: Kind::Flag,
                grammar: Grammar::Any,
            },
        ],
        one_of: &[],
    },
    Subcommand {
        name: "import",
        about: "Files the articles of a batch for rnews in a volume that no server serves",
        after_help: Some(IMPORTING),
        words: &[VOLUME],
        one_of: &[],
    },
    Subcommand {
        name: "renew",
        about: "Copies a volume that no server serves into a new one without the texts of articles that are gone",
        after_help: Some(RENEWING),
        words: &[
            Word {
                id: OLD,
                value: "OLD",
                help: "The file that holds the volume",
                kind: Kind::Operand,
                grammar: Grammar::Any,
            },
            Word {
                id: NEW,
                value: "NEW",
                help: "The file that is made",
                kind: Kind::LastOperand,
                grammar: Grammar::Any,
            },
            Word {
                id: IN_PLACE,
                value: "",
                help: "The new volume replaces OLD",
                kind: Kind::Flag,
                grammar: Grammar::Any,
            },
            BLOCKS_OF_RENEWED,
            INODES_OF_RENEWED,
            Word {
                id: JSON,
                value: "",
                help: "One JSON object on one line",
                kind: Kind::Flag,
                grammar: Grammar::Any,
            },
        ],
        one_of: &[],
    },
    Subcommand {
        name: "sim",
        about: "Plays a script of events from standard input over a device in memory",
        after_help: None,
        words: &[
            SERVER,
            BLOCKS_OF_MEMORY,
            INODES_OF_MEMORY,
            Word {
                id: CACHE,
                value: "",
                help: "Collects writes in memory until a sync",
                kind: Kind::Flag,
                grammar: Grammar::Any,
            },
        ],
        one_of: &[],
    },
];
