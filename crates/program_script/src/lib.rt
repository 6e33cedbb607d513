//! The script language of `newsd sim`: one event per line, and the printed form of octets. `specs/Script.antt` says
//! what each line means, `specs/Words.antt` what its words are, `specs/Printed.antt` how octets are printed.
#![tactic(auto)]

mod printed;
mod script_lines;
mod words;

pub use printed::escaped;
pub use script_lines::{Line, ParseError, parse, parse_at, read_expiry, read_group};
pub use words::{
    MOST_DAYS, days, is_blank, moment, moment_at, number, split_at, split_word, status,
};
