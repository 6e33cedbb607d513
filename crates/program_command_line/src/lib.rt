//! The command line of `newsd`: the request that its words make.
#![tactic(auto)]

mod word_reading;

pub use program_command_table::VERSION;
pub use word_reading::{
    AgedExpiry, Asked, CallerLimits, Export, GroupList, NO_TIME, NewVolume, Question, Renewal,
    RuledExpiry, ServeOptions, read_words,
};
