//! Groups as INN lists them: what the lines of its files `active` and `newsgroups` ask for. `specs/Lists.antt` says what each
//! line means.
#![tactic(auto)]

mod faults;
mod lines;
mod reading;

pub use faults::ListFault;
pub use reading::{Listed, read_list};
