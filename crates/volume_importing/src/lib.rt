//! Files the texts of a batch in a volume that no server serves, as transfers (IHAVE) would be, and makes them durable.
#![tactic(auto)]

mod batch_filing;

pub use batch_filing::{ImportCounts, ImportError, ImportStop, Place, Report, Watcher, import};
