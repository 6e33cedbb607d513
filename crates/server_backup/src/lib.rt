//! A backup of the volume of a running server, which a console of the operator asks for and writes (docs/OPERATING.md). `server_copying`
//! says how its blocks come; the file is made anew beside its path, and gets its name once it is whole and durable.
#![tactic(auto)]

mod backup_file;
mod backup_plan;
mod file_work;
mod no_backup;
mod portions;

pub use backup_file::{Backups, path_of};
pub use backup_plan::BackupPlan;
pub use file_work::{FileWork, Parts};
pub use no_backup::NoBackup;
