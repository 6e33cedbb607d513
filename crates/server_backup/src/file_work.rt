//! What is done about the files of backups by the thread that called the server: it alone may make, name and remove files.

use crate::no_backup::NoBackup;
use crossbeam_channel::Sender;
use disk_file::{FileDisk, give_name, sync_directory};
use std::alloc::{AllocError, Global};
use std::fs::{self, File};
use std::io::{self, ErrorKind};
use std::rt::Files;
use std::sync::Wait;

/// What a console asks for, with the path of the backup and the way of the answer.
#[derive(Drop)]
pub enum FileWork {
    /// A file of so many octets beside the path, where nothing stands at the path.
    Make {
        path: String,
        octets: u64,
        made: Sender<Result<FileDisk, NoBackup>>,
    },
    /// The name for it, durably.
    Name {
        path: String,
        named: Sender<Result<(), NoBackup>>,
    },
    /// The file beside the path taken away.
    Remove {
        path: String,
        removed: Sender<Result<(), NoBackup>>,
    },
}

impl FileWork {
    /// Does it, and answers. It waits for nobody but the file system.
    pub fn carry_out<R: Files<File = File> + Wait>(self, rt: &R, alloc: Global, parts: &mut Parts) {
        match self {
            FileWork::Make { path, octets, made } => {
                let _ = made.send(rt, parts.make(rt, alloc, path.as_str(), octets));
            }
            FileWork::Name { path, named } => {
                let _ = named.send(rt, parts.name(rt, alloc, path.as_str()));
            }
            FileWork::Remove { path, removed } => {
                let _ = removed.send(rt, parts.remove(rt, alloc, path.as_str()));
            }
        }
    }
}

/// The files of the backups that are under way: they were made, and neither named nor removed.
#[derive(Drop)]
pub struct Parts {
    paths: Vec<String>,
}

impl Parts {
    /// None.
    pub fn new(alloc: Global) -> Parts {
        Parts {
            paths: Vec::new(alloc),
        }
    }

    /// Removes all of them, where a server ends: nobody will ask for that any more, nor for their names. What can't be removed is left.
    pub fn remove_all<R: Files<File = File>>(&self, rt: &R) {
        for part in &self.paths {
            let _ = fs::remove_file(rt, part.as_str());
        }
    }

    /// Makes the file of a backup beside its path: its name ends in `.part`. It is made in place of what stands there, which is neither
    /// followed nor opened. Refused, too, if anything stands at the path.
    fn make<R: Files<File = File>>(
        &mut self,
        rt: &R,
        alloc: Global,
        path: &str,
        octets: u64,
    ) -> Result<FileDisk, NoBackup> {
        match fs::symlink_metadata(rt, path) {
            Ok(_) => return Err(NoBackup::Exists),
            Err(error) if error.kind() == ErrorKind::NotFound => {}
            Err(error) => return Err(NoBackup::unnamed(error)),
        }
        let part = part_of(alloc, path)?;
        self.paths.reserve(1)?;
        let disk = FileDisk::make(rt, part.as_str(), octets, None)?;
        // there is room for it
        let _ = self.paths.push(part);
        Ok(disk)
    }

    /// Gives the file of a backup its name, and makes that durable. A refusal leaves what stands at the path, and nothing beside it.
    fn name<R: Files<File = File>>(
        &mut self,
        rt: &R,
        alloc: Global,
        path: &str,
    ) -> Result<(), NoBackup> {
        let part = part_of(alloc, path)?;
        let named = name_durably(rt, part.as_str(), path);
        self.forget(part.as_str());
        named.map_err(NoBackup::unnamed)
    }

    /// Removes the file beside a path. Its maker still has its lock, so it is the one that was made.
    fn remove<R: Files<File = File>>(
        &mut self,
        rt: &R,
        alloc: Global,
        path: &str,
    ) -> Result<(), NoBackup> {
        let part = part_of(alloc, path)?;
        self.forget(part.as_str());
        fs::remove_file(rt, part.as_str()).map_err(NoBackup::unnamed)
    }

    /// A file is under way no longer.
    fn forget(&mut self, part: &str) {
        self.paths.retain(|it| it.as_str() != part);
    }
}

/// The path of the file that becomes the backup at this path.
fn part_of(alloc: Global, path: &str) -> Result<String, AllocError> {
    format!(in alloc; "{path}.part")
}

fn name_durably<R: Files<File = File>>(rt: &R, part: &str, path: &str) -> io::Result<()> {
    give_name(rt, part, path)?;
    sync_directory(rt, path)
}
