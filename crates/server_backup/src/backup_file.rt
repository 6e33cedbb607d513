//! A backup, from the line that asks for it to its file.

use crate::backup_plan::BackupPlan;
use crate::file_work::FileWork;
use crate::no_backup::NoBackup;
use crate::portions::Portions;
use crossbeam_channel::{Receiver, Sender, unbounded};
use disk::Disk;
use disk_file::FileDisk;
use server_consoles::Console;
use std::alloc::{AllocError, Global};
use std::sync::Wait;
use volume_new::device_octets;

/// How a line begins that asks for a backup. The rest is the path.
const ASKS: &[u8] = b"backup ";

/// A copy of the path that a line names which asks for a backup; `None` if it asks for something else. Refused only for want of memory.
pub fn path_of(alloc: Global, line: &[u8]) -> Result<Option<Vec<u8>>, AllocError> {
    match line.strip_prefix(ASKS) {
        Some(path) => Ok(Some(Vec::from_slice(alloc, path)?)),
        None => Ok(None),
    }
}

/// What backups are made with: a way to the flusher, the plan of the volume, and a way to the thread that may make files.
#[derive(Clone, Copy)]
pub struct Backups<'a> {
    pub console: &'a Console,
    pub plan: &'a BackupPlan,
    pub files: &'a Sender<FileWork>,
}

impl<'a> Backups<'a> {
    /// Makes a backup at a path, as `NoBackup` says where that is refused, and answers how many changes it has: at least those that were
    /// durable before. The file gets its name once it is durable.
    pub fn make<R: Wait>(self, rt: &R, alloc: Global, path: &[u8]) -> Result<u64, NoBackup> {
        let path = match str::from_utf8(path) {
            Ok(path) if path.starts_with('/') => path,
            _ => return Err(NoBackup::Bad),
        };
        let mut disk = self.file(rt, alloc, path)?;
        match self.write(rt, alloc, &mut disk) {
            Ok(changes) => {
                self.name(rt, alloc, path)?;
                Ok(changes)
            }
            // a server that ends removes the file itself
            Err(NoBackup::Halted) => Err(NoBackup::Halted),
            Err(refused) => {
                let _ = self.remove(rt, alloc, path);
                Err(refused)
            }
        }
    }

    /// Has the file made.
    fn file<R: Wait>(self, rt: &R, alloc: Global, path: &str) -> Result<FileDisk, NoBackup> {
        let (made, answer) = unbounded(alloc)?;
        let work = FileWork::Make {
            path: String::from_str(alloc, path)?,
            octets: device_octets(self.plan.blocks()),
            made,
        };
        self.ask(rt, work)?;
        answer_of(rt, &answer)
    }

    /// Has the file named.
    fn name<R: Wait>(self, rt: &R, alloc: Global, path: &str) -> Result<(), NoBackup> {
        let (named, answer) = unbounded(alloc)?;
        let path = String::from_str(alloc, path)?;
        self.ask(rt, FileWork::Name { path, named })?;
        answer_of(rt, &answer)
    }

    /// Has the file removed.
    fn remove<R: Wait>(self, rt: &R, alloc: Global, path: &str) -> Result<(), NoBackup> {
        let (removed, answer) = unbounded(alloc)?;
        let path = String::from_str(alloc, path)?;
        self.ask(rt, FileWork::Remove { path, removed })?;
        answer_of(rt, &answer)
    }

    /// Hands work on, and wakes the thread that does it. Where the server ends meanwhile it is done at the end, without being woken.
    fn ask<R: Wait>(self, rt: &R, work: FileWork) -> Result<(), NoBackup> {
        if self.files.send(rt, work).is_err() {
            return Err(NoBackup::Halted);
        }
        let _ = self.console.wake_watcher(rt);
        Ok(())
    }

    /// Writes a backup to the device of its file.
    fn write<R: Wait>(self, rt: &R, alloc: Global, disk: &mut FileDisk) -> Result<u64, NoBackup> {
        // the file was made with this length
        if disk.len() != device_octets(self.plan.blocks()) {
            return Err(NoBackup::Fault);
        }
        let portions = Portions::ask(rt, alloc, self.console, self.plan.blocks() as u32)?;
        portions.write_all(rt, alloc, self.plan, disk)
    }
}

/// What the thread answers that does the work. `Halted` if it has ended.
fn answer_of<R: Wait, T: Drop>(
    rt: &R,
    answer: &Receiver<Result<T, NoBackup>>,
) -> Result<T, NoBackup> {
    match answer.recv(rt) {
        Ok(outcome) => outcome,
        Err(_) => Err(NoBackup::Halted),
    }
}
