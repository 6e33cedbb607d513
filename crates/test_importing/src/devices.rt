//! A device that fails at a call of an import: a crash leaves the first changes, the import is made again, and each article is
//! there once.

use crate::volumes::{articles, device, opened};
use crate::watching::Log;
use disk::{DiskCall, Faults};
use disk_memory::{MemDisk, Pick};
use std::alloc::Global;
use std::rt::HostRuntime;
use std::test::Fail;
use volume_importing::{ImportError, import};

/// Imports the batch. Answers the device, and whether it failed.
fn imported(alloc: Global, disk: MemDisk, octets: &[u8]) -> Result<(MemDisk, bool), Fail> {
    let mut store = opened(alloc, disk)?;
    let mut log = Log::new(alloc);
    let mut input = octets;
    let failed = match import(alloc, &mut store, &mut input, &mut log) {
        Ok(_) => false,
        Err(ImportError::Device(_)) => true,
        Err(_) => return Err("not the device")?,
    };
    Ok((store.into_disk(), failed))
}

/// Imports the batch, and opens the device, which may crash before. Answers the device, whether it failed, and its changes and
/// those that are durable.
fn came_to(
    alloc: Global,
    disk: MemDisk,
    octets: &[u8],
    crash: Option<Pick>,
) -> Result<(MemDisk, (bool, u64, u64)), Fail> {
    let (mut disk, has_failed) = imported(alloc, disk, octets)?;
    if let Some(pick) = crash {
        disk.crash(&[pick]);
    }
    let store = opened(alloc, disk)?;
    let (all, durable) = store.len();
    Ok((store.into_disk(), (has_failed, all, durable)))
}

/// A call that fails within an import of its own, and what is left of that.
#[derive(Clone, Copy)]
struct Fault {
    kind: DiskCall,
    /// Its number among the import's calls of this kind. The opening makes one sync and writes nothing.
    call: u64,
    /// The numbers of the articles, from this one to the one before that.
    from: u64,
    to: u64,
    /// What a crash then makes of the octets that no sync covers, and the changes that it leaves, two groups among them.
    pick: Pick,
    left: u64,
    /// The changes after the import was made again.
    all: u64,
}

/// The last two fail at the sync that commits.
const FAULTS: [Fault; 5] = [
    Fault {
        kind: DiskCall::Write,
        call: 1,
        from: 0,
        to: 10,
        pick: Pick::New,
        left: 2,
        all: 12,
    },
    Fault {
        kind: DiskCall::Write,
        call: 5,
        from: 10,
        to: 20,
        pick: Pick::New,
        left: 12,
        all: 22,
    },
    Fault {
        kind: DiskCall::Sync,
        call: 2,
        from: 20,
        to: 30,
        pick: Pick::New,
        left: 22,
        all: 32,
    },
    Fault {
        kind: DiskCall::Sync,
        call: 3,
        from: 30,
        to: 40,
        pick: Pick::Old,
        left: 32,
        all: 42,
    },
    Fault {
        kind: DiskCall::Sync,
        call: 3,
        from: 40,
        to: 50,
        pick: Pick::New,
        left: 52,
        all: 52,
    },
];

#[test]
fn an_import_is_made_again_after_a_fault(rt: HostRuntime) -> Result<(), Fail> {
    let alloc = rt.alloc();
    let mut disk = device(alloc, 1024, 64)?;
    for fault in FAULTS {
        let Fault { kind, call, .. } = fault;
        let octets = articles(alloc, fault.from, fault.to)?;
        disk.fail_kind(kind, call);
        let (crashed, first) = came_to(alloc, disk, &octets, Some(fault.pick))?;
        let (whole, second) = came_to(alloc, crashed, &octets, None)?;
        assert_eq!(rt; first, (true, fault.left, fault.left), "{kind:?} {call}");
        assert_eq!(rt; second, (false, fault.all, fault.all), "{kind:?} {call}");
        disk = whole;
    }
    Ok(())
}
