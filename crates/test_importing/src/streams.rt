//! Streams that fail within a batch: what came before is durable and counted.

use crate::octets::Octets;
use crate::volumes::{articles, batch, store};
use crate::watching::{Log, said_to};
use std::alloc::Global;
use std::io::{self, ErrorKind, Read};
use std::rt::HostRuntime;
use std::test::Fail;

/// Octets after which a read fails.
#[derive(Drop)]
struct Torn<'a> {
    octets: &'a [u8],
}

impl<'a> Read for Torn<'a> {
    fn read(&mut self, into: &mut [u8]) -> io::Result<usize> {
        if self.octets.is_empty() {
            return Err(io::Error::from(ErrorKind::ConnectionReset));
        }
        self.octets.read(into)
    }
}

#[test]
fn a_read_that_fails_ends_an_import(rt: HostRuntime) -> Result<(), Fail> {
    let alloc = rt.alloc();
    let mut store = store(alloc)?;
    let octets = articles(alloc, 0, 3)?;
    let mut input = Torn { octets: &octets };
    let found = said_to(alloc, &mut store, &mut input, Log::new(alloc))?;
    assert_eq!(rt;
        found.as_str(),
        "filed 3\nhere 0\nno group 0\nrefused 0\noctet 414: connection reset\n"
    );
    assert_eq!(rt; store.len(), (5, 5));
    Ok(())
}

/// A text that is refused between two that are not.
fn refused_in_between(alloc: Global) -> Result<Vec<u8>, Fail> {
    let mut octets = articles(alloc, 0, 1)?;
    octets.extend_from_slice(&batch(alloc, &[Octets::Are(b"Path: p\n")], b"")?)?;
    octets.extend_from_slice(&articles(alloc, 1, 2)?)?;
    Ok(octets)
}

#[test]
fn a_refusal_that_cannot_be_told_ends_an_import(rt: HostRuntime) -> Result<(), Fail> {
    let alloc = rt.alloc();
    let mut store = store(alloc)?;
    let octets = refused_in_between(alloc)?;
    let mut input = octets.as_slice();
    let found = said_to(alloc, &mut store, &mut input, Log::deaf(alloc))?;
    assert_eq!(rt;
        found.as_str(),
        "filed 1\nhere 0\nno group 0\nrefused 1\n  1 no empty line follows the header\noctet 138: broken pipe\n"
    );
    assert_eq!(rt; store.len(), (3, 3));
    Ok(())
}
