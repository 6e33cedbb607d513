//! Tests of a running server and its callers.

use crate::hooks::{Holds, gather_until, note_until_quiet};
use crate::plays::{Outcome, play, raises_after_commit, tell};
use kernel_shared::{Arrivals, Stale};
use server::ServeError;
use std::sync::atomic::AtomicBool;
use std::thread::{Parker, join};

/// A play in which all went well, and whose last commit was refused.
const GOOD: Outcome = Outcome {
    is_read: true,
    has_failed: false,
    ended: ServeError::Halted,
    answered: 0,
};

/// One whose operator was answered with the serial 3: `3` and LF.
const TOLD: Outcome = Outcome {
    answered: 0x330a,
    ..GOOD
};

/// One whose device failed.
const FAULT: Outcome = Outcome {
    ended: ServeError::Fault,
    ..GOOD
};

const PLAYS: &[(Holds, Outcome)] = &[
    // a client reads its replies
    (Holds::Nothing, GOOD),
    // a flush and commands overlap
    (Holds::Flush, GOOD),
    // another session's post commits while a release is held
    (Holds::Release, GOOD),
    // what commits while a line is taken is released
    (Holds::Taken, GOOD),
    // the operator's serial waits for the mark
    (Holds::Answer, TOLD),
    // a fault ends the server, though the operator reads nothing
    (Holds::Fault, FAULT),
    (Holds::Unread, FAULT),
];

/// The plays, as a function, so that no proof of a test reads them.
fn plays() -> &'static [(Holds, Outcome)] {
    PLAYS
}

#[test]
fn each_play_ends_as_it_must(rt: HostRuntime) {
    for (holds, wanted) in plays() {
        assert_eq!(rt; play(&rt, rt.alloc(), *holds), Some(*wanted), "{holds:?}");
    }
}

#[test]
fn a_raise_follows_committed(rt: HostRuntime) {
    assert!(rt; raises_after_commit(&rt, rt.alloc()));
}

#[test]
fn a_stale_ticket_is_refused(rt: HostRuntime) {
    assert_eq!(rt;
        tell(&rt, rt.alloc()),
        Some([Ok(()), Err(Stale), Err(Stale)])
    );
}

#[test]
fn a_wait_for_blocks_that_do_not_come_ends(rt: HostRuntime) {
    let (arrivals, bell) = (Arrivals::new(), Parker::new());
    assert!(rt; arrivals.note(true));
    assert!(rt; !arrivals.note(false));
    arrivals.note_commit();
    arrivals.gather(&rt, &bell, 2);
    assert!(rt; arrivals.note(true));
    arrivals.hurry();
    arrivals.gather(&rt, &bell, 1_000_000);
    assert!(rt; arrivals.note(true));
}

#[test]
fn a_block_before_the_awaited_one_rings_nobody(rt: HostRuntime) {
    let (arrivals, has_ended) = (Arrivals::new(), AtomicBool::new(false));
    let ((), is_quiet) = join(
        &rt,
        || gather_until(&rt, &arrivals, &has_ended),
        || note_until_quiet(&arrivals, &has_ended),
    );
    assert!(rt; is_quiet);
    assert!(rt; arrivals.note(true));
}
