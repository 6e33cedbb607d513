//! The tests.

use crate::plays::{Left, Play, stop};
use crate::props::Callers;

/// The operator stops a server that nobody calls.
const IDLE: Play = Play {
    first: b"",
    last: b"stop\n",
    callers: Callers::None,
    failing_sync: 0,
    told: "stopped\n",
};

/// The device fails at the operator's change, and the next line stops the server.
const FAULT: Play = Play {
    last: b"group x.c y 1000000000 test\nstop\n",
    failing_sync: 1,
    told: "E1 Fault\nE1 Fault\n",
    ..IDLE
};

/// A server that ended as it was asked to, with every acknowledged article on its device.
const STOPPED: Left = Left {
    is_good: true,
    is_told: true,
    is_acknowledged: true,
    is_durable: true,
    is_busy: true,
};

/// A server that accepted a change which is not on its device.
const FAILED: Left = Left {
    is_good: false,
    is_acknowledged: false,
    is_durable: false,
    ..STOPPED
};

/// What a row shows, its play, and what the play has to leave.
type Row = (&'static str, Play, Left);

const ROWS: &[Row] = &[
    ("a server with nothing to do stops", IDLE, STOPPED),
    (
        "a stop commits and releases what callers post",
        Play {
            last: b"stop\nstop\n",
            callers: Callers::Post,
            ..IDLE
        },
        STOPPED,
    ),
    ("a stop of a device that fails is a fault", FAULT, FAILED),
    (
        "a stop after a fault waits for no caller",
        Play {
            first: b"group x.c y 1000000000 test\n",
            last: b"stop\n",
            callers: Callers::Late,
            ..FAULT
        },
        FAILED,
    ),
    (
        "a stop lets the last reply arrive",
        Play {
            callers: Callers::Ask,
            ..IDLE
        },
        STOPPED,
    ),
];

/// The rows, as a function, so that no proof of a test reads them.
fn rows() -> &'static [Row] {
    ROWS
}

#[test]
fn each_stop_leaves_what_it_must(rt: HostRuntime) {
    for (name, play, left) in rows() {
        assert_eq!(rt; stop(&rt, rt.alloc(), *play), Some(*left), "{name}");
    }
}
