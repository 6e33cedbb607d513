//! Tests of the operator's lines and answers.

use crate::plays::{Play, Stop, run};
use std::test::Fail;

/// The most lines that are handed on before an answer is read; one more is read.
const LINES: u64 = 64;

/// Appends a line of this many octets, without its LF, that asks for a group.
fn push_line(lines: &mut Vec<u8>, octets: usize) -> Result<(), Fail> {
    lines.extend_from_slice(b"group x.a y ")?;
    for _ in 18..octets {
        lines.push(b'0')?;
    }
    lines.extend_from_slice(b"1 test\n")?;
    Ok(())
}

#[test]
fn a_line_has_1024_octets_at_most(rt: HostRuntime) -> Result<(), Fail> {
    let mut lines = Vec::new(rt.alloc());
    push_line(&mut lines, 1025)?;
    push_line(&mut lines, 1024)?;
    push_line(&mut lines, 100_000)?;
    push_line(&mut lines, 18)?;
    let play = Play {
        lines,
        is_endless: false,
        is_read: true,
        durable: 2,
        posts: 0,
        stop: Stop::Groups(2),
    };
    let outcome = run(&rt, rt.alloc(), play).expect(&rt, "a play");
    assert!(rt; outcome.is_in_time);
    assert!(rt; outcome.text.as_slice() == b"E14 Bad\n1\nE14 Bad\n2\n".as_slice());
    Ok(())
}

#[test]
fn lines_wait_for_an_operator_who_reads_nothing(rt: HostRuntime) -> Result<(), Fail> {
    let mut lines = Vec::new(rt.alloc());
    push_line(&mut lines, 18)?;
    let play = Play {
        lines,
        is_endless: true,
        is_read: false,
        durable: 1000,
        posts: 0,
        stop: Stop::Groups(LINES),
    };
    let outcome = run(&rt, rt.alloc(), play).expect(&rt, "a play");
    assert!(rt; outcome.is_in_time);
    assert!(rt; outcome.groups == LINES && outcome.octets == (LINES + 1) * 19);
    assert!(rt; outcome.text.is_empty());
    Ok(())
}

/// What the operator sends and reads, and when the flusher stops.
struct Row {
    name: &'static str,
    lines: &'static str,
    /// The changes that sessions made, and those that are durable.
    posts: u64,
    durable: u64,
    stop: Stop,
    answers: &'static str,
}

const ROWS: &[Row] = &[
    Row {
        name: "a line before the stop is answered",
        lines: "group x.a y 1 test\ngroup x.a y 1 test\ngroup x.a y 1 test\ngroup x.a y 1 test\n",
        posts: 0,
        durable: 1,
        stop: Stop::Groups(2),
        answers: "1\nE1 Fault\nE4 Halted\nE4 Halted\n",
    },
    Row {
        name: "a refusal waits for the changes that it may report",
        lines: "expire x.a 1\n",
        posts: 3,
        durable: 3,
        stop: Stop::Groups(0),
        answers: "E12 NotFound\n",
    },
    Row {
        name: "a refusal is a fault if one of these changes is not durable",
        lines: "expire x.a 1\n",
        posts: 3,
        durable: 2,
        stop: Stop::Groups(0),
        answers: "E1 Fault\n",
    },
    Row {
        name: "what is old is taken out group by group, or listed",
        lines: "expire-older 30\nexpire-older 30 x.old\nlist-older 30 *,!x.old\nexpire-older 36500\nlist-older 1 x.new,y.*\nstop\n",
        posts: 0,
        durable: 3,
        stop: Stop::Asked,
        answers: "1 expire x.old 7\n2 expire x.older 40\narticles 38\n3 expire x.old 7\narticles 5\n\
            expire x.older 40\narticles 33\narticles 0\narticles 0\nstopped\n",
    },
    Row {
        name: "other words than days and a wildmat ask for nothing, and a group may have the name of an option",
        lines: "expire-older\nexpire-older \nexpire-older 0\nexpire-older 36501\nexpire-older x\nexpire-older 30 \n\
            expire-older 30 x.*,\nexpire-older 30 x.* x.b\nexpire-older  30\nlist-older\nlist-older 30 !x.a\nlist-older30\n\
            expire --older-than 30\nstop\n",
        posts: 0,
        durable: 0,
        stop: Stop::Asked,
        answers: "E14 Bad\nE14 Bad\nE14 Bad\nE14 Bad\nE14 Bad\nE14 Bad\nE14 Bad\nE14 Bad\nE14 Bad\nE14 Bad\nE14 Bad\n\
            E14 Bad\nE12 NotFound\nstopped\n",
    },
    Row {
        name: "an expiry that is not durable ends the answer",
        lines: "expire-older 30\nlist-older 30\nexpire-older 30\n",
        posts: 0,
        durable: 1,
        stop: Stop::Groups(2),
        answers: "1 expire x.old 7\nE1 Fault\nE1 Fault\nE4 Halted\n",
    },
    Row {
        name: "the status is a line of names and numbers",
        lines: "status\nstop\n",
        posts: 120,
        durable: 120,
        stop: Stop::Asked,
        answers: "host news.example format 1 blocks 1200 of 16384 inodes 310 of 8192 sessions 3 idle 0 \
            sending 0 held 0 accepted 120 durable 118 batches 0 syncs 63\nstopped\n",
    },
    Row {
        name: "another line than the word asks for nothing",
        lines: "status \n status\nstatus x\nStatus\nstops\nstop \n\nstop",
        posts: 0,
        durable: 0,
        stop: Stop::Asked,
        answers: "E14 Bad\nE14 Bad\nE14 Bad\nE14 Bad\nE14 Bad\nE14 Bad\nE14 Bad\nstopped\n",
    },
    Row {
        name: "without callers no session is listed, and none is ended",
        lines: "sessions\ndrop 1\ndrop 192.0.2.0/24\ndrop ::1\ndrop x\ndrop \ndrop\nsessions \nstop\n",
        posts: 0,
        durable: 0,
        stop: Stop::Asked,
        answers: "sessions 0\nE12 NotFound\nE12 NotFound\nE12 NotFound\nE14 Bad\nE14 Bad\nE14 Bad\nE14 Bad\nstopped\n",
    },
    Row {
        name: "a group before the stop is durable",
        lines: "group x.a y 1 test\nstop\n",
        posts: 4,
        durable: 5,
        stop: Stop::Asked,
        answers: "1\nstopped\n",
    },
    Row {
        name: "a group has a description that isn't blank",
        lines: "group x.a y 1\ngroup x.a y 1 \ngroup x.a y 1    \ngroup x.a y 1 \t\ngroup x.a y 1  a \nstop\n",
        posts: 4,
        durable: 5,
        stop: Stop::Asked,
        answers: "E14 Bad\nE14 Bad\nE14 Bad\nE14 Bad\n1\nstopped\n",
    },
    Row {
        name: "the server is stopped once, and says so twice",
        lines: "stop\nstop\n",
        posts: 0,
        durable: 0,
        stop: Stop::Asked,
        answers: "stopped\nstopped\n",
    },
    Row {
        name: "a line after the stop is answered",
        lines: "stop\ngroup x.a y 1 test\nexpire x.a 1\nstatus\nspool\n",
        posts: 2,
        durable: 2,
        stop: Stop::Asked,
        answers: "stopped\nE4 Halted\nE12 NotFound\nhost news.example format 1 blocks 1200 of 16384 inodes 310 of 8192 \
            sessions 3 idle 0 sending 0 held 0 accepted 2 durable 118 batches 0 syncs 63\nE14 Bad\n",
    },
    Row {
        name: "a device that fails before the flusher stops is a fault",
        lines: "stop\nstop\n",
        posts: 0,
        durable: 0,
        stop: Stop::Fails,
        answers: "E1 Fault\nE1 Fault\n",
    },
    Row {
        name: "a change that is not durable is a fault",
        lines: "stop\n",
        posts: 3,
        durable: 2,
        stop: Stop::Asked,
        answers: "E1 Fault\n",
    },
];

/// The rows, as a function, so that no proof of a test reads them.
fn rows() -> &'static [Row] {
    ROWS
}

#[test]
fn lines_are_answered(rt: HostRuntime) -> Result<(), Fail> {
    for row in rows() {
        let play = Play {
            lines: Vec::from_slice(rt.alloc(), row.lines.as_bytes())?,
            is_endless: false,
            is_read: true,
            durable: row.durable,
            posts: row.posts,
            stop: row.stop,
        };
        let outcome = run(&rt, rt.alloc(), play).expect(&rt, "a play");
        assert!(rt; outcome.is_in_time, "{}", row.name);
        assert!(rt;
            outcome.text.as_slice() == row.answers.as_bytes(),
            "{}",
            row.name
        );
    }
    Ok(())
}
