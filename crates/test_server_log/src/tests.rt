//! The tests.

use crate::logs::{
    OFTEN, lines_of, never_read, once_of_a_full_log, once_of_an_idle_log, posts_told, read_late,
    writes_of_a_full_log, written_in_part,
};
use crate::plays::{Outcome, play};
use crate::scenes::Scene;
use server::ServeError;
use server_logging::{Cause, LogEvent, Verbosity};

/// A play in which all went well, and which the operator stopped.
const GOOD: Outcome = Outcome {
    is_good: true,
    ended: Ok(()),
    full: 1,
    stopped: 0,
};

/// A play whose device failed.
const FAULT: Outcome = Outcome {
    ended: Err(ServeError::Fault),
    ..GOOD
};

/// How each scene ends. A fault ends all listeners.
const SCENES: &[(Scene, Outcome)] = &[
    (Scene::Ends, GOOD),
    (Scene::Nothing, GOOD),
    (Scene::Silence, GOOD),
    (Scene::Slow, GOOD),
    (Scene::Stall, GOOD),
    (Scene::Crowd, GOOD),
    (Scene::Fault, FAULT),
];

/// The scenes, as a function, so that no proof of a test reads them.
fn scenes() -> &'static [(Scene, Outcome)] {
    SCENES
}

#[test]
fn the_log_tells_of_each_scene(rt: HostRuntime) {
    for (scene, wanted) in scenes() {
        assert_eq!(rt; play(&rt, rt.alloc(), *scene), Some(*wanted), "{scene:?}");
    }
}

#[test]
fn a_log_tells_of_lost_lines(rt: HostRuntime) {
    assert_eq!(rt; read_late(&rt, rt.alloc()), Some(true));
}

#[test]
fn no_caller_takes_the_room_of_what_comes_once(rt: HostRuntime) {
    assert_eq!(rt; once_of_a_full_log(&rt, rt.alloc()), Some(true));
    assert_eq!(rt; once_of_an_idle_log(&rt, rt.alloc()), Some(true));
}

/// The fault has a write of its own, and so have the lost lines. The others are written 256 at a time: among the first is the call that
/// woke the thread for the fault, so there are five writes of them.
#[test]
fn lines_that_are_there_are_written_together(rt: HostRuntime) {
    assert_eq!(rt; writes_of_a_full_log(&rt, rt.alloc()), Some(7));
}

#[test]
fn a_log_tells_of_lines_that_cannot_be_written(rt: HostRuntime) {
    let ends = [
        " event=opening step=checking",
        " event=lost lines=1",
        " event=opening step=checking",
    ];
    assert_eq!(rt; written_in_part(&rt, rt.alloc(), OFTEN, &ends), Some(true));
}

#[test]
fn what_comes_once_stays_until_it_is_written(rt: HostRuntime) {
    let ends = [
        " event=opening step=checking",
        " event=fault error=io",
        " event=opening step=checking",
    ];
    let fault = LogEvent::Fault(Cause::Io);
    assert_eq!(rt; written_in_part(&rt, rt.alloc(), fault, &ends), Some(true));
}

#[test]
fn a_log_that_nobody_reads_holds_nobody(rt: HostRuntime) {
    assert_eq!(rt; never_read(&rt, rt.alloc()), Some(true));
}

#[test]
fn a_quiet_log_has_no_ends(rt: HostRuntime) {
    assert_eq!(rt; lines_of(&rt, rt.alloc(), Verbosity::All), Some(2));
    assert_eq!(rt; lines_of(&rt, rt.alloc(), Verbosity::Quiet), Some(1));
}

#[test]
fn a_post_is_told_once_it_is_durable(rt: HostRuntime) {
    assert_eq!(rt; posts_told(&rt, rt.alloc(), &[1, 2, 3], 0), Some(0));
    assert_eq!(rt; posts_told(&rt, rt.alloc(), &[1, 2, 3], 2), Some(2));
    assert_eq!(rt; posts_told(&rt, rt.alloc(), &[3, 1], 1), Some(1));
    assert_eq!(rt; posts_told(&rt, rt.alloc(), &[3, 1], 3), Some(2));
}
