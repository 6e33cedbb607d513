//! Tests of the orders, of callers that take little, and of each fate that a block may have.

use crate::leaving::{Fate, leave};
use crate::plays::{Order, Then, play};
use crate::races::race;
use crate::stalls::{keeps, lets_go};
use test_support_releasing::{Point, make_store};

/// When the commit and the release that follows it happen.
const ORDERS: [(Point, Then); 17] = [
    // while the session's thread has the lock
    (Point::AfterAnswer, Then::Send),
    (Point::AfterAnswer, Then::Release),
    (Point::BeforeWrite, Then::Send),
    (Point::AfterWrite, Then::Send),
    (Point::BeforeWrite, Then::Release),
    (Point::BeforeGive, Then::Release),
    (Point::AfterGive, Then::Release),
    (Point::AfterGive, Then::Finish),
    // while no thread has the lock
    (Point::BeforeThen, Then::Send),
    (Point::BeforeWait, Then::Finish),
    (Point::Nowhere, Then::Finish),
    (Point::Nowhere, Then::Send),
    // the next message arrives while the releaser has the lock
    (Point::BeforeGive, Then::Date),
    (Point::AfterGive, Then::Date),
    (Point::BeforeWrite, Then::Date),
    // the socket takes nothing
    (Point::Nowhere, Then::Fill),
    // the server ends after the last pass that found a reply held
    (Point::AfterGive, Then::End),
];

/// What happens to blocks that are left. After the last one the kernel is halted.
const FATES: [Fate; 11] = [
    Fate::Accepted,
    Fate::Refused,
    Fate::Untold,
    Fate::Filed,
    Fate::TakenBack,
    Fate::Dirty,
    Fate::DirtyTakenBack,
    Fate::Unsent,
    Fate::Held,
    Fate::Slow,
    Fate::Halted,
];

#[test]
fn no_order_loses_a_release(rt: HostRuntime) {
    let store = make_store(&rt, rt.alloc()).expect(&rt, "a store");
    let mut number = 0u64;
    for (point, then) in ORDERS {
        number = number.saturating_add(1);
        let order = Order {
            point,
            then,
            number,
        };
        assert!(rt; play(&rt, rt.alloc(), &store, order), "{point:?} {then:?}");
    }
}

#[test]
fn no_race_loses_a_release(rt: HostRuntime) {
    assert_eq!(rt; race(&rt, rt.alloc()), Some(()));
}

#[test]
fn a_caller_that_takes_nothing_is_let_go(rt: HostRuntime) {
    assert_eq!(rt; lets_go(&rt, rt.alloc()), Some(true));
}

#[test]
fn a_caller_that_takes_little_is_not(rt: HostRuntime) {
    assert_eq!(rt; keeps(&rt, rt.alloc()), Some(true));
}

#[test]
fn a_block_that_is_left_is_answered_once(rt: HostRuntime) {
    let store = make_store(&rt, rt.alloc()).expect(&rt, "a store");
    let mut number = 0u64;
    for fate in FATES {
        number = number.saturating_add(1);
        assert_eq!(rt;
            leave(&rt, rt.alloc(), &store, fate, number),
            Some(true),
            "{fate:?}"
        );
    }
}
