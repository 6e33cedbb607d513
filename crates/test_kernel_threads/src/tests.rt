//! Tests of threads that share a kernel.

use crate::shared::{Outcome, share};

#[test]
fn two_posters_file_each_article_once(rt: HostRuntime) {
    let told = Outcome {
        changes: 201,
        has_each_id: true,
        has_each_number: true,
        was_put_off: true,
    };
    assert_eq!(rt; share(&rt, rt.alloc()), Some(told));
}
