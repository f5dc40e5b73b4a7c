//! What `fixed` puts, read back.

use crate::asserting::assert_text;
use fixed_reader::read_fixed;
use instance_reader::read_instance;
use plan_writer::push_fixed;
use std::alloc::Global;
use worked_instances::ONE_STATION;

/// What `fixed` puts of what is read of a text, on the instance with one station.
fn put_again(alloc: Global, text: &str) -> Option<Vec<u8>> {
    let inst = read_instance(alloc, ONE_STATION.as_bytes()).ok()?;
    let found = read_fixed(alloc, text.as_bytes(), inst.denominator()).ok()?;
    let route = match &found {
        Some(route) => Some((&route.plan, route.time)),
        None => None,
    };
    let mut out = Vec::new(alloc);
    push_fixed(alloc, &mut out, &inst, route).ok()?;
    Some(out)
}

#[test]
fn what_fixed_puts_is_read_and_put_again(rt: HostRuntime) {
    let alloc = rt.alloc();
    for &text in &[
        "time 43/2\nat 0\nvia 2 charge 1\nat 1\nat 0\n",
        "time 0/2\n",
        "infeasible\n",
    ] {
        assert_text(&rt, put_again(alloc, text), text);
    }
}
