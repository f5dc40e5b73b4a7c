//! What becomes of files and output where calls fail.

use crate::files::{run_with, shelf_with};
use evgap_run::Status;
use worked_instances::ONE_STATION;

#[test]
fn a_call_that_fails_is_a_fault(rt: HostRuntime) {
    let alloc = rt.alloc();
    // Of both files of `plan` it is asked first whether they can be written.
    for &(line, calls) in &[("plan A O C", 5), ("check A P Q", 1)] {
        for failing in 0..calls {
            let mut shelf = shelf_with(alloc, ONE_STATION, "", "", &[failing]).expect(
                &rt, "memory",
            );
            let ended = run_with(alloc, line, &mut shelf, &[]).expect(&rt, "memory");
            assert_eq!(rt; ended.0, Status::Fault, "{line} {failing}");
            assert!(rt; ended.1.is_empty(), "{line} {failing}");
            assert!(rt; shelf.get("C").is_none(), "{line} {failing}");
        }
    }
}

#[test]
fn an_output_that_fails_is_a_fault_behind_both_files(rt: HostRuntime) {
    let alloc = rt.alloc();
    let mut shelf = shelf_with(alloc, ONE_STATION, "", "", &[]).expect(&rt, "memory");
    let ended = run_with(alloc, "plan A O C", &mut shelf, &[0]).expect(&rt, "memory");
    assert_eq!(rt; ended.0, Status::Fault);
    assert!(rt; shelf.get("O").is_some() && shelf.get("C").is_some());
}
