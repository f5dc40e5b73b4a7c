use crate::files::words_of;
use command_line::usage;
use ev_outside::{SureShelf, SureSink};
use evroute_run::{Status, run_surely};
use std::alloc::AllocError;
use worked_instances::ONE_STATION;

#[test]
fn no_words_put_the_usage_text(rt: HostRuntime) {
    let alloc = rt.alloc();
    let mut out = SureSink::new(alloc);
    let status = run_surely(alloc, &[], &mut SureShelf::new(alloc), &mut out);
    assert_eq!(rt; status, Status::Words);
    assert_eq!(rt; out.bytes(), usage().as_bytes());
}

#[test]
fn a_route_is_charged_over_files_that_never_fail(rt: HostRuntime) -> Result<(), AllocError> {
    let alloc = rt.alloc();
    let mut shelf = SureShelf::new(alloc);
    shelf.set("A", ONE_STATION.as_bytes())?;
    let mut out = SureSink::new(alloc);
    let words = words_of(alloc, "fixed A 0,1,0")?;
    let status = run_surely(alloc, words.as_slice(), &mut shelf, &mut out);
    assert_eq!(rt; status, Status::Done);
    assert!(rt; out.bytes().starts_with(b"time 43/2\n"));
    Ok(())
}
