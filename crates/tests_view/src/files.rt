//! Files in memory that tests run on.

use ev_outside::{MemoryShelf, MemorySink};
use evview_run::{Status, run};
use std::alloc::{AllocError, Global};
use std::process::Abort;

/// A depot and a customer who is reached and left in a time of 8, past the instance's limit of 7.
pub const NARROW: &str =
    r#"{"t_max":7,"max_q":10,"css":[],"breakpoints_by_type":[],"process_times":[0,0],"energy_matrix":[[0,1],[1,0]],"time_matrix":[[0,4],[4,0]]}"#;

/// A plan of one customer without a station.
pub const OUT: &str = "evroute plan 1\nroutes 1\nroute 0 1 0\n";

/// Files in memory where `A` holds an instance and `P` a plan, and the calls with these numbers
/// fail.
pub fn shelf_with(
    alloc: Global,
    instance: &str,
    plan: &str,
    failing: &[u64],
) -> Result<MemoryShelf, AllocError> {
    let mut shelf = MemoryShelf::new(alloc, Vec::from_slice(alloc, failing)?);
    shelf.set("A", instance.as_bytes())?;
    shelf.set("P", plan.as_bytes())?;
    Ok(shelf)
}

/// The words of a line.
pub fn words_of(alloc: Global, line: &str) -> Result<Vec<String>, AllocError> {
    let mut words = Vec::new(alloc);
    for word in line.split(' ') {
        words.push(String::from_str(alloc, word)?)?;
    }
    Ok(words)
}

/// How the program ends on these files, and what it puts, where the calls of the output with these
/// numbers fail.
pub fn run_with(
    alloc: Global,
    line: &str,
    shelf: &mut MemoryShelf,
    failing_puts: &[u64],
) -> Result<(Status, Vec<u8>), AllocError> {
    let words = words_of(alloc, line)?;
    let mut out = MemorySink::new(alloc, Vec::from_slice(alloc, failing_puts)?);
    let status = run(alloc, words.as_slice(), shelf, &mut out);
    Ok((status, Vec::from_slice(alloc, out.bytes())?))
}

/// The program ends and puts so on these files, or the test fails.
pub fn assert_run(
    rt: &impl Abort,
    alloc: Global,
    line: &str,
    shelf: &mut MemoryShelf,
    status: Status,
    put: &str,
) {
    let ended = run_with(alloc, line, shelf, &[]).expect(rt, "memory");
    assert_eq!(rt; ended.1.as_slice(), put.as_bytes(), "{line}");
    assert_eq!(rt; ended.0, status, "{line}");
}

/// A file holds this text, or is not there, or the test fails.
pub fn assert_file(rt: &impl Abort, shelf: &MemoryShelf, name: &str, want: Option<&str>) {
    assert_eq!(rt; shelf.get(name), want.map(|text| text.as_bytes()), "{name}");
}
