//! Files in memory that tests run on.

use ev_outside::{MemoryShelf, MemorySink};
use evgap_run::{AtOnce, Evgap, Nobody, Status, run};
use std::alloc::{AllocError, Global};
use std::process::Abort;

/// Files in memory where `A` holds an instance, `S` and `P` a plan, and `Q` a proof, and the calls
/// with these numbers fail.
pub fn shelf_with(
    alloc: Global,
    instance: &str,
    plan: &str,
    proof: &str,
    failing: &[u64],
) -> Result<MemoryShelf, AllocError> {
    let mut shelf = MemoryShelf::new(alloc, Vec::from_slice(alloc, failing)?);
    shelf.set("A", instance.as_bytes())?;
    shelf.set("S", plan.as_bytes())?;
    shelf.set("P", plan.as_bytes())?;
    shelf.set("Q", proof.as_bytes())?;
    Ok(shelf)
}

/// The words of a line.
pub fn words_of(alloc: Global, line: &str) -> Result<Vec<String>, AllocError> {
    let mut words = Vec::new(alloc);
    for word in line.split(' ') {
        words.push(String::from_str(alloc, word)?)?;
    }
    Ok(words)
}

/// How the program ends on these files, and what it puts, where the calls of the output with these
/// numbers fail.
pub fn run_with(
    alloc: Global,
    line: &str,
    shelf: &mut MemoryShelf,
    failing_puts: &[u64],
) -> Result<(Status, Vec<u8>), AllocError> {
    let words = words_of(alloc, line)?;
    let mut out = MemorySink::new(alloc, Vec::from_slice(alloc, failing_puts)?);
    let status = run(alloc, words.as_slice(), shelf, &mut out);
    Ok((status, Vec::from_slice(alloc, out.bytes())?))
}

/// The same by a clock that is up at once.
pub fn run_at_once(
    alloc: Global,
    line: &str,
    shelf: &mut MemoryShelf,
) -> Result<(Status, Vec<u8>), AllocError> {
    let words = words_of(alloc, line)?;
    let mut out = MemorySink::new(alloc, Vec::new(alloc));
    let mut program = Evgap {
        clock: AtOnce {},
        watcher: Nobody::new(),
    };
    let status = job_ending::run(alloc, words.as_slice(), shelf, &mut out, &mut program);
    Ok((status, Vec::from_slice(alloc, out.bytes())?))
}

/// The program ends and puts so on these files, or the test fails.
pub fn assert_run(
    rt: &impl Abort,
    alloc: Global,
    line: &str,
    shelf: &mut MemoryShelf,
    status: Status,
    put: &str,
) {
    let ended = run_with(alloc, line, shelf, &[]).expect(rt, "memory");
    assert_eq!(rt; ended.1.as_slice(), put.as_bytes(), "{line}");
    assert_eq!(rt; ended.0, status, "{line}");
}

/// A file holds this text, or is not there, or the test fails.
pub fn assert_file(rt: &impl Abort, shelf: &MemoryShelf, name: &str, want: Option<&str>) {
    assert_eq!(rt; shelf.get(name), want.map(|text| text.as_bytes()), "{name}");
}
