//! Files in memory that tests run on.

use ev_outside::{MemoryShelf, MemorySink};
use evroute_run::{Status, run};
use std::alloc::{AllocError, Global};
use std::process::Abort;

/// A fleet plan of the instance with one station.
pub const CHARGED: &str = "evroute plan 1\nroutes 1\nroute 0 v2+1 1 0\n";

/// A certificate of the instance with one station, behind its first two lines.
pub const SHOWN: &str =
    "root exact 1 1\nshare 1 0 v2+1 1 0\nsections 1\nsection 1 0 5\nprices 43\nlabel 0 0 - 10:0\nlabel 1 1 1 4:20\nlabel 0 2 - 7:16 8:17 10:29\nlabel 1 2 1 2:26 8:32 10:44\nlabel 1 1 1 5:22 6:23 8:35\nleaf 0\n";

/// The certificate with a bound, whether that is true or not.
pub fn certificate_with(alloc: Global, bound: &str) -> Result<String, AllocError> {
    format!(in alloc; "evroute certificate 1\nbound {bound}\n{SHOWN}")
}

/// Files in memory where `A` holds an instance, `P` a plan and `Q` the certificate with the bound
/// 43, and the calls with these numbers fail.
pub fn shelf_with(
    alloc: Global,
    instance: &str,
    plan: &str,
    failing: &[u64],
) -> Result<MemoryShelf, AllocError> {
    let mut shelf = MemoryShelf::new(alloc, Vec::from_slice(alloc, failing)?);
    shelf.set("A", instance.as_bytes())?;
    shelf.set("P", plan.as_bytes())?;
    shelf.set("Q", certificate_with(alloc, "43")?.as_bytes())?;
    Ok(shelf)
}

/// The words of a line.
pub fn words_of(alloc: Global, line: &str) -> Result<Vec<String>, AllocError> {
    let mut words = Vec::new(alloc);
    for word in line.split(' ') {
        words.push(String::from_str(alloc, word)?)?;
    }
    Ok(words)
}

/// How the program ends on these files, and what it puts, where the calls of the output with these
/// numbers fail.
pub fn run_with(
    alloc: Global,
    line: &str,
    shelf: &mut MemoryShelf,
    failing_puts: &[u64],
) -> Result<(Status, Vec<u8>), AllocError> {
    let words = words_of(alloc, line)?;
    let mut out = MemorySink::new(alloc, Vec::from_slice(alloc, failing_puts)?);
    let status = run(alloc, words.as_slice(), shelf, &mut out);
    Ok((status, Vec::from_slice(alloc, out.bytes())?))
}

/// How the program ends, and what it puts, where `A` holds an instance and `P` a plan, and the
/// calls of the shelf and of the output with these numbers fail.
pub fn run_on(
    alloc: Global,
    line: &str,
    instance: &str,
    plan: &str,
    failing_calls: &[u64],
    failing_puts: &[u64],
) -> Result<(Status, Vec<u8>), AllocError> {
    let mut shelf = shelf_with(alloc, instance, plan, failing_calls)?;
    run_with(alloc, line, &mut shelf, failing_puts)
}

/// The program ends and puts so on these files, or the test fails.
pub fn assert_run(
    rt: &impl Abort,
    alloc: Global,
    line: &str,
    shelf: &mut MemoryShelf,
    status: Status,
    put: &str,
) {
    let ended = run_with(alloc, line, shelf, &[]).expect(rt, "memory");
    assert_eq!(rt; ended.1.as_slice(), put.as_bytes(), "{line}");
    assert_eq!(rt; ended.0, status, "{line}");
}

/// The program ends and puts so where `A` holds an instance and `P` a plan, or the test fails. It
/// answers what is left of the files.
pub fn assert_run_on(
    rt: &impl Abort,
    alloc: Global,
    line: &str,
    instance: &str,
    plan: &str,
    status: Status,
    put: &str,
) -> MemoryShelf {
    let mut shelf = shelf_with(alloc, instance, plan, &[]).expect(rt, "memory");
    assert_run(rt, alloc, line, &mut shelf, status, put);
    shelf
}

/// A file holds this text, or is not there, or the test fails.
pub fn assert_file(rt: &impl Abort, shelf: &MemoryShelf, name: &str, want: Option<&str>) {
    assert_eq!(rt; shelf.get(name), want.map(|text| text.as_bytes()), "{name}");
}

/// A file begins with this text, or the test fails.
pub fn assert_begins(rt: &impl Abort, shelf: &MemoryShelf, name: &str, text: &str) {
    let left = shelf.get(name).unwrap_or(b"".as_slice());
    assert!(rt; left.starts_with(text.as_bytes()), "{name}: {text}");
}
