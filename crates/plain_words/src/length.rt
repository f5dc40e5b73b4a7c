//! A certificate or a proof that was written and that its judge can't read.

use crate::names::JobNames;
use std::alloc::{AllocError, Global};
use std::fs::metadata;
use std::rt::Files;

/// The most bytes of a certificate or of a proof that a judge reads.
const MOST: u64 = 1 << 28;

/// What is said of a certificate, or of a proof, that was written and that is longer than its judge
/// reads. `None` for jobs that write none, and where the system tells no length.
pub fn long_proof<R: Files>(
    alloc: Global,
    files: &R,
    names: &JobNames<'_>,
) -> Result<Option<String>, AllocError> {
    let [first, second] = names.writes;
    let (Some(judge), Some(name)) = (names.judge, second.or(first)) else {
        return Ok(None);
    };
    match metadata(files, name) {
        Ok(found) if found.is_file() && found.len() > MOST => Ok(Some(format!(in alloc;
            "{name}: {} bytes long, and {judge} reads at most {MOST}",
            found.len()
        )?)),
        _ => Ok(None),
    }
}
