//! What the tests of this crate ask of each text.

use std::process::Abort;

/// The text is there and is this one, or the test fails.
pub(crate) fn assert_text(rt: &impl Abort, found: Option<Vec<u8>>, wanted: &str) {
    let found = found.expect(rt, "a text");
    assert_eq!(rt; found.as_slice(), wanted.as_bytes());
}
