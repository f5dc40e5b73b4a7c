//! That each key of an instance with a unit is one under which numbers become whole.

use crate::asserting::assert_text;
use decimal_import::convert;
use instance_reader::{Key, Part};
use std::alloc::{AllocError, Global};
use std::process::Abort;

/// What 1.5 under a key becomes with one digit of times and two of energies. A key that is new here
/// has to be told of what it is.
fn under_key(key: Key) -> &'static str {
    match key {
        Key::Service | Key::Time | Key::TMax | Key::MaxT => "15",
        Key::MaxQ | Key::Energy | Key::MinQ | Key::HomeQ => "150",
        Key::Css | Key::Breaks => "1.5",
    }
}

/// The same under a part of an entry.
fn under_part(part: Part) -> &'static str {
    match part {
        Part::Time | Part::Plug => "15",
        Part::Charge => "150",
        Part::NodeId | Part::TypeName => "1.5",
    }
}

/// An object with this number under a name.
fn object(alloc: Global, name: &str, number: &str) -> Result<String, AllocError> {
    format!(in alloc; "{{\"{name}\":{number}}}")
}

/// A number under a name becomes this one, or the test fails.
fn assert_becomes(rt: &impl Abort, alloc: Global, name: &str, wanted: &str) {
    let text = object(alloc, name, "1.5").expect(rt, "memory");
    let wanted = object(alloc, name, wanted).expect(rt, "memory");
    let whole = convert(alloc, text.as_bytes(), 1, 2).ok();
    assert_text(rt, whole, wanted.as_str());
}

#[test]
fn what_the_reader_reads_as_a_time_or_an_energy_becomes_whole(rt: HostRuntime) {
    for &key in &[
        Key::MaxQ,
        Key::Css,
        Key::Breaks,
        Key::Service,
        Key::Energy,
        Key::Time,
        Key::TMax,
        Key::MaxT,
        Key::MinQ,
        Key::HomeQ,
    ] {
        assert_becomes(&rt, rt.alloc(), key.name(), under_key(key));
    }
    for &part in &[
        Part::NodeId,
        Part::TypeName,
        Part::Time,
        Part::Charge,
        Part::Plug,
    ] {
        assert_becomes(&rt, rt.alloc(), part.name(), under_part(part));
    }
}
