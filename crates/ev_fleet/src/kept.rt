//! What the types of a section's parts promise. It is told by calls of each part alone, so each is
//! asked.

ghost use Rattle.std.specs.List.{All};
ghost use Rattle.bound_certificate.specs.Kept.{IsKept};
ghost use Rattle.certificate_parts.specs.Ranges.{HasSet};

use bound_certificate::Section;
use piece_fn::Label;

/// Sections are kept: their labels have sets, and their pairs are of different places.
pub(crate) fn know_sections(sections: &[Section])
    ensures { All IsKept sections.now }
{
    for section in sections {
        know_section(section);
    }
}

/// A section is kept.
fn know_section(section: &Section)
    ensures { IsKept section.now }
{
    let _customers = section.pairs.customers();
    know_sets(section.labels.as_slice());
}

/// The sets of labels are sets.
fn know_sets(labels: &[Label])
    ensures { All HasSet labels.now }
{
    for label in labels {
        let _members = label.set.len();
    }
}
