//! What the types of a proof's labels promise. Of a set it is told by its calls alone, so each is
//! asked.

ghost use Rattle.std.specs.List.{All};
ghost use Rattle.certificate_parts.specs.Ranges.{HasSet};
ghost use Rattle.mixed_text.specs.MixedIn.{HaveSets};

use ev_list::Listed;
use piece_fn::Label;

/// The sets of the labels of each kind are sets.
pub(crate) fn know_lists(lists: &[Listed<Label>])
    ensures { HaveSets lists.now }
{
    for labels in lists {
        know_sets(labels.as_slice());
    }
}

/// The sets of labels are sets.
fn know_sets(labels: &[Label])
    ensures { All HasSet labels.now }
{
    for label in labels {
        let _members = label.set.len();
    }
}
