//! What the types of a proof's parts promise. Of a set it is told by its calls alone, so each is
//! asked.

ghost use Rattle.std.specs.List.{All};
ghost use Rattle.customer_sets.specs.CustSet.{IsCustomerSet};
ghost use Rattle.near_text.specs.NearIn.{HasMemory};

use customer_sets::CustSet;
use near_proof::NearLabel;

/// Near sets are sets.
pub(crate) fn know_sets(sets: &[CustSet])
    ensures { All IsCustomerSet sets.now }
{
    for set in sets {
        let _members = set.len();
    }
}

/// The memories of labels are sets.
pub(crate) fn know_memories(labels: &[NearLabel])
    ensures { All HasMemory labels.now }
{
    for label in labels {
        let _members = label.memory.len();
    }
}
