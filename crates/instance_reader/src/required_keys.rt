//! The keys that each instance has.

ghost use Rattle.std.specs.Prelude.{◌≡◌};
ghost use Rattle.serde_json.specs.View.{view};
ghost use Rattle.instance_reader.specs.RequiredKeys.{first_missing};

use crate::places::Key;
use serde_json::Value;

const REQUIRED: [Key; 6] = [
    Key::MaxQ,
    Key::Css,
    Key::Breaks,
    Key::Service,
    Key::Energy,
    Key::Time,
];

/// The first required key that the top value hasn't. A value that is no object has none.
#[tactic(auto, unfolding(crate::specs::RequiredKeys::first_missing))]
pub(crate) fn first_missing(top: &Value) -> Option<Key>
    ensures { result ≡ first_missing (view top.now) }
{
    REQUIRED
        .iter()
        .copied()
        .find(|key| top.get(key.name()).is_none())
}
