//! The reserve and the level at home are within a full battery.

ghost use Rattle.std.specs.Prelude.{◌≡◌};
ghost use Rattle.instance_reader.specs.Levels.{first_level_past_full};
ghost use Rattle.instance_reader.specs.Views.{contents_view};

use crate::fields::Fields;
use crate::places::{Key, Place};

/// The first place of a level that is past a full battery.
pub(crate) fn first_level_past_full(fields: &Fields) -> Option<Place>
    ensures { result ≡ first_level_past_full (contents_view fields.now) }
{
    if fields.min_q > fields.max_q {
        return Some(Place::at_key(Key::MinQ));
    }
    if fields.home_q > fields.max_q {
        return Some(Place::at_key(Key::HomeQ));
    }
    None
}
