//! A law of places. It is the contract of an empty function.

ghost use Rattle.std.specs.Prelude.{ℕ, Bool, List};
ghost use Rattle.place_names.specs.Reading.{ArePlacesOf, IsFirstFault};
ghost use Rattle.place_names.specs.declared.faults.PlacesFault.{PlacesFault};
ghost use Rattle.place_names.specs.declared.place.Place.{Place};

/// Bytes that mean the places of an instance break no rule.
pub fn places_break_no_rule()
    ensures { (needed : Bool) (nodes : ℕ) (bytes : List ℕ) (places : List Place)
        (broken : PlacesFault) → ArePlacesOf needed nodes bytes places
        → IsFirstFault needed nodes bytes broken → ⊥ }
{}
