//! Why bytes are no places of an instance.

use std::alloc::{AllocError, AllocFailed};

/// What is wrong with an entry of the list of places.
#[derive(Clone, Copy, Debug, Drop, PartialEq, Eq)]
pub enum EntryFault {
    /// It is no object.
    NoObject,
    /// Its name is absent or no text.
    Name,
    /// Its name has a control character, the end of a line or of a paragraph, or a character that no
    /// XML text holds (U+FFFE, U+FFFF).
    Character,
    /// Its `x` is no whole number of 64 bits, or absent where it has to be there.
    X,
    /// The same of its `y`.
    Y,
}

/// The first broken rule of a file of places.
#[derive(Clone, Copy, Debug, Drop, PartialEq, Eq)]
pub enum PlacesFault {
    /// The file is longer than [`crate::MOST_BYTES`].
    TooLong,
    /// The bytes are no JSON text.
    NotJson,
    /// The top value is no object with an array under `places`.
    NoList,
    /// An entry of the array, counted from 0, is no place.
    Entry(usize, EntryFault),
    /// There are so many places, and another number of nodes.
    Count(usize),
}

/// Why there are no places: a rule is broken, or memory was refused.
#[derive(Clone, Copy, Debug, Drop, PartialEq, Eq)]
pub enum PlacesEnded {
    Refused(PlacesFault),
    Memory,
}

impl<T: Drop> From<AllocFailed<T>> for PlacesEnded {
    ghost use Rattle.place_names.specs.declared.faults.PlacesEnded.TheVariants.{Memory};
    ghost use Rattle.std.specs.Prelude.{◌≡◌};

    ghost from_gives = { λ _ e. e ≡ Memory };

    fn from(_refused: AllocFailed<T>) -> PlacesEnded {
        PlacesEnded::Memory
    }
}

/// Why an entry is no place, or that memory was refused.
#[derive(Clone, Copy, Debug, Drop, PartialEq, Eq)]
pub(crate) enum EntryEnded {
    Refused(EntryFault),
    Memory,
}

impl From<AllocError> for EntryEnded {
    ghost use Rattle.place_names.specs.declared.faults.EntryEnded.TheVariants.{Memory};
    ghost use Rattle.std.specs.Prelude.{◌≡◌};

    ghost from_gives = { λ _ e. e ≡ Memory };

    fn from(_refused: AllocError) -> EntryEnded {
        EntryEnded::Memory
    }
}
