//! Why a text isn't converted.

/// Why a text isn't converted. A place is an index into the bytes of the text.
#[derive(Clone, Copy, Debug, Drop, PartialEq, Eq)]
pub enum ImportFault {
    /// No token begins here, or it isn't whole, or it closes what isn't open; or the text ends
    /// with something open.
    Token { at: usize },
    /// The number at this place has a unit, and is below 0.
    Negative { at: usize },
    /// The number at this place would be past 10^18.
    TooLarge { at: usize },
    /// A count of digits is past 9.
    Digits,
    /// The text is longer than 2^26 bytes.
    TooLong { len: usize },
    /// There was no memory left.
    Memory,
}
