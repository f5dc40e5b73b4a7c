//! Why an instance isn't read.

use crate::instance::Instance;
use crate::places::{Key, Place};
use charge_curve::CurveFault;
use std::alloc::{AllocError, AllocFailed};

/// The first broken rule of an instance file. The rules are tried in this order, and within a rule
/// the places in the order of the fields: `max_q`, `css`, `breakpoints_by_type`, `process_times`,
/// `energy_matrix`, `time_matrix`, `t_max`, `max_t`, `min_q`, `home_q`.
#[derive(Clone, Copy, Debug, Drop, PartialEq, Eq)]
pub enum ReadFault {
    /// The file has more than 2^26 bytes; `len` is how many it has.
    TooLong { len: usize },
    /// The bytes are no JSON text.
    NotJson,
    /// The top value is no object (the key is then `max_q`), or a required key is absent.
    Missing { key: Key },
    /// A value is of another kind than its field's. A whole number is an integer literal that fits
    /// 64 bits.
    Kind { place: Place },
    /// A number is past 10^9 where that limit stands.
    TooLarge { place: Place },
    /// A list or a matrix has a wrong length.
    Shape { place: Place },
    /// A station's node isn't one of the instance, or has a station already.
    Node { place: Place },
    /// A type is listed a second time, or a station's type isn't listed.
    TypeName { place: Place },
    /// The breakpoints of the entry number `index` of `breakpoints_by_type` are no charging curve.
    BadCurve { index: usize, fault: CurveFault },
    /// The common denominator of all curves is past 10^9.
    Denominator,
    /// The common denominator times the given limit is past 10^18.
    Horizon { limit: u64 },
    /// The reserve or the level at home is past a full battery.
    Level { place: Place },
    /// Memory was refused.
    Memory,
}

impl<T: Drop> From<AllocFailed<T>> for ReadFault {
    ghost use Rattle.instance_reader.specs.declared.faults.ReadFault.TheVariants.{Memory};
    ghost use Rattle.std.specs.Prelude.{◌≡◌};

    ghost from_gives = { λ _ e. e ≡ Memory };

    fn from(_refused: AllocFailed<T>) -> ReadFault {
        ReadFault::Memory
    }
}

impl From<AllocError> for ReadFault {
    ghost use Rattle.instance_reader.specs.declared.faults.ReadFault.TheVariants.{Memory};
    ghost use Rattle.std.specs.Prelude.{◌≡◌};

    ghost from_gives = { λ _ e. e ≡ Memory };

    fn from(_refused: AllocError) -> ReadFault {
        ReadFault::Memory
    }
}

/// Why a limit isn't taken: the instance's denominator times the limit is past 10^18. The instance
/// is given back as it was.
#[derive(Drop)]
pub struct LimitFault {
    pub inst: Instance,
    pub limit: u64,
}

/// Why a rule refuses an instance: the rule's first broken place, or want of memory.
#[derive(Clone, Copy, Debug, Drop, PartialEq, Eq)]
pub(crate) enum PlaceFault {
    At { place: Place },
    Memory,
}

impl<T: Drop> From<AllocFailed<T>> for PlaceFault {
    ghost use Rattle.instance_reader.specs.declared.faults.PlaceFault.TheVariants.{Memory};
    ghost use Rattle.std.specs.Prelude.{◌≡◌};

    ghost from_gives = { λ _ e. e ≡ Memory };

    fn from(_refused: AllocFailed<T>) -> PlaceFault {
        PlaceFault::Memory
    }
}

impl From<AllocError> for PlaceFault {
    ghost use Rattle.instance_reader.specs.declared.faults.PlaceFault.TheVariants.{Memory};
    ghost use Rattle.std.specs.Prelude.{◌≡◌};

    ghost from_gives = { λ _ e. e ≡ Memory };

    fn from(_refused: AllocError) -> PlaceFault {
        PlaceFault::Memory
    }
}
