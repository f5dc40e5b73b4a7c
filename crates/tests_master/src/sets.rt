//! Sets by their bits.

use customer_sets::CustSet;

/// The set of the customers whose bits are 1.
pub(crate) fn set_of(bits: u64) -> CustSet {
    let mut set = CustSet::empty();
    for c in 0..64 {
        if bits >> c & 1 == 1 {
            set = set.with(c);
        }
    }
    set
}
