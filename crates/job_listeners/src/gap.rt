//! The gap of a line on how far a job is.

use std::fmt::{self, Display, Formatter};

/// How far the cost of a plan is above a bound that no plan costs less than, over one denominator:
/// `, gap 1.23 %`, in per cent of the bound and rounded up, as `evgap` puts it in its last line.
/// Nothing for a bound of 0, or past 128 bits.
#[derive(Clone, Copy, Drop)]
pub struct PercentGap {
    /// What the plan costs.
    pub cost: u128,
    /// What no plan costs less than.
    pub bound: u128,
}

impl PercentGap {
    /// In hundredths of a per cent.
    fn hundredths(&self) -> Option<u128> {
        let apart = self.cost.saturating_sub(self.bound).checked_mul(10_000)?;
        let gap = apart.checked_div(self.bound)?;
        if gap.checked_mul(self.bound)? < apart {
            gap.checked_add(1)
        } else {
            Some(gap)
        }
    }
}

impl Display for PercentGap {
    fn fmt<W: fmt::Write>(&self, f: &mut Formatter<W>) -> fmt::Result {
        match self.hundredths() {
            Some(gap) => write!(f, ", gap {}.{:02} %", gap / 100, gap % 100),
            None => Ok(()),
        }
    }
}
