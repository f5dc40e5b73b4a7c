//! How far a search, a bound, an improvement or a fleet of several kinds is, in a line.

use evroute_run::{MoveProgress, PriceProgress, Progress, RoundProgress};
use job_listeners::PercentGap;
use std::fmt::{self, Display, Formatter};

/// How far a search is, with its times scaled by the denominator.
#[derive(Clone, Copy, Drop)]
pub(crate) struct SearchLine {
    pub(crate) progress: Progress,
    pub(crate) denominator: u64,
}

impl SearchLine {
    /// What no fleet plan costs less than: the bound of the open nodes, where the plan that is held
    /// doesn't cost less.
    fn bound(&self) -> Option<u128> {
        match (self.progress.bound, self.progress.cost) {
            (Some(bound), Some(cost)) => Some(bound.min(cost)),
            (Some(bound), None) => Some(bound),
            (None, cost) => cost,
        }
    }
}

impl Display for SearchLine {
    fn fmt<W: fmt::Write>(&self, f: &mut Formatter<W>) -> fmt::Result {
        let Progress {
            nodes,
            open_nodes,
            ..
        } = self.progress;
        write!(f, "evroute: nodes {nodes}, open {open_nodes}")?;
        if let Some(bound) = self.bound() {
            write!(f, ", bound {bound}/{}", self.denominator)?;
        }
        let Some(cost) = self.progress.cost else {
            return f.write_str(", no plan held");
        };
        write!(f, ", plan held {cost}/{}", self.denominator)?;
        match self.bound() {
            Some(bound) => write!(f, "{}", PercentGap { cost, bound }),
            None => Ok(()),
        }
    }
}

/// How far a bound is, with its times scaled by the denominator.
#[derive(Clone, Copy, Drop)]
pub(crate) struct PricesLine {
    pub(crate) progress: PriceProgress,
    pub(crate) denominator: u64,
}

impl Display for PricesLine {
    fn fmt<W: fmt::Write>(&self, f: &mut Formatter<W>) -> fmt::Result {
        let PriceProgress {
            customers,
            fixed,
            bound,
        } = self.progress;
        write!(
            f,
            "evroute: prices {fixed} of {customers}, bound {bound}/{}",
            self.denominator
        )
    }
}

/// How far an improvement is, with its times scaled by the denominator.
#[derive(Clone, Copy, Drop)]
pub(crate) struct MovesLine {
    pub(crate) progress: MoveProgress,
    pub(crate) denominator: u64,
}

impl Display for MovesLine {
    fn fmt<W: fmt::Write>(&self, f: &mut Formatter<W>) -> fmt::Result {
        let MoveProgress { moves, cost } = self.progress;
        write!(
            f,
            "evroute: moves {moves}, cost {cost}/{}",
            self.denominator
        )
    }
}

/// How far the rounds of a fleet of several kinds are, with times scaled by the denominator.
#[derive(Clone, Copy, Drop)]
pub(crate) struct RoundsLine {
    pub(crate) progress: RoundProgress,
    pub(crate) denominator: u64,
}

impl Display for RoundsLine {
    fn fmt<W: fmt::Write>(&self, f: &mut Formatter<W>) -> fmt::Result {
        let RoundProgress {
            rounds,
            routes,
            cost,
        } = self.progress;
        write!(f, "evroute: rounds {rounds}, routes {routes}")?;
        match cost {
            Some(cost) => write!(f, ", fractional cost {cost}/{}", self.denominator),
            None => f.write_str(", no fractional cover"),
        }
    }
}
