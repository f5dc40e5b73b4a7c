//! Who tells people how far a search is.

use evgap_run::{
    BranchProgress, BranchWatcher, Cause, CauseListener, GapProgress, GapWatcher, JobWatcher,
    MoveProgress, MoveWatcher, PricesProgress, PricesWatcher, RecreateProgress, RecreateWatcher,
    ScaleWatcher,
};
use job_listeners::{Pace, PercentGap};
use std::fmt::{self, Display, Formatter};
use std::io::Eprint;
use std::rt::Clock;

/// Tells people on standard error how far a search is, a line at a time: the first 3 seconds behind
/// its beginning, and none within a second of another. Nothing is told, and nothing else changes,
/// where the clock or standard error fails.
#[derive(Drop)]
pub(crate) struct ToldGap<'a, R: Clock + Eprint> {
    rt: &'a R,
    /// When the next line is due, where any is told.
    pace: Option<Pace>,
    denominator: u64,
    /// What is held, once a plan is.
    held: Option<GapProgress>,
    /// How far a tree is, once one is grown.
    tree: Option<BranchProgress>,
    /// What the first line of the answer tells, where it isn't what was asked for.
    cause: Option<Cause>,
}

impl<'a, R: Clock + Eprint> ToldGap<'a, R> {
    /// What begins now is told, where it is wanted.
    pub(crate) fn new(rt: &'a R, is_wanted: bool) -> Self {
        let pace = match rt.monotonic() {
            Ok(now) if is_wanted => Some(Pace::beginning(now)),
            _ => None,
        };
        ToldGap {
            rt,
            pace,
            denominator: 1,
            held: None,
            tree: None,
            cause: None,
        }
    }

    /// Why the answer isn't the one that was asked for, where it was heard so.
    pub(crate) fn cause(&self) -> Option<Cause> {
        self.cause
    }

    /// Whether a line is due now.
    fn is_due(&mut self) -> bool {
        let Some(pace) = &mut self.pace else {
            return false;
        };
        match self.rt.monotonic() {
            Ok(now) => pace.is_due(now),
            Err(_) => false,
        }
    }

    /// What is held, as a line ends.
    fn held(&self) -> HeldWords {
        HeldWords {
            held: self.held,
            denominator: self.denominator,
        }
    }

    /// Tells how far the rounds are in which routes are sought.
    fn tell_rounds(&self, progress: PricesProgress) {
        let PricesProgress {
            rounds,
            routes,
            prices,
        } = progress;
        let denominator = self.denominator;
        let held = self.held();
        let _ = eprintln!(self.rt;
            "evgap: rounds {rounds}, routes {routes}, prices {prices}/{denominator}{held}"
        );
    }

    /// Tells how far a tree is.
    fn tell_tree(&self, tree: BranchProgress) {
        let tree = TreeWords {
            tree,
            denominator: self.denominator,
        };
        let _ = eprintln!(self.rt; "evgap: {tree}");
    }
}

impl<'a, R: Clock + Eprint> MoveWatcher for ToldGap<'a, R> {
    fn watch_moves(&mut self, progress: MoveProgress) {
        if self.is_due() {
            let MoveProgress { moves, cost } = progress;
            let denominator = self.denominator;
            let held = self.held();
            let _ = eprintln!(self.rt; "evgap: moves {moves}, cost {cost}/{denominator}{held}");
        }
    }
}

impl<'a, R: Clock + Eprint> PricesWatcher for ToldGap<'a, R> {
    fn watch_prices(&mut self, progress: PricesProgress) {
        if self.is_due() {
            // The rounds of a tree are those of one node after another.
            match self.tree {
                Some(tree) => self.tell_tree(tree),
                None => self.tell_rounds(progress),
            }
        }
    }
}

impl<'a, R: Clock + Eprint> BranchWatcher for ToldGap<'a, R> {
    fn watch_branch(&mut self, progress: BranchProgress) {
        self.tree = Some(progress);
        if self.is_due() {
            self.tell_tree(progress);
        }
    }
}

impl<'a, R: Clock + Eprint> RecreateWatcher for ToldGap<'a, R> {
    fn goes_on(&mut self, progress: RecreateProgress) -> bool {
        if self.is_due() {
            let denominator = self.denominator;
            let _ = match progress.cost {
                Some(cost) => {
                    eprintln!(self.rt; "evgap: ruin and recreate, cost {cost}/{denominator}")
                }
                None => eprintln!(self.rt; "evgap: ruin and recreate, no plan yet"),
            };
        }
        true
    }
}

impl<'a, R: Clock + Eprint> GapWatcher for ToldGap<'a, R> {
    fn watch_gap(&mut self, progress: GapProgress) {
        self.held = Some(progress);
        if self.is_due() {
            let held = self.held();
            let _ = eprintln!(self.rt; "evgap: plans{held}");
        }
    }
}

impl<'a, R: Clock + Eprint> ScaleWatcher for ToldGap<'a, R> {
    fn begin(&mut self, denominator: u64) {
        self.denominator = denominator;
    }
}

impl<'a, R: Clock + Eprint> JobWatcher for ToldGap<'a, R> {}

impl<'a, R: Clock + Eprint> CauseListener<Cause> for ToldGap<'a, R> {
    ghost heard = { λ told. told.cause };

    fn hear(&mut self, cause: Cause) {
        self.cause = Some(cause);
    }
}

/// What is held: the bound, where it is known, the plan's cost, and how far apart they are.
#[derive(Clone, Copy, Drop)]
struct HeldWords {
    held: Option<GapProgress>,
    denominator: u64,
}

impl Display for HeldWords {
    fn fmt<W: fmt::Write>(&self, f: &mut Formatter<W>) -> fmt::Result {
        let Some(GapProgress { cost, bound }) = self.held else {
            return Ok(());
        };
        let denominator = self.denominator;
        let Some(bound) = bound else {
            return write!(f, ", plan held {cost}/{denominator}");
        };
        let gap = PercentGap { cost, bound };
        write!(
            f,
            ", bound {bound}/{denominator}, plan held {cost}/{denominator}{gap}"
        )
    }
}

/// How far a tree is: the nodes that were priced, the open ones, and what is held.
#[derive(Clone, Copy, Drop)]
struct TreeWords {
    tree: BranchProgress,
    denominator: u64,
}

impl Display for TreeWords {
    fn fmt<W: fmt::Write>(&self, f: &mut Formatter<W>) -> fmt::Result {
        let BranchProgress {
            nodes,
            open,
            bound,
            cost,
        } = self.tree;
        let denominator = self.denominator;
        write!(f, "nodes {nodes}, open {open}")?;
        let Some(cost) = cost else {
            return write!(f, ", bound {bound}/{denominator}, no plan held");
        };
        let bound = u128::try_from(bound).unwrap_or(0);
        let held = HeldWords {
            held: Some(GapProgress {
                cost,
                bound: Some(bound),
            }),
            denominator,
        };
        write!(f, "{held}")
    }
}
