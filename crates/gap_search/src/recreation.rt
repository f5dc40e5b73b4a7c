//! How much work is done for the first plan, and by which numbers it is drawn. No clause rests on
//! this.

use crate::clock::End;
use ruin_recreate::Effort;

/// So many customers make the effort a step greater, where none is given.
const CUSTOMERS_A_STEP: usize = 20;

/// So many steps greater it is at the most then.
const MOST_STEPS: usize = 5;

/// The first step of work ends so many milliseconds behind the end of a clock, where no effort is
/// given.
const FIRST_BEHIND: u64 = 1_500;

/// The seed and the effort of the search for the first plan.
#[derive(Clone, Copy, Debug, Drop, PartialEq, Eq)]
pub struct Recreation {
    /// The numbers by chance come from it.
    pub seed: u64,
    /// How much work is done, whatever a clock says: with 0 none, the moves of single customers
    /// alone; with 1 so much a customer, and twice as much with each step behind it. `None`: by the
    /// number of customers, and with long routes that of 1, as far as the clock lets it.
    pub effort: Option<u64>,
}

/// The work for a first plan.
#[derive(Clone, Copy)]
pub(crate) struct Work {
    pub(crate) first: Effort,
    /// When that ends, though it isn't all done.
    pub(crate) end: End,
    /// What is done behind it, unless routes are long.
    pub(crate) then: Option<Effort>,
}

impl Recreation {
    /// The work for so many customers, `None` where ruin and recreate is left out.
    pub(crate) fn work(&self, customers: usize) -> Option<Work> {
        match self.effort {
            Some(0) => None,
            Some(steps) => Some(Work {
                first: effort_of(customers, steps),
                end: End::Never,
                then: None,
            }),
            None => Some(work_by_size(customers)),
        }
    }
}

/// The work for so many customers where no effort is given.
fn work_by_size(customers: usize) -> Work {
    let first = effort_of(customers, 1);
    let steps = (customers / CUSTOMERS_A_STEP).min(MOST_STEPS) as u64;
    let all = effort_of(customers, steps.saturating_add(1));
    Work {
        first,
        end: End::Behind(FIRST_BEHIND),
        then: Some(Effort {
            work: all.work.saturating_sub(first.work),
            cycles: all.cycles.saturating_sub(first.cycles),
        }),
    }
}

/// The work of so many steps, of which the first is the least.
fn effort_of(customers: usize, steps: u64) -> Effort {
    match u32::try_from(steps.saturating_sub(1)) {
        Ok(doublings) => Effort::of(customers, doublings),
        Err(_) => Effort::of(customers, u32::MAX),
    }
}
