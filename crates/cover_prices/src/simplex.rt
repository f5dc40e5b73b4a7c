//! The revised simplex method in fixed point. No clause rests on this.

use crate::basis::{Basis, Member, sum_over};
use crate::columns::Column;
use crate::fixed::{ONE, at, narrow, product, put, rounded};
use crate::rows::{Row, Sense};
use std::alloc::{AllocError, Global};

/// A column enters whose reduced cost is below this: a little more than rounding makes of 0.
const ENTRY: i64 = -16;

/// Prices at which a member of the basis costs more or less than it earns by more than this are
/// reason to work out the inverse anew.
const MOST_RESIDUAL: i64 = 128;

/// A member leaves only where the entry of the entering column is greater, as a pivot of a rebuilt
/// basis has to be.
pub(crate) const LEAST_ENTRY: i64 = 1 << 18;

/// By so much an amount may come below 0.
pub(crate) const SLACK: i64 = 1 << 8;

/// After so many pivots the inverse is worked out anew.
const PIVOTS: usize = 100;

/// So often it is worked out anew in a call for other reasons.
const MENDS: usize = 3;

/// So often a call begins again with the helpers, where an entry is too wide.
const RESETS: usize = 2;

/// The state of the method, which stays from one call to the next.
#[derive(Drop)]
pub(crate) struct Simplex {
    pub(crate) basis: Basis,
    /// Whether each column of the pool is in the basis.
    is_basic: Vec<bool>,
    /// What is to be covered of each row: a little more than is wanted.
    right: Vec<i64>,
    /// What is wanted of each row.
    wanted: Vec<i64>,
    /// The amounts of the members, by row.
    pub(crate) amounts: Vec<i64>,
    prices: Vec<i64>,
    /// The entries of the entering column, by row.
    entries: Vec<i64>,
    /// Numbers by row or customer, of use by the way.
    spare: Vec<i64>,
    /// How many pivots there were since the inverse was worked out.
    since: usize,
}

/// How a call goes.
#[derive(Drop)]
struct Run {
    /// Whether the prices are worked out from the inverse and not stepped.
    is_full: bool,
    mends: usize,
    resets: usize,
}

impl Simplex {
    /// The basis to begin with.
    pub(crate) fn new(alloc: Global, rows: &[Row]) -> Result<Simplex, AllocError> {
        let right = right_sides(alloc, rows)?;
        let count = rows.len();
        Ok(Simplex {
            basis: Basis::new(alloc, rows)?,
            is_basic: Vec::new(alloc),
            amounts: right.clone()?,
            right,
            wanted: wanted_sides(alloc, rows)?,
            prices: vec![in alloc; 0; count]?,
            entries: vec![in alloc; 0; count]?,
            spare: vec![in alloc; 0; count]?,
            since: 0,
        })
    }

    /// Reckons with a further column.
    pub(crate) fn add_column(&mut self) -> Result<(), AllocError> {
        self.is_basic.push(false)?;
        Ok(())
    }

    /// Whether the column at a place is in the basis.
    pub(crate) fn is_basic(&self, place: usize) -> bool {
        self.is_basic.get(place).copied().unwrap_or(false)
    }

    /// The prices of the last call.
    pub(crate) fn prices(&self) -> &[i64] {
        &self.prices
    }

    /// Makes pivots until no column earns, or there were too many.
    pub(crate) fn solve(
        &mut self,
        alloc: Global,
        columns: &[Column],
        rows: &[Row],
        dearest: i64,
    ) -> Result<(), AllocError> {
        let mut run = Run {
            is_full: true,
            mends: 0,
            resets: 0,
        };
        for _ in 0..self.most_steps() {
            if !self.step(alloc, columns, rows, dearest, &mut run)? {
                break;
            }
        }
        Ok(())
    }

    /// How many steps a call takes at the most.
    fn most_steps(&self) -> usize {
        self.prices.len().saturating_mul(50).saturating_add(1000)
    }

    /// Makes a pivot, or mends the inverse. Whether to go on.
    fn step(
        &mut self,
        alloc: Global,
        columns: &[Column],
        rows: &[Row],
        dearest: i64,
        run: &mut Run,
    ) -> Result<bool, AllocError> {
        if run.is_full {
            let residual = self
                .basis
                .find_prices(columns, dearest, &mut self.spare, &mut self.prices);
            if residual > MOST_RESIDUAL && self.since > 0 && run.mends < MENDS {
                return self.mend(alloc, columns, run);
            }
        }
        let Some(entering) = self.entering(columns, rows) else {
            let goes_on = !run.is_full;
            run.is_full = true;
            return Ok(goes_on);
        };
        self.basis.set_entries(columns, entering, &mut self.entries);
        match self.leaving() {
            Some(place) => self.exchange(alloc, columns, run, (entering, place)),
            None => {
                let may_help = self.since > 0 || !run.is_full;
                if !may_help || run.mends >= MENDS {
                    return Ok(false);
                }
                self.mend(alloc, columns, run)
            }
        }
    }

    /// Works out the inverse anew, as often as a call does that. Whether to go on.
    fn mend(
        &mut self,
        alloc: Global,
        columns: &[Column],
        run: &mut Run,
    ) -> Result<bool, AllocError> {
        run.mends = run.mends.saturating_add(1);
        self.rebuild(alloc, columns, run)
    }

    /// Works out the inverse anew. Whether to go on.
    fn rebuild(
        &mut self,
        alloc: Global,
        columns: &[Column],
        run: &mut Run,
    ) -> Result<bool, AllocError> {
        let fits = self.basis.rebuild(alloc, columns, &mut self.entries)?;
        self.since = 0;
        run.is_full = true;
        if !fits {
            return Ok(self.begin_again(columns, run));
        }
        self.tell_basic();
        self.basis
            .find_amounts(columns, &self.right, &mut self.spare, &mut self.amounts);
        Ok(true)
    }

    /// Begins again with the helpers, where that helps. Whether it may.
    fn begin_again(&mut self, columns: &[Column], run: &mut Run) -> bool {
        self.basis.reset();
        self.since = 0;
        self.tell_basic();
        self.basis
            .find_amounts(columns, &self.right, &mut self.spare, &mut self.amounts);
        run.is_full = true;
        run.resets = run.resets.saturating_add(1);
        run.resets < RESETS
    }

    /// Notes which columns are in the basis.
    fn tell_basic(&mut self) {
        for is_basic in self.is_basic.iter_mut() {
            *is_basic = false;
        }
        for member in &self.basis.members {
            tell(&mut self.is_basic, *member, true);
        }
    }

    /// The column of least reduced cost that may enter, if that is low enough.
    fn entering(&self, columns: &[Column], rows: &[Row]) -> Option<Member> {
        let (mut least, mut best) = self.entering_column(columns);
        for (place, (price, row)) in self.prices.iter().zip(rows).enumerate() {
            if let Some((reduced, member)) = by_row(*row, *price, place) {
                if reduced < least {
                    least = reduced;
                    best = Some(member);
                }
            }
        }
        best
    }

    /// The column of the pool of least reduced cost that may enter, if that is low enough, and its
    /// reduced cost.
    fn entering_column(&self, columns: &[Column]) -> (i64, Option<Member>) {
        let mut best = None;
        let mut least = ENTRY;
        for (place, (column, is_basic)) in columns.iter().zip(self.is_basic.iter()).enumerate() {
            if !*is_basic && column.is_active() {
                let reduced = column.reduced_cost(&self.prices);
                if reduced < least {
                    least = reduced;
                    best = Some(Member::Column(place));
                }
            }
        }
        (least, best)
    }

    /// The row of the member that leaves, by Harris's rule: of those whose amounts fall to 0 first
    /// but for the slack, the one with the greatest entry.
    fn leaving(&self) -> Option<usize> {
        let (bound, under) = self.least_ratio()?;
        let mut place = None;
        let mut most = 0;
        for (row, (entry, amount)) in self.entries.iter().zip(self.amounts.iter()).enumerate() {
            if *entry > LEAST_ENTRY && *entry > most {
                let own = product((*amount).max(0), under);
                if own <= product(bound, *entry) {
                    most = *entry;
                    place = Some(row);
                }
            }
        }
        place
    }

    /// The least ratio of an amount with the slack over an entry, as these two.
    fn least_ratio(&self) -> Option<(i64, i64)> {
        let mut least = None;
        for (entry, amount) in self.entries.iter().zip(self.amounts.iter()) {
            if *entry > LEAST_ENTRY {
                let own = (*amount).max(0).saturating_add(SLACK);
                if is_less(own, *entry, least) {
                    least = Some((own, *entry));
                }
            }
        }
        least
    }

    /// Lets a column enter in place of the member of a row. Whether to go on.
    fn exchange(
        &mut self,
        alloc: Global,
        columns: &[Column],
        run: &mut Run,
        pivot: (Member, usize),
    ) -> Result<bool, AllocError> {
        let (entering, place) = pivot;
        self.step_prices(columns, entering, place);
        run.is_full = false;
        self.step_amounts(place);
        if let Some(member) = self.basis.members.get(place) {
            tell(&mut self.is_basic, *member, false);
        }
        tell(&mut self.is_basic, entering, true);
        let fits = self.basis.exchange(&self.entries, place, entering)?;
        self.since = self.since.saturating_add(1);
        if !fits || self.since >= PIVOTS {
            return self.rebuild(alloc, columns, run);
        }
        Ok(true)
    }

    /// Steps the prices along the row of the pivot.
    fn step_prices(&mut self, columns: &[Column], entering: Member, place: usize) {
        let cost = match entering {
            Member::Column(own) => match columns.get(own) {
                Some(column) => column.cost,
                None => 0,
            },
            Member::Helper(_) | Member::Surplus(_) | Member::Slack(_) => 0,
        };
        let reduced = cost.saturating_sub(sum_over(columns, entering, &self.prices));
        let entry = i128::from(at(&self.entries, place));
        let step = product(reduced, ONE).checked_div(entry).unwrap_or(0);
        for (price, by) in self.prices.iter_mut().zip(self.basis.row(place)) {
            let part = step.saturating_mul(i128::from(*by));
            *price = price.saturating_add(narrow(rounded(part)));
        }
    }

    /// Steps the amounts as the entering column comes in.
    fn step_amounts(&mut self, place: usize) {
        let amount = at(&self.amounts, place).max(0);
        let entry = i128::from(at(&self.entries, place));
        let rise = narrow(product(amount, ONE).checked_div(entry).unwrap_or(0));
        for (own, by) in self.amounts.iter_mut().zip(self.entries.iter()) {
            *own = own.saturating_sub(narrow(rounded(product(*by, rise))));
        }
        put(&mut self.amounts, place, rise);
    }

    /// Puts the amounts of the columns of the pool that cover each row just as often as is wanted,
    /// and answers how much of helpers that takes.
    pub(crate) fn find_shares(&mut self, columns: &[Column], shares: &mut [i64]) -> i64 {
        for share in shares.iter_mut() {
            *share = 0;
        }
        for (own, wanted) in self.entries.iter_mut().zip(self.wanted.iter()) {
            *own = *wanted;
        }
        let mut amounts_left = 0;
        self.basis
            .find_amounts(columns, &self.entries, &mut self.spare, &mut self.amounts);
        for (member, amount) in self.basis.members.iter().zip(self.amounts.iter()) {
            match member {
                Member::Column(place) => put(shares, *place, *amount),
                Member::Helper(_) => amounts_left = amount.saturating_add(amounts_left),
                Member::Surplus(_) | Member::Slack(_) => {}
            }
        }
        self.basis
            .find_amounts(columns, &self.right, &mut self.spare, &mut self.amounts);
        amounts_left
    }
}

/// What of a row may enter at a price, and its reduced cost.
fn by_row(row: Row, price: i64, place: usize) -> Option<(i64, Member)> {
    match row.sense {
        Sense::AtLeast => Some((price, Member::Surplus(place))),
        Sense::Exactly => None,
        Sense::AtMost => Some((price.saturating_neg(), Member::Slack(place))),
    }
}

/// Notes whether a member is in the basis.
fn tell(is_basic: &mut [bool], member: Member, is_in: bool) {
    if let Member::Column(place) = member {
        if let Some(own) = is_basic.get_mut(place) {
            *own = is_in;
        }
    }
}

/// Whether a ratio is less than another one, if there is one.
fn is_less(over: i64, under: i64, other: Option<(i64, i64)>) -> bool {
    match other {
        Some((their_over, their_under)) => product(over, their_under) < product(their_over, under),
        None => true,
    }
}

/// What is wanted of each row.
fn wanted_sides(alloc: Global, rows: &[Row]) -> Result<Vec<i64>, AllocError> {
    let mut wanted = Vec::with_capacity(alloc, rows.len())?;
    for row in rows {
        wanted.push(ONE.saturating_mul(row.wanted()))?;
    }
    Ok(wanted)
}

/// What is to be covered of each row: what is wanted, and a little more by chance, so that few
/// pivots leave the cost as it is. Where rows are covered just so often nothing more is, since no
/// columns may be left then that do it.
fn right_sides(alloc: Global, rows: &[Row]) -> Result<Vec<i64>, AllocError> {
    let mut state: u64 = 88_172_645_463_325_252;
    let is_just = rows.iter().any(|row| row.sense == Sense::Exactly);
    let mut right = Vec::with_capacity(alloc, rows.len())?;
    for row in rows {
        state ^= state << 13;
        state ^= state >> 7;
        state ^= state << 17;
        let chance = (state % (1 << 20)) as i64;
        let wanted = ONE.saturating_mul(row.wanted());
        let more = if is_just { 0 } else { (1 << 17) + chance };
        right.push(wanted.saturating_add(more))?;
    }
    Ok(right)
}
