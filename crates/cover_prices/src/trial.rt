//! What an optimum costs more with a further row, by pivots of the dual simplex method (strong
//! branching, as in Applegate, Bixby, Chvatal, Cook 1998). No clause rests on this.

use crate::basis::{Basis, Member, sum_over};
use crate::columns::Column;
use crate::cover::Cover;
use crate::fixed::{ONE, at, narrow, product, put, rounded};
use crate::rows::{Row, Sense};
use crate::simplex::{LEAST_ENTRY, SLACK};
use std::alloc::{AllocError, Global};

/// So many pivots are made at the most.
const PIVOTS: usize = 80;

/// An optimum, and the columns of which others may be made.
#[derive(Drop)]
pub struct Trial<'a> {
    cover: &'a Cover,
    /// The places of the columns that may enter.
    columns: Vec<usize>,
}

impl Cover {
    /// What the optimum that was found last would cost with a further row, where those columns may
    /// enter whose reduced cost is at most a bar.
    pub fn trial(&self, alloc: Global, bar: u64) -> Result<Trial<'_>, AllocError> {
        let bar = narrow(i128::from(bar.saturating_mul(self.parts)));
        let prices = self.simplex.prices();
        let mut columns = Vec::new(alloc);
        for (place, column) in self.columns.iter().enumerate() {
            if column.is_active() && column.reduced_cost(prices) <= bar {
                columns.push(place)?;
            }
        }
        Ok(Trial {
            cover: self,
            columns,
        })
    }
}

impl Trial<'_> {
    /// By how much the optimum costs more with a row in which each column counts so often, by
    /// place: at the least, as far as some pivots show it, and no more than so much.
    pub fn gain(
        &self,
        alloc: Global,
        counts: &[i64],
        row: Row,
        most: u64,
    ) -> Result<u64, AllocError> {
        let parts = i128::from(self.cover.parts.max(1));
        let most_parts = i128::from(most).saturating_mul(parts);
        let mut run = DualRun::new(alloc, self.cover, &self.columns, counts, row)?;
        for _ in 0..PIVOTS {
            if run.gain >= most_parts {
                break;
            }
            match run.step()? {
                Step::Further => {}
                Step::Optimal => break,
                Step::Infeasible => return Ok(most),
            }
        }
        let gain = run.gain.max(0).checked_div(parts).unwrap_or(0);
        Ok(u64::try_from(gain).unwrap_or(most).min(most))
    }
}

/// What came of a step.
#[derive(Clone, Copy)]
enum Step {
    Further,
    Optimal,
    /// No amounts keep all rows.
    Infeasible,
}

/// A run of the dual simplex method, with a row behind the others.
#[derive(Drop)]
struct DualRun<'a> {
    columns: &'a [Column],
    /// The places of the columns that may enter.
    entering: &'a [usize],
    /// How often each column counts in the last row, by place.
    counts: &'a [i64],
    rows: &'a [Row],
    sense: Sense,
    basis: Basis,
    amounts: Vec<i64>,
    prices: Vec<i64>,
    /// The entries of the entering column, by row.
    entries: Vec<i64>,
    /// By how much the cost rose, in parts.
    gain: i128,
}

impl<'a> DualRun<'a> {
    /// The optimum, with a row of which nothing is asked yet.
    fn new(
        alloc: Global,
        cover: &'a Cover,
        entering: &'a [usize],
        counts: &'a [i64],
        row: Row,
    ) -> Result<DualRun<'a>, AllocError> {
        let own = cover.simplex.basis.members.as_slice();
        let coefficients = coefficients_of(alloc, own, counts)?;
        let taken = count_of(&coefficients, &cover.simplex.amounts);
        let wanted = ONE.saturating_mul(row.count);
        let is_most = row.sense == Sense::AtMost;
        let room = if is_most {
            wanted.saturating_sub(taken)
        } else {
            taken.saturating_sub(wanted)
        };
        let mut amounts = cover.simplex.amounts.clone()?;
        amounts.push(room)?;
        let mut prices = Vec::with_capacity(alloc, amounts.len())?;
        prices.extend_from_slice(cover.simplex.prices())?;
        prices.push(0)?;
        Ok(DualRun {
            columns: &cover.columns,
            entering,
            counts,
            rows: &cover.rows,
            sense: if is_most {
                Sense::AtMost
            } else {
                Sense::AtLeast
            },
            basis: cover.simplex.basis.widened(alloc, &coefficients, is_most)?,
            entries: vec![in alloc; 0; amounts.len()]?,
            amounts,
            prices,
            gain: 0,
        })
    }

    /// Makes a pivot, if one is needed.
    fn step(&mut self) -> Result<Step, AllocError> {
        let Some(place) = self.leaving() else {
            return Ok(Step::Optimal);
        };
        let Some(entering) = self.entering(place) else {
            return Ok(Step::Infeasible);
        };
        self.find_entries(entering);
        let entry = at(&self.entries, place);
        if entry >= LEAST_ENTRY.saturating_neg() {
            return Ok(Step::Optimal);
        }
        self.move_prices(entering, place, entry);
        self.move_amounts(place, entry);
        if self.basis.exchange(&self.entries, place, entering)? {
            Ok(Step::Further)
        } else {
            Ok(Step::Optimal)
        }
    }

    /// The row of the member whose amount is furthest below 0, if one is.
    fn leaving(&self) -> Option<usize> {
        let mut place = None;
        let mut least = SLACK.saturating_mul(1 << 12).saturating_neg();
        for (row, amount) in self.amounts.iter().enumerate() {
            if *amount < least {
                least = *amount;
                place = Some(row);
            }
        }
        place
    }

    /// What may enter for a row at the least cost.
    fn entering(&self, place: usize) -> Option<Member> {
        let row = self.basis.row(place);
        let mut best = Best::none();
        for own in self.entering {
            let member = Member::Column(*own);
            let entry = self.sum_of(member, row);
            if entry < LEAST_ENTRY.saturating_neg() {
                best.consider(self.reduced_cost(*own), entry, member);
            }
        }
        for (own, (price, entry)) in self.prices.iter().zip(row).enumerate() {
            best.consider_row(self.sense_of(own), *price, *entry, own);
        }
        best.member
    }

    /// The sense of a row.
    fn sense_of(&self, row: usize) -> Sense {
        match self.rows.get(row) {
            Some(own) => own.sense,
            None => self.sense,
        }
    }

    /// The sum over a member's services, with that in the last row, of numbers by row.
    fn sum_of(&self, member: Member, numbers: &[i64]) -> i64 {
        let sum = sum_over(self.columns, member, numbers);
        match member {
            Member::Column(place) => {
                let last = at(numbers, self.rows.len());
                sum.saturating_add(last.saturating_mul(at(self.counts, place)))
            }
            _ => sum,
        }
    }

    /// What a column costs beyond what it earns.
    fn reduced_cost(&self, place: usize) -> i64 {
        let cost = self.columns.get(place).map_or(0, |column| column.cost);
        cost.saturating_sub(self.sum_of(Member::Column(place), &self.prices))
    }

    /// Finds the entries of a member, by row.
    fn find_entries(&mut self, member: Member) {
        self.basis
            .set_entries(self.columns, member, &mut self.entries);
        let Member::Column(place) = member else {
            return;
        };
        let count = at(self.counts, place);
        if count != 0 {
            self.basis
                .add_entries(self.rows.len(), count, &mut self.entries);
        }
    }

    /// Moves the prices along the row of a pivot, and counts what that gains.
    fn move_prices(&mut self, entering: Member, place: usize, entry: i64) {
        let reduced = match entering {
            Member::Column(own) => self.reduced_cost(own),
            other => sum_over(self.columns, other, &self.prices).saturating_neg(),
        };
        let reduced = reduced.max(0);
        let gained = product(reduced, at(&self.amounts, place));
        let gained = gained.checked_div(i128::from(entry)).unwrap_or(0);
        self.gain = self.gain.saturating_add(gained);
        let step = product(reduced, ONE).checked_div(i128::from(entry));
        let step = step.unwrap_or(0);
        for (price, by) in self.prices.iter_mut().zip(self.basis.row(place)) {
            let part = step.saturating_mul(i128::from(*by));
            *price = price.saturating_add(narrow(rounded(part)));
        }
    }

    /// Moves the amounts as a member enters.
    fn move_amounts(&mut self, place: usize, entry: i64) {
        let over = product(at(&self.amounts, place), ONE);
        let rise = narrow(over.checked_div(i128::from(entry)).unwrap_or(0));
        for (own, by) in self.amounts.iter_mut().zip(self.entries.iter()) {
            *own = own.saturating_sub(narrow(rounded(product(*by, rise))));
        }
        put(&mut self.amounts, place, rise);
    }
}

/// What may enter at the least cost so far.
#[derive(Clone, Copy)]
struct Best {
    member: Option<Member>,
    reduced: i64,
    entry: i64,
}

impl Best {
    /// Nothing may yet.
    fn none() -> Best {
        Best {
            member: None,
            reduced: 0,
            entry: 0,
        }
    }

    /// Keeps a member with an entry below 0, where it costs less for each unit of it.
    fn consider(&mut self, reduced: i64, entry: i64, member: Member) {
        let reduced = reduced.max(0);
        let own = product(self.reduced, entry.saturating_neg());
        let its = product(reduced, self.entry.saturating_neg());
        let is_better = its < own || its == own && entry < self.entry;
        if self.member.is_none() || is_better {
            self.member = Some(member);
            self.reduced = reduced;
            self.entry = entry;
        }
    }

    /// Keeps what of a row may enter.
    fn consider_row(&mut self, sense: Sense, price: i64, entry: i64, row: usize) {
        let (reduced, entry, member) = match sense {
            Sense::AtLeast => (price, entry.saturating_neg(), Member::Surplus(row)),
            Sense::AtMost => (price.saturating_neg(), entry, Member::Slack(row)),
            Sense::Exactly => return,
        };
        if entry < LEAST_ENTRY.saturating_neg() {
            self.consider(reduced, entry, member);
        }
    }
}

/// How often the members of a basis count in a further row.
fn coefficients_of(
    alloc: Global,
    members: &[Member],
    counts: &[i64],
) -> Result<Vec<i64>, AllocError> {
    let mut coefficients = Vec::with_capacity(alloc, members.len())?;
    for member in members {
        coefficients.push(match member {
            Member::Column(place) => at(counts, *place),
            _ => 0,
        })?;
    }
    Ok(coefficients)
}

/// How much is counted by amounts.
fn count_of(coefficients: &[i64], amounts: &[i64]) -> i64 {
    let mut sum: i64 = 0;
    for (count, amount) in coefficients.iter().zip(amounts) {
        sum = sum.saturating_add(amount.saturating_mul(*count));
    }
    sum
}
