//! Which labels make others needless.

ghost use Rattle.std.specs.Prelude.{◌≡◌, ◌<◌, ◌≤◌, ◌^◌, IfSome, length, unsigned_abs};
ghost use Rattle.dominance.specs.LevelTimes.{IsLevel};
ghost use Rattle.piece_fn.specs.PieceFn.{level_times};
ghost use Rattle.label_search.specs.Steps.{IsInRange};
ghost use Rattle.label_search.specs.Tree.{IsTree};

use crate::found::Tree;
use crate::groups::{BLOCK, Gap, Glance, Group, credit};
use crate::resources::{Care, Resources};
use crate::search::Search;
use closed_lists::margin;
use customer_sets::CustSet;
use dominance::LabelValue;
use piece_fn::PieceFn;

/// A label that may be needless, beside the labels that come before a key and a number.
#[derive(Drop)]
pub(crate) struct Asked<'a, L: Drop> {
    pub(crate) label: &'a L,
    /// Its value.
    pub(crate) value: &'a PieceFn,
    /// What it has earned.
    pub(crate) earned: i128,
    pub(crate) care: Care,
    pub(crate) key: u64,
    pub(crate) number: usize,
    /// No level below this one counts.
    pub(crate) lowest: u64,
    /// For each customer a word with all its bits set where a label that remembers him can't make
    /// this one needless, else with none.
    left_out: &'a [u64; 128],
}

/// A label, which has earned so much, beside those that come before a key and a number.
pub(crate) fn asked_of<'a, R: Resources>(
    resources: &R,
    search: &Search<'_, R::Label, R::Route>,
    label: &'a R::Label,
    earned: i128,
    before: (u64, usize),
    left_out: &'a [u64; 128],
) -> Asked<'a, R::Label>
    ensures label { result.label.now ≡ label.now }
    ensures value { result.value.now ≡ (R.space resources.now).value label.now }
    ensures earned { result.earned ≡ earned }
{
    let (key, number) = before;
    Asked {
        label,
        value: resources.value(label),
        earned,
        care: search.care,
        key,
        number,
        lowest: resources.least_level(search.table, label),
        left_out,
    }
}

/// For each of so many customers a word with all its bits set where a label that remembers him
/// can't make one needless that remembers these, else with none.
pub(crate) fn all_but(customers: usize, set: CustSet) -> [u64; 128] {
    let mut words = [0; 128];
    for c in 0..customers.min(128) {
        if !set.has(c) {
            words[c] = u64::MAX;
        }
    }
    words
}

impl<L: Drop> Asked<'_, L> {
    /// Whether a label has a level that is not below one, costs no more at its least time than so
    /// much credit leaves, and comes before a time, the key and the number.
    fn is_met(&self, other: &Glance, credit: i128, time: u64, level: u64) -> bool {
        if other.credit < credit || u64::from(other.top) < level {
            return false;
        }
        if other.key > time || other.key > self.key {
            return false;
        }
        other.key < self.key || (other.number as usize) < self.number
    }
}

/// The first level of the label at which no other one has that level or a higher one at no more
/// cost and no later; `None` where others make it needless.
pub(crate) fn gap<R: Resources>(
    resources: &R,
    tree: &Tree<R::Label>,
    asked: &Asked<'_, R::Label>,
) -> Option<Gap>
    requires tree { IsTree (R.space resources.now) tree.now.found.items tree.now.groups.items }
    requires range { IsInRange (R.space resources.now) asked.now.label.now }
    requires small { unsigned_abs asked.now.earned ≤ 2 ^ 91 }
{
    let group = &tree.groups[resources.group(asked.label)];
    let (least, _) = asked.value.least();
    let mut level = least.max(asked.lowest);
    let mut time = asked.value.at(level)?;
    while let Some(to) = reach(resources, tree, asked, (group, 0), (level, time)) {
        level = to.checked_add(1)?;
        time = asked.value.at(level)?;
    }
    Some(Gap {
        level,
        compared: group.glances.len(),
    })
}

/// Whether other labels make a label needless that was added with a gap.
///
/// Those that it was compared with leave the level of the gap open, so the later ones are asked
/// first whether they close it.
pub(crate) fn makes_needless<R: Resources>(
    resources: &R,
    tree: &Tree<R::Label>,
    asked: &Asked<'_, R::Label>,
    open: Gap,
) -> bool
    requires tree { IsTree (R.space resources.now) tree.now.found.items tree.now.groups.items }
    requires range { IsInRange (R.space resources.now) asked.now.label.now }
    requires small { unsigned_abs asked.now.earned ≤ 2 ^ 91 }
{
    let group = &tree.groups[resources.group(asked.label)];
    let Some(time) = asked.value.at(open.level) else {
        return false;
    };
    reach(
        resources,
        tree,
        asked,
        (group, open.compared),
        (open.level, time),
    )
    .is_some()
        && gap(resources, tree, asked).is_none()
}

/// A level up to which a label of a group from a place on does so, from a level with its time on;
/// `None` where none does so at that level.
fn reach<R: Resources>(
    resources: &R,
    tree: &Tree<R::Label>,
    asked: &Asked<'_, R::Label>,
    others: (&Group, usize),
    from: (u64, u64),
) -> Option<u64>
    requires small { unsigned_abs asked.now.earned ≤ 2 ^ 91 }
    requires level { IsLevel (level_times asked.now.value.now) from.0 }
    ensures up { IfSome result (λ to. from.0 ≤ to) }
    ensures ends { IfSome result (λ to. IsLevel (level_times asked.now.value.now) to) }
{
    let ((group, first), left_out) = (others, asked.left_out);
    let (begin, end) = (first / BLOCK, group.glances.len().div_ceil(BLOCK));
    for place in begin..end {
        let block = if resources.latest_first() {
            end.wrapping_sub(place).wrapping_add(begin).wrapping_sub(1)
        } else {
            place
        };
        let skipped = first.saturating_sub(block.wrapping_mul(BLOCK)).min(63) as u32;
        let labels = group.within(tree.customers, block, left_out) & u64::MAX.wrapping_shl(skipped);
        if let Some(to) = reach_in(resources, tree, asked, group, block, labels, from) {
            return Some(to);
        }
    }
    None
}

/// The same by the labels of a block whose bits are set.
fn reach_in<R: Resources>(
    resources: &R,
    tree: &Tree<R::Label>,
    asked: &Asked<'_, R::Label>,
    group: &Group,
    block: usize,
    labels: u64,
    from: (u64, u64),
) -> Option<u64>
    requires small { unsigned_abs asked.now.earned ≤ 2 ^ 91 }
    requires level { IsLevel (level_times asked.now.value.now) from.0 }
    ensures up { IfSome result (λ to. from.0 ≤ to) }
    ensures ends { IfSome result (λ to. IsLevel (level_times asked.now.value.now) to) }
{
    let (level, time) = from;
    let credit = credit(resources.weight(), time, asked.earned);
    let mut left = labels;
    for _ in 0..labels.count_ones() {
        let bit = if resources.latest_first() {
            63u32.wrapping_sub(left.leading_zeros())
        } else {
            left.trailing_zeros()
        };
        left &= !1u64.wrapping_shl(bit);
        let place = block.wrapping_mul(BLOCK).wrapping_add(bit as usize);
        let Some(glance) = group.glances.get(place) else {
            continue;
        };
        if !asked.is_met(glance, credit, time, level) {
            continue;
        }
        if let Some(to) = reach_of(resources, tree, asked, glance, level) {
            return Some(to);
        }
    }
    None
}

/// The same by the label of which so much was read.
fn reach_of<R: Resources>(
    resources: &R,
    tree: &Tree<R::Label>,
    asked: &Asked<'_, R::Label>,
    glance: &Glance,
    level: u64,
) -> Option<u64>
    requires small { unsigned_abs asked.now.earned ≤ 2 ^ 91 }
    requires level { IsLevel (level_times asked.now.value.now) level }
    ensures up { IfSome result (λ to. level ≤ to) }
    ensures ends { IfSome result (λ to. IsLevel (level_times asked.now.value.now) to) }
{
    let own = tree.found.get(glance.number as usize)?;
    if own.earned.unsigned_abs() > 1 << 91 {
        return None;
    }
    if !resources.covers(asked.care, &own.label, asked.label) {
        return None;
    }
    let extra = margin(resources.weight(), own.earned, asked.earned)?;
    resources.value(&own.label).reach(asked.value, extra, level)
}
