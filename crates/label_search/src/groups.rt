//! What the groups of a tree hold of its labels.

ghost use Rattle.std.specs.Prelude.{◌≡◌, IfOk, length};

use customer_sets::CustSet;
use dominance::LabelValue;
use piece_fn::PieceFn;
use std::alloc::{AllocError, Global};

/// How many labels a word has a bit for.
pub(crate) const BLOCK: usize = 64;

/// What is read of a label whose customers let it make another one needless, since it mostly shows
/// that the label doesn't.
#[derive(Clone, Copy, Drop)]
pub(crate) struct Glance {
    /// The least time of the label.
    pub(crate) key: u64,
    /// Its greatest level, or 0 where that is past 2^32.
    pub(crate) top: u32,
    /// Its number, by which the tree has it; no number of the tree where it is past 2^32.
    pub(crate) number: u32,
    /// What it has earned, less its least time times the weight.
    pub(crate) credit: i128,
}

impl Glance {
    /// What is read of a label with a value, which has earned so much, and a number.
    pub(crate) fn of(value: &PieceFn, weight: u64, earned: i128, number: usize) -> Glance {
        let (_, key) = value.least();
        let points = value.points();
        let (top, _) = points[points.len() - 1];
        Glance {
            key,
            top: u32::try_from(top).unwrap_or(0),
            number: u32::try_from(number).unwrap_or(u32::MAX),
            credit: credit(weight, key, earned),
        }
    }
}

/// What was earned, less a time times the weight.
pub(crate) fn credit(weight: u64, time: u64, earned: i128) -> i128 {
    let owed = u128::from(weight) * u128::from(time);
    earned.saturating_sub(i128::try_from(owed).unwrap_or(i128::MAX))
}

/// Labels that may make each other needless, in the order of their numbers.
#[derive(Drop)]
pub(crate) struct Group {
    /// What is read of the labels, by their place in the group.
    pub(crate) glances: Vec<Glance>,
    /// For each block of 64 places one word a customer: whose labels remember him.
    knowers: Vec<u64>,
}

impl Group {
    /// No label.
    pub(crate) fn new(alloc: Global) -> Group {
        Group {
            glances: Vec::new(alloc),
            knowers: Vec::new(alloc),
        }
    }

    /// Puts a label that remembers these of so many customers behind the others.
    pub(crate) fn push(
        &mut self,
        customers: usize,
        glance: Glance,
        memory: CustSet,
    ) -> Result<(), AllocError> {
        let place = self.glances.len();
        self.glances.push(glance)?;
        self.know(customers, memory, place)
    }

    /// Says that the label at a place remembers these customers.
    fn know(&mut self, customers: usize, memory: CustSet, place: usize) -> Result<(), AllocError> {
        let begin = (place / BLOCK).wrapping_mul(customers);
        let end = begin.wrapping_add(customers);
        if self.knowers.len() < end {
            self.knowers.resize(end, 0)?;
        }
        let bit = 1u64.wrapping_shl((place % BLOCK) as u32);
        for c in 0..customers.min(128) {
            if memory.has(c) {
                if let Some(word) = self.knowers.get_mut(begin.wrapping_add(c)) {
                    *word |= bit;
                }
            }
        }
        Ok(())
    }

    /// The labels of a block that remember none of the customers left out, as bits. `left_out` has
    /// a word for each of so many customers: all its bits are set where he is left out, else none.
    pub(crate) fn within(&self, customers: usize, block: usize, left_out: &[u64]) -> u64 {
        let begin = block.wrapping_mul(customers);
        let rows = self.knowers.get(begin..begin.wrapping_add(customers));
        let mut beyond = 0;
        for (knowers, word) in rows.unwrap_or(&[]).iter().zip(left_out) {
            beyond |= knowers & word;
        }
        !beyond & self.standing(block)
    }

    /// The labels of a block, as bits.
    fn standing(&self, block: usize) -> u64 {
        let labels = self.glances.len().saturating_sub(block.wrapping_mul(BLOCK));
        if labels < BLOCK {
            !u64::MAX.wrapping_shl(labels as u32)
        } else {
            u64::MAX
        }
    }
}

/// How far a label was compared with its group when it was added to it.
#[derive(Clone, Copy, Drop)]
pub(crate) struct Gap {
    /// A level of the label at which none that it was compared with makes it needless.
    pub(crate) level: u64,
    /// How many it was compared with: the first ones of its group.
    pub(crate) compared: usize,
}

impl Gap {
    /// That of a label with a value which was compared with none.
    pub(crate) fn new(value: &PieceFn) -> Gap {
        let (level, _) = value.least();
        Gap { level, compared: 0 }
    }
}

/// So many empty groups.
pub(crate) fn no_labels(alloc: Global, groups: usize) -> Result<Vec<Group>, AllocError>
    ensures { IfOk result (λ all. length all.items ≡ groups) }
{
    let mut all = Vec::new(alloc);
    for _ in 0..groups {
        all.push(Group::new(alloc))?;
    }
    Ok(all)
}
