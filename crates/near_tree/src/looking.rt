//! Which labels of a leaf are looked at first for one that covers states. What is answered never
//! rests on this choice, so nothing is said of it.

use crate::judge::Judge;
use crate::{LastServed, SectionLabel};
use customer_sets::LargeSet;
use near_proof::{Brief, Compared, Looks};
use std::alloc::{AllocError, Global};

/// Whom a vehicle remembers, and lasts, of which those whose places differ by 64 count as one: of a
/// label those for which its last stands, of a state its own.
#[derive(Clone, Copy)]
pub(crate) struct Known {
    memory: LargeSet,
    lasts: u64,
}

impl Known {
    /// What is known of a state with a memory and the place of its last.
    pub(crate) fn of_state(memory: LargeSet, last: usize) -> Known {
        Known {
            memory,
            lasts: mark(last),
        }
    }
}

impl Compared for Known {
    fn may_cover(&self, other: &Known) -> bool {
        self.lasts & other.lasts != 0 && self.memory.is_subset(other.memory)
    }
}

impl Judge<'_> {
    /// The labels at each node, as they are looked at.
    pub(crate) fn looks(&self, alloc: Global) -> Result<Looks<Known>, AllocError> {
        let labels = self.site.section.labels.as_slice();
        let lasts = marks_of_rows(alloc, self.stands)?;
        let mut briefs = Vec::with_capacity(alloc, labels.len())?;
        for (number, label) in labels.iter().enumerate() {
            briefs.push(self.brief(lasts.as_slice(), number, label))?;
        }
        Looks::new(alloc, self.site.inst.nodes(), briefs)
    }

    /// What is known of the label with a number, by the marks of those for whom lasts stand.
    fn brief(&self, lasts: &[u64], number: usize, label: &SectionLabel) -> Brief<Known> {
        let known = Known {
            memory: label.memory,
            lasts: marks_at(lasts, label.last),
        };
        let weight = self.site.section.weight;
        Brief::new(
            weight,
            number,
            label.node,
            &label.value,
            label.earned,
            known,
        )
    }
}

/// The marks of each row of lasts.
fn marks_of_rows(alloc: Global, rows: &[LargeSet]) -> Result<Vec<u64>, AllocError> {
    let mut marks = Vec::with_capacity(alloc, rows.len())?;
    for row in rows {
        marks.push(marks_of(*row))?;
    }
    Ok(marks)
}

/// The marks of the lasts with these places.
fn marks_of(row: LargeSet) -> u64 {
    let mut marks = 0;
    for place in 0..448 {
        if row.has(place) {
            marks |= mark(place);
        }
    }
    marks
}

/// The mark of the last with a place.
fn mark(place: usize) -> u64 {
    1u64.wrapping_shl((place % 64) as u32)
}

/// The marks of the row of a last.
fn marks_at(marks: &[u64], last: LastServed) -> u64 {
    let row = match last {
        LastServed::Nobody => marks.first(),
        LastServed::Customer(number) => marks.get(number.saturating_add(1)),
        LastServed::Anybody => marks.last(),
    };
    row.copied().unwrap_or(u64::MAX)
}
