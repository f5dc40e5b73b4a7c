//! Which labels are looked at first for one that covers states: those that covered some lately, and
//! of the others those of least time for what they earned. What is answered never rests on this
//! choice, so nothing is said of it.

use crate::asking::last_level;
use dominance::LabelValue;
use piece_fn::PieceFn;
use std::alloc::{AllocError, Global};

/// What else decides whether a label may cover a state: whom both remember, say.
pub trait Compared: Copy + Drop {
    /// Whether a label of which this is known may cover a state of which that is known.
    fn may_cover(&self, other: &Self) -> bool;
}

/// What is known of a label before it is looked at itself.
#[derive(Clone, Copy)]
pub struct Brief<C: Compared> {
    /// The node where the vehicle is.
    node: usize,
    /// The label's number.
    number: usize,
    /// The least of its times.
    time: u64,
    /// Its standing at that time.
    standing: i128,
    /// Its highest level.
    top: u64,
    /// What else is compared.
    compared: C,
}

impl<C: Compared> Brief<C> {
    /// What is known of the label with a number, a node and a value, that earned this under a
    /// weight of time. It takes no memory.
    pub fn new(
        weight: u64,
        number: usize,
        node: usize,
        value: &PieceFn,
        earned: i128,
        compared: C,
    ) -> Brief<C> {
        let (_, time) = value.least();
        Brief {
            node,
            number,
            time,
            standing: standing(weight, time, earned),
            top: last_level(value),
            compared,
        }
    }

    /// Whether the label may cover a state at its node.
    fn may_cover(&self, sought: &Sought<C>) -> bool {
        let is_late = (self.time > sought.time) | (self.standing > sought.standing);
        !(is_late | (self.top < sought.level)) && self.compared.may_cover(&sought.compared)
    }
}

/// A state, of which a label is known by its brief not to cover it, or may.
#[derive(Clone, Copy)]
pub struct Sought<C: Compared> {
    time: u64,
    standing: i128,
    level: u64,
    compared: C,
}

impl<C: Compared> Sought<C> {
    /// The state with a level at a time, after what was earned under a weight of time. It takes no
    /// memory.
    pub fn new(weight: u64, level: u64, time: u64, earned: i128, compared: C) -> Sought<C> {
        Sought {
            time,
            standing: standing(weight, time, earned),
            level,
            compared,
        }
    }
}

/// The labels at each node, in the order in which they are looked at.
#[derive(Drop)]
pub struct Looks<C: Compared> {
    nodes: Vec<Vec<Brief<C>>>,
}

impl<C: Compared> Looks<C> {
    /// The labels at each of so many nodes, by rising standing. The only `Err` is want of memory.
    pub fn new(alloc: Global, nodes: usize, briefs: Vec<Brief<C>>) -> Result<Looks<C>, AllocError> {
        let mut looks = Looks {
            nodes: Vec::with_capacity(alloc, nodes)?,
        };
        for _ in 0..nodes {
            looks.nodes.push(Vec::new(alloc))?;
        }
        let mut briefs = briefs;
        briefs.sort_by_key(|brief| brief.standing)?;
        for brief in &briefs {
            looks.add(*brief)?;
        }
        Ok(looks)
    }

    /// Puts a label behind the others at its node.
    fn add(&mut self, brief: Brief<C>) -> Result<(), AllocError> {
        if let Some(briefs) = self.nodes.get_mut(brief.node) {
            briefs.push(brief)?;
        }
        Ok(())
    }

    /// How many labels there are at a node.
    pub(crate) fn count(&self, node: usize) -> usize {
        match self.nodes.get(node) {
            Some(briefs) => briefs.len(),
            None => 0,
        }
    }

    /// The first label at a node, from a place on, that may cover a state: its place and its
    /// number.
    pub(crate) fn next(
        &self,
        node: usize,
        from: usize,
        sought: &Sought<C>,
    ) -> Option<(usize, usize)> {
        let briefs = self.nodes.get(node)?.get(from..)?;
        for (at, brief) in briefs.iter().enumerate() {
            if brief.may_cover(sought) {
                return Some((from.wrapping_add(at), brief.number));
            }
        }
        None
    }

    /// Lets the label at a place of a node be looked at sooner.
    pub(crate) fn raise(&mut self, node: usize, place: usize) {
        if let Some(briefs) = self.nodes.get_mut(node) {
            if place < briefs.len() {
                briefs.as_mut_slice().swap(place, place / 2);
            }
        }
    }
}

/// The less, the less time is taken for what is earned: the time, times the weight, less what was
/// earned.
fn standing(weight: u64, time: u64, earned: i128) -> i128 {
    let taken = i128::from(weight).saturating_mul(i128::from(time));
    taken.saturating_sub(earned)
}
