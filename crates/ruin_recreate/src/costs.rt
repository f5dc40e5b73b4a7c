//! What orders cost: they are charged below a bar, and remembered.

use crate::charger::Charger;
use crate::gaps::Gaps;
use crate::ground::Ground;
use crate::memo::{Memo, Recalled, hash_of};
use instance_reader::Instance;
use std::alloc::{AllocError, Global};

/// Tells what orders take.
#[derive(Drop)]
pub(crate) struct Costs {
    pub(crate) ground: Ground,
    gaps: Gaps,
    charger: Charger,
    memo: Memo,
}

impl Costs {
    pub(crate) fn new(alloc: Global, inst: &Instance) -> Result<Costs, AllocError> {
        let ground = Ground::new(alloc, inst)?;
        let gaps = Gaps::new(alloc, &ground)?;
        Ok(Costs {
            ground,
            gaps,
            charger: Charger::new(alloc)?,
            memo: Memo::new(alloc)?,
        })
    }

    /// The least time of an order, where it is below a bar.
    pub(crate) fn time_below(
        &mut self,
        order: &[usize],
        bar: u64,
    ) -> Result<Option<u64>, AllocError> {
        let hash = hash_of(order);
        match self.memo.recall(hash, bar) {
            Recalled::Time(time) => return Ok(Some(time)),
            Recalled::NotBelow => return Ok(None),
            Recalled::Nothing => {}
        }
        let found = self
            .charger
            .time_below(&self.ground, &self.gaps, order, bar)?;
        self.memo.remember(hash, bar, found);
        Ok(found)
    }

    /// How much work was done.
    pub(crate) fn work(&self) -> u64 {
        self.charger.work
    }
}
