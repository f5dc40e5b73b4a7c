//! By when a full battery was had, at each place: what comes there later is needless.

ghost use Rattle.std.specs.Prelude.{◌≡◌, ◌+◌, ◌<◌, ◌*◌, ◌^◌, ℕ, IfOk, IfSome, IsTrue, None, OnOk, Option, length, replicate};
ghost use Rattle.ev_model.specs.Network.{node_count};
ghost use Rattle.frvcp_labels.specs.Charged.{OnlyAdds};
ghost use Rattle.frvcp_labels.specs.Full.{AreFull, IsFullBy, IsNoted};
ghost use Rattle.frvcp_labels.specs.Search.{HasOrigin, IsGrown, IsSoundPool, Reached};
ghost use Rattle.route_steps.specs.Steps.{Holds, IsSoundState};
ghost use Rattle.route_steps.specs.Ways.{Leaving};

use crate::trip::Trip;
use dominance::LabelValue;
use label_pool::Pool;
use route_steps::State;
use std::alloc::{AllocError, Global};

impl<'a> Trip<'a> {
    /// Adds a label, where no live one covers it, and notes when it has a full battery.
    pub(crate) fn add_noted(
        &self,
        pool: &mut Pool<State>,
        full: &mut [Option<u64>],
        parent: Option<usize>,
        state: State,
    ) -> Result<(), AllocError>
        requires pool { IsSoundPool self.now pool.old }
        requires full { AreFull self.now pool.old.labels full.old }
        requires state { IsSoundState self.now.network self.now.route state }
        requires origin { HasOrigin self.now pool.old.labels parent state }
        ensures pool { OnOk result (IsSoundPool self.now pool.new) }
        ensures full { OnOk result (AreFull self.now pool.new.labels full.new) }
        ensures grown { OnOk result (IsGrown pool.old.labels pool.new.labels) }
        ensures reached { OnOk result ((v : Leaving) → Holds state v →
            Reached pool.new.labels v) }
        ensures only { OnOk result (OnlyAdds pool.old.labels pool.new.labels state) }
    {
        let bucket = self.bucket(state.passed, state.node);
        let full_by = state.value.at(self.capacity());
        self.add(pool, parent, state)?;
        note(full, bucket, full_by);
        Ok(())
    }

    /// Whether a full battery was had at a node before a vehicle of a state arrives there.
    pub(crate) fn is_full_by(
        &self,
        full: &[Option<u64>],
        from: &State,
        passed: usize,
        to: usize,
    ) -> bool
        requires count { length full.now ≡ length self.now.route * node_count self.now.network }
        requires few { length self.now.route * node_count self.now.network < 2 ^ 64 }
        requires left { from.now.node < node_count self.now.network }
        requires passed { passed < length self.now.route }
        requires reached { to < node_count self.now.network }
        ensures { IsTrue result → IsFullBy self.now full.now from.now passed to }
    {
        let Some(time) = full[self.bucket(passed, to)] else {
            return false;
        };
        let (_, least) = from.value.least();
        time.saturating_sub(self.drive_time(from.node, to)) <= least
    }
}

/// No full battery was had yet.
pub(crate) fn none_yet(alloc: Global, buckets: usize) -> Result<Vec<Option<u64>>, AllocError>
    ensures { IfOk result (λ full. full.items ≡ replicate buckets None) }
{
    vec![in alloc; None; buckets]
}

/// Notes a time, if there is one, and none that is as early stands there.
fn note(full: &mut [Option<u64>], bucket: usize, time: Option<u64>)
    requires { bucket < length full.old }
    ensures count { length full.new ≡ length full.old }
    ensures noted { IsNoted full.old bucket time full.new }
{
    let is_sooner = match (full[bucket], time) {
        (_, None) => false,
        (None, Some(_)) => true,
        (Some(old), Some(new)) => new < old,
    };
    if is_sooner {
        full[bucket] = time;
    }
}
