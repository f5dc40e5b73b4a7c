//! How a table is made. No clause rests on this.

use crate::ground::Ground;
use crate::legs::AllLegs;
use crate::terms::NearTerms;

/// No table has more layers.
const MOST_LAYERS: u64 = 20_000;

/// No table is made that takes more steps: one for each layer and both ends of each arc.
const MOST_STEPS: usize = 150_000_000;

/// Numbers of tables are below it in units, and above its negative.
const MOST_UNITS: u128 = 1 << 30;

/// The layers of a table.
#[derive(Clone, Copy)]
pub(crate) struct Layers {
    /// The latest scaled time at home that is reckoned with.
    pub(crate) horizon: u64,
    /// The time of a layer.
    pub(crate) step: u64,
    pub(crate) count: u32,
}

/// What a vehicle takes that has no way home any more.
#[derive(Clone, Copy)]
pub(crate) struct Stranded {
    layers: u32,
    /// By so much less it is in each layer above.
    fall: u64,
    most: u64,
    pub(crate) unit: u32,
}

impl Layers {
    /// About so many layers up to the limit, or up to the time past which no route earns that
    /// serves nobody twice, where those up to the limit are too many. `None` where both are.
    pub(crate) fn new(ground: &Ground, terms: &NearTerms, layers: usize) -> Option<Layers> {
        match Layers::up_to(ground, terms, ground.limit(), layers) {
            Some(whole) => Some(whole),
            None => {
                let horizon = most_earning(terms)?.min(ground.limit());
                Layers::up_to(ground, terms, horizon, layers)
            }
        }
    }

    /// About so many layers up to a horizon; `None` where they are too many, or where arcs take
    /// nothing.
    fn up_to(ground: &Ground, terms: &NearTerms, horizon: u64, layers: usize) -> Option<Layers> {
        let span = i128::from(horizon) + ground.rate().worth(ground.full());
        let span = u64::try_from(span).ok()?;
        let parts = (layers as u64).max(2) - 1;
        let step = (span / parts).checked_add(1)?.min(ground.least_cost());
        if step == 0 || span / step >= MOST_LAYERS {
            return None;
        }
        let count = u32::try_from(span / step).ok()?.checked_add(1)?;
        if steps(ground, terms, count)? > MOST_STEPS {
            return None;
        }
        Some(Layers {
            horizon,
            step,
            count,
        })
    }

    /// The least lateness in a layer, `None` where that is below 0.
    pub(crate) fn latest(&self, layer: usize) -> Option<u64> {
        let above = u64::from(u32::try_from(layer).ok()?) + 1;
        let span = u128::from(above) * u128::from(self.step);
        let end = u128::from(self.horizon) + 1;
        u64::try_from(end.checked_sub(span)?).ok()
    }
}

/// How many steps a table takes with so many layers.
fn steps(ground: &Ground, terms: &NearTerms, layers: u32) -> Option<usize> {
    let stations = ground.depot().checked_sub(ground.customers())?;
    let rows = stations
        .checked_mul(terms.classes())?
        .checked_add(ground.customers())?;
    rows.checked_mul(ground.depot())?
        .checked_mul(layers as usize)
}

/// The time past which no route earns that serves nobody twice: what all earn, by the weight.
fn most_earning(terms: &NearTerms) -> Option<u64> {
    let mut sum: u64 = 0;
    for price in terms.prices() {
        if *price > 0 {
            sum = sum.checked_add(price.unsigned_abs())?;
        }
    }
    sum.checked_div(u64::from(terms.weight()))
}

impl Stranded {
    /// That of a table of so many layers; `None` where it doesn't fit.
    pub(crate) fn new(legs: &AllLegs, layers: u32) -> Option<Stranded> {
        let (fall, most) = legs.most_earned();
        let mut stranded = Stranded {
            layers,
            fall: fall.checked_add(1)?,
            most,
            unit: 1,
        };
        stranded.unit = u32::try_from(stranded.exact(0) / MOST_UNITS)
            .ok()?
            .checked_add(1)?;
        Some(stranded)
    }

    /// What it takes in a layer.
    fn exact(&self, layer: u32) -> u128 {
        let above = u64::from(self.layers.max(layer) - layer) + 2;
        u128::from(self.fall) * u128::from(above) + u128::from(self.most)
    }

    /// The same in units.
    pub(crate) fn at(&self, layer: u32) -> i32 {
        let units = self.exact(layer) / u128::from(self.unit.max(1));
        i32::try_from(units).unwrap_or(i32::MAX)
    }
}
