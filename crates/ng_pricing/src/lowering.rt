//! Prices that are lowered until no near route earns by them.

ghost use Rattle.std.specs.Prelude.{◌≡◌, ◌≤◌, ◌^◌, IfOk, length};
ghost use Rattle.std.specs.List.{All};
ghost use Rattle.instance_reader.specs.Instance.{customer_nodes};
ghost use Rattle.ng_pricing.specs.Fixing.{IsBegun, IsSetting};

use crate::met::MetRoute;
use crate::setting::{Setting, prices_at};
use ev_list::Listed;
use near_pricing::{NearPriced, near_price};
use near_proof::NearLabel;
use std::alloc::{AllocError, Global};

/// Prices by the customers' numbers with which the prices begin to rise.
#[derive(Drop)]
pub(crate) struct Begun {
    pub(crate) prices: Vec<u64>,
    /// Closed at the prices.
    pub(crate) labels: Listed<NearLabel>,
    /// The near routes that were met.
    pub(crate) met: Vec<MetRoute>,
}

impl Setting<'_> {
    /// Lowers prices, each no further than a near route that earns needs it, until no near route
    /// earns.
    pub(crate) fn begun(&self, alloc: Global, start: Vec<u64>) -> Result<Begun, AllocError>
        requires setting { IsSetting self.now }
        requires one_price { length start.items ≡ length (customer_nodes self.now.inst.now) }
        requires small { All (λ price. price ≤ 10 ^ 18) start.items }
        ensures { IfOk result (IsBegun self.now.inst.now self.now.sets.now start.items) }
    {
        let mut prices = start;
        let mut met = Vec::new(alloc);
        'lower: loop {
            let asked = prices_at(alloc, &prices)?;
            match near_price(alloc, self.inst, self.sets, &asked)? {
                NearPriced::Better { plan } => {
                    let route = MetRoute::new(alloc, self.inst, plan)?;
                    route.lower(&mut prices);
                    met.push(route)?;
                }
                NearPriced::Closed { labels } => {
                    return Ok(Begun {
                        prices,
                        labels,
                        met,
                    });
                }
            }
        }
    }
}
