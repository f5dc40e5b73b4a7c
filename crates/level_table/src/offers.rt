//! The nearest way home from a place, over the places that a move leads to.

ghost use Rattle.std.specs.Prelude.{◌≡◌, ◌≤◌, ◌⊎◌, ℕ, IfSome};
ghost use Rattle.ev_model.specs.Network.{scaled_limit};
ghost use Rattle.level_table.specs.Table.{IsNoFarther, IsOffer, IsTable, offer_rank};
ghost use Rattle.level_table.specs.Places.{IsPlace};
ghost use Rattle.level_table.specs.declared.moves.Move.{Move};
ghost use Rattle.level_table.specs.declared.moves.Move.TheVariants.{Drive};

use crate::moves::Move;
use crate::place::Place;
use crate::reach::Reach;
use crate::trip::Trip;

/// A way home that begins with a move: how far home is that way, and where the move leads.
#[derive(Clone, Copy, Debug)]
pub(crate) struct Offer {
    pub(crate) reach: Reach,
    pub(crate) step: Move,
    pub(crate) to: Place,
}

impl<'a> Trip<'a> {
    /// The nearest way home within the limit, by what the entries hold for the places that the
    /// moves lead to.
    pub(crate) fn best(&self, entries: &[Option<Reach>], from: Place) -> Option<Offer>
        requires place { IsPlace self.now.network self.now.route from }
        requires table { IsTable self.now.network self.now.route entries.now }
        ensures some { IfSome result (IsOffer self.now.network self.now.route entries.now from) }
        ensures least { (step : Move) →
            IsNoFarther self.now.network self.now.route entries.now from step
            (offer_rank (scaled_limit self.now.network) result) }
    {
        let charge = self.offer(entries, from, Move::Charge);
        if from.plugged {
            nearer(charge, self.offer(entries, from, Move::Unplug))
        } else {
            self.best_drive(entries, from, charge)
        }
    }

    /// The nearest of the way home that begins with charging, `charge`, and those that begin with a
    /// drive.
    fn best_drive(
        &self,
        entries: &[Option<Reach>],
        from: Place,
        charge: Option<Offer>,
    ) -> Option<Offer>
        requires place { IsPlace self.now.network self.now.route from }
        requires table { IsTable self.now.network self.now.route entries.now }
        requires some { IfSome charge (IsOffer self.now.network self.now.route entries.now from) }
        ensures some { IfSome result (IsOffer self.now.network self.now.route entries.now from) }
        ensures charge { offer_rank (scaled_limit self.now.network) result
            ≤ offer_rank (scaled_limit self.now.network) charge }
        ensures drives { (slot : ℕ) →
            IsNoFarther self.now.network self.now.route entries.now from (Drive slot)
            (offer_rank (scaled_limit self.now.network) result) }
    {
        let mut best = charge;
        for slot in 0..self.slots() {
            best = nearer(best, self.offer(entries, from, Move::Drive { slot }));
        }
        best
    }

    /// The way home that begins with a move, if the move can be made and home is within the limit
    /// that way.
    fn offer(&self, entries: &[Option<Reach>], from: Place, step: Move) -> Option<Offer>
        requires place { IsPlace self.now.network self.now.route from }
        requires table { IsTable self.now.network self.now.route entries.now }
        ensures some { IfSome result (IsOffer self.now.network self.now.route entries.now from) }
        ensures least { IsNoFarther self.now.network self.now.route entries.now from step
            (offer_rank (scaled_limit self.now.network) result) }
    {
        let Some(leg) = self.leg(from, step) else {
            return None;
        };
        let Some(rest) = entries[self.index_of(leg.to)] else {
            return None;
        };
        let time = leg.time + rest.time;
        if time > self.scaled_limit() {
            return None;
        }
        let reach = Reach {
            time,
            steps: rest.steps + 1,
        };
        Some(Offer {
            reach,
            step,
            to: leg.to,
        })
    }
}

/// The nearer of two ways home.
fn nearer(one: Option<Offer>, other: Option<Offer>) -> Option<Offer>
    ensures either { (result ≡ one) ⊎ (result ≡ other) }
    ensures least { (limit : ℕ) → IfSome one (λ o. o.reach.time ≤ limit) →
        IfSome other (λ o. o.reach.time ≤ limit) →
        (offer_rank limit result ≤ offer_rank limit one)
        × (offer_rank limit result ≤ offer_rank limit other) }
{
    let Some(held) = one else {
        return other;
    };
    let Some(offer) = other else {
        return one;
    };
    if offer.reach.is_nearer(Some(held.reach)) {
        other
    } else {
        one
    }
}
