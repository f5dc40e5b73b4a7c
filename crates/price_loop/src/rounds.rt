//! The price loop: routes that earn are added as columns until there is none.

ghost use Rattle.std.specs.Prelude.{◌≡◌, ◌<◌, ◌≤◌, ◌^◌, All, IfErr, IfOk, IfSome, OnOk, length, unsigned_abs};
ghost use Rattle.master_simplex.specs.Answer.{IsAnswer, IsLpWithin};
ghost use Rattle.master_table.specs.RowView.{limits_of};
ghost use Rattle.price_loop.specs.Endings.{IsEnded};
ghost use Rattle.price_loop.specs.Masters.{HasMore, IsFault, IsMaster, IsStill};
ghost use Rattle.price_loop.specs.Problems.{IsClosing};

use crate::earners::{Earned, Earners};
use crate::ended::LoopEnd;
use crate::fault::MasterFault;
use crate::master::{Master, add, add_all, basis_of, fresh_master, solve_master};
use crate::watcher::{Nobody, RoundWatcher, round_progress};
use master_simplex::Lp;
use master_table::Caps;
use std::alloc::{AllocError, Global};

/// Solves the master problem over the routes that it begins with and those that the earners find,
/// until none earns any more; `Wide` where a basis comes whose numbers are past the caps.
///
/// The only `Err` is want of memory.
pub fn price_out<E: Earners>(
    alloc: Global,
    earners: &E,
    caps: Caps,
    begin: Vec<E::Route>,
) -> Result<LoopEnd<E::Route, E::Closing>, AllocError>
    requires begin { All (E.problem earners.now).is_route begin.items }
    requires body { 1 ≤ caps.body }
    requires body_cap { caps.body ≤ 2 ^ 40 }
    requires cost { 128 ≤ caps.cost }
    requires cost_cap { caps.cost ≤ 2 ^ 84 }
    ensures { IfOk result (IsEnded (E.problem earners.now) (limits_of caps)) }
{
    price_out_watched(alloc, earners, caps, begin, &mut Nobody {})
}

/// The same as [`price_out`], where a watcher is told behind each round how far the loop is.
pub fn price_out_watched<E: Earners, W: RoundWatcher>(
    alloc: Global,
    earners: &E,
    caps: Caps,
    begin: Vec<E::Route>,
    watcher: &mut W,
) -> Result<LoopEnd<E::Route, E::Closing>, AllocError>
    requires begin { All (E.problem earners.now).is_route begin.items }
    requires body { 1 ≤ caps.body }
    requires body_cap { caps.body ≤ 2 ^ 40 }
    requires cost { 128 ≤ caps.cost }
    requires cost_cap { caps.cost ≤ 2 ^ 84 }
    ensures { IfOk result (IsEnded (E.problem earners.now) (limits_of caps)) }
{
    let mut master = fresh_master(alloc, earners, caps)?;
    match price_in(alloc, earners, &mut master, begin, watcher) {
        Err(MasterFault::Memory) => Err(AllocError),
        Err(MasterFault::Wide { basis }) => Ok(LoopEnd::Wide {
            routes: master.routes,
            basis,
        }),
        Ok((lp, closing)) => {
            let basis = basis_of(alloc, &master.table)?;
            Ok(LoopEnd::Closed {
                lp,
                routes: master.routes,
                basis,
                closing,
            })
        }
    }
}

/// Adds the routes to begin with, and then in rounds those that earn, until none does. Answers the
/// optimum, or the ray, at which none does.
fn price_in<E: Earners, W: RoundWatcher>(
    alloc: Global,
    earners: &E,
    master: &mut Master<E::Route>,
    begin: Vec<E::Route>,
    watcher: &mut W,
) -> Result<(Lp, E::Closing), MasterFault>
    requires begin { All (E.problem earners.now).is_route begin.items }
    requires master { IsMaster (E.problem earners.now) master.old.table.caps master.old }
    ensures master { OnOk result
        (IsMaster (E.problem earners.now) master.old.table.caps master.new) }
    ensures answer { IfOk result (λ end. IsAnswer master.new.table end.0) }
    ensures within { IfOk result (λ end. IsLpWithin master.new.table end.0) }
    ensures closed { IfOk result (λ end.
        IsClosing (E.problem earners.now) end.0.weight end.0.prices.items end.1) }
    ensures fault { IfErr result
        (IsFault (E.problem earners.now) master.old.table.caps master.new.routes.items) }
{
    add_all(alloc, earners, master, begin)?;
    let mut rounds: u64 = 0;
    loop {
        let lp = solve_master(alloc, earners, master)?;
        watcher.watch_rounds(round_progress(rounds, master.routes.len(), &lp));
        rounds = rounds.saturating_add(1);
        if let Some(closing) = round(alloc, earners, master, &lp)? {
            return Ok((lp, closing));
        }
    }
}

/// Adds routes that earn at the prices of an answer: those at hand, or else those that a search
/// finds. Where there is none, what shows it.
fn round<E: Earners>(
    alloc: Global,
    earners: &E,
    master: &mut Master<E::Route>,
    lp: &Lp,
) -> Result<Option<E::Closing>, MasterFault>
    requires weight { lp.now.weight ≤ 2 ^ 40 }
    requires one_price { length lp.now.prices.items ≡ (E.problem earners.now).customers }
    requires small { All (λ price. unsigned_abs price ≤ 2 ^ 84) lp.now.prices.items }
    requires master { IsMaster (E.problem earners.now) master.old.table.caps master.old }
    ensures master { OnOk result
        (IsMaster (E.problem earners.now) master.old.table.caps master.new) }
    ensures closed { IfOk result (λ found. IfSome found
        (IsClosing (E.problem earners.now) lp.now.weight lp.now.prices.items)) }
    ensures still { IsStill result master.old master.new }
    ensures more { HasMore result master.old master.new }
    ensures fault { IfErr result
        (IsFault (E.problem earners.now) master.old.table.caps master.new.routes.items) }
{
    let near = earners.at_hand(alloc, lp.weight, &lp.prices)?;
    if !near.is_empty() {
        add_all(alloc, earners, master, near)?;
        return Ok(None);
    }
    match earners.earn(alloc, lp.weight, &lp.prices)? {
        Earned::Closed { closing } => Ok(Some(closing)),
        Earned::Better { first, further } => {
            add(alloc, earners, master, first)?;
            add_all(alloc, earners, master, further)?;
            Ok(None)
        }
    }
}
