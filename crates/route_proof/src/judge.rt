//! The test of a whole proof.

ghost use Rattle.std.specs.Prelude.{◌≡◌, ◌≤◌, ◌<◌, IfOk};
ghost use Rattle.std.specs.List.{All};
ghost use Rattle.ev_model.specs.Route.{IsRoute};
ghost use Rattle.route_proof.specs.Closed.{IsTrue};
ghost use Rattle.route_proof.specs.Covered.{IsCovered};
ghost use Rattle.route_proof.specs.Ranges.{ProofFits, RouteLabelFits};
ghost use Rattle.route_proof.specs.Verdicts.{IsVerdict};
ghost use Rattle.route_proof.specs.Faults.{TellsEnds, TellsLabels, TellsStart, TellsSteps};

use crate::asking::Asked;
use crate::fault::RouteLabelFault;
use crate::judged::Judged;
use crate::plan::bar_of;
use crate::steps::Missed;
use crate::{RouteLabel, RouteProof, RouteVerdict};
use instance_reader::Instance;
use label_steps::covers_all;
use piece_fn::PieceFn;
use route_steps::Place;
use std::alloc::{AllocError, Global};

/// Tests a proof of a charged route: `Accepted`, or the first rule that it breaks.
///
/// 1. The plan, if one is listed, is feasible from the charge `start`, and
/// 2. it is one of this route. The bar is its scaled time, and without a plan the scaled limit and
///    one more.
/// 3. Where the bar is above 0, a label covers the start: the depot with that charge at time 0. A
///    label covers a vehicle at the same place where it has a level at least as high, at a time no
///    later.
/// 4. Each step from a level of a label that does not end the route leads to the bar or past it, or
///    to a covered vehicle. A step goes to the next node of the route, or to a station that is
///    inserted, with any charge that battery and limit allow.
/// 5. No step home from a level of a label ends below the bar.
///
/// The rules are tried in this order, each over all labels before the next. Within a label the step
/// to the next node of the route comes first, and then those to stations by rising node.
///
/// An accepted proof shows that its plan is a fastest one of the route, or without a plan that none
/// is feasible, both in any fraction of a unit. It takes memory for at most two entries for each
/// label, and for the values of one step at a time.
pub fn check_route(
    alloc: Global,
    inst: &Instance,
    route: &[usize],
    start: u64,
    proof: &RouteProof,
) -> Result<RouteVerdict, AllocError>
    requires route { IsRoute inst.now route.now }
    requires start { start ≤ inst.now.capacity }
    requires fits { ProofFits inst.now route.now proof.now }
    ensures verdict { IfOk result (IsVerdict
        (record { network = inst.now; route = route.now; start = start }) proof.now) }
    ensures shows { IfOk result (λ v. v ≡ RouteVerdict.Accepted → IsTrue
        (record { network = inst.now; route = route.now; start = start }) proof.now.plan) }
{
    // The network of an instance has the depot.
    prove!(inst.nodes() > 0);
    let bar = match bar_of(inst, route, start, proof) {
        Ok(bar) => bar,
        Err(verdict) => return Ok(verdict),
    };
    match first_fault(alloc, inst, route, start, bar, proof.labels.as_slice())? {
        None => Ok(RouteVerdict::Accepted),
        Some(RouteLabelFault::Start) => Ok(RouteVerdict::Start),
        Some(RouteLabelFault::Step { label, node, via }) => Ok(RouteVerdict::Step {
            label,
            node,
            via,
        }),
        Some(RouteLabelFault::End { label }) => Ok(RouteVerdict::End { label }),
    }
}

/// The first rule that labels break under a bar, a scaled time; `None` where they are closed: the
/// rules 3 to 5 of [`check_route`].
pub fn first_fault(
    alloc: Global,
    inst: &Instance,
    route: &[usize],
    start: u64,
    bar: u64,
    labels: &[RouteLabel],
) -> Result<Option<RouteLabelFault>, AllocError>
    requires route { IsRoute inst.now route.now }
    requires labels { All (RouteLabelFits inst.now route.now) labels.now }
    ensures { IfOk result (TellsLabels (record {
      journey = record { network = inst.now; route = route.now; start = start };
      bar = bar;
      labels = labels.now;
    })) }
{
    let judged = Judged::new(alloc, inst, route, start, bar, labels)?;
    if !judged.covers_start(alloc) {
        return Ok(Some(RouteLabelFault::Start));
    }
    if let Some(fault) = judged.first_step(alloc)? {
        return Ok(Some(fault));
    }
    judged.first_end(alloc)
}

impl Judged<'_> {
    /// Whether the start is covered where the bar is above 0.
    fn covers_start(&self, alloc: Global) -> bool
        ensures { TellsStart self.now result }
    {
        let asked = Asked {
            judged: self,
            place: Place { passed: 0, node: 0 },
        };
        covers_all(&asked, &PieceFn::point(alloc, self.start(), 0))
    }

    /// The first step to a vehicle below the bar that is not covered, if there is one.
    fn first_step(&self, alloc: Global) -> Result<Option<RouteLabelFault>, AllocError>
        ensures { IfOk result (TellsSteps self.now) }
    {
        for label in 0..self.count() {
            if let Some(Missed { node, via }) = self.uncovered_step(alloc, self.label(label))? {
                return Ok(Some(RouteLabelFault::Step { label, node, via }));
            }
        }
        Ok(None)
    }

    /// The first label from which a step home ends below the bar, if there is one.
    fn first_end(&self, alloc: Global) -> Result<Option<RouteLabelFault>, AllocError>
        ensures { IfOk result (TellsEnds self.now) }
    {
        for label in 0..self.count() {
            if self.ends_below(alloc, self.label(label))? {
                return Ok(Some(RouteLabelFault::End { label }));
            }
        }
        Ok(None)
    }
}
