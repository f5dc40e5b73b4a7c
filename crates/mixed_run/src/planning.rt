//! What `mixed` writes and puts of a search.

ghost use Rattle.std.specs.Prelude.{◌≡◌, ◌≤◌, IfOk, option_map};
ghost use Rattle.std.specs.List.{All};
ghost use Rattle.certificate_parts.specs.Ranges.{customer_count};
ghost use Rattle.ev_model.specs.Network.{IsNetwork};
ghost use Rattle.instance_reader.specs.Instance.{most_customers};
ghost use Rattle.evroute_causes.specs.Heard.{cause_beside};
ghost use Rattle.mixed_fleet.specs.Outcome.{IsOutcome};
ghost use Rattle.mixed_fleet.specs.Proofs.{IsBestProof};
ghost use Rattle.mixed_model.specs.Kinds.{AreKinds, first_of};
ghost use Rattle.mixed_model.specs.Ranges.{MixedFits};
ghost use Rattle.mixed_text.specs.MixedIn.{HaveSets};
ghost use Rattle.mixed_run.specs.MixedAnswer.{IsMixedFound, IsReadBack, TellsRoot, mixed_heard, mixed_status, outcomes_of};
ghost use Rattle.plan_writer.specs.FleetText.{IsLowestLine, fleet_text};
ghost use Rattle.plan_writer.specs.declared.fleet.RootLine.{RootLine};

use certificate_check::price_total;
use ev_list::Listed;
use evroute_causes::Cause;
use instance_reader::Instance;
use job_frame::{Answer, Planned, ScaleWatcher, Status};
use mixed_fleet::{MixedOutcome, RoundWatcher, plan_mixed_watched};
use mixed_model::{MixedProof, MixedRoot, MixedRoute, push_mixed_plan};
use mixed_text::{push_mixed, written_mixed_proofs_are_read};
use plan_writer::{Outcomes, RootLine, push_fleet_report};
use std::alloc::{AllocError, Global};

/// The texts of a plan for these kinds of vehicles and of a proof, and the report on both.
pub fn plan_all<W: RoundWatcher + ScaleWatcher>(
    alloc: Global,
    kinds: &[Instance],
    watcher: &mut W,
) -> Result<Planned<Cause>, AllocError>
    requires networks { All IsNetwork kinds.now }
    requires kinds { AreKinds kinds.now }
    requires few { customer_count (first_of kinds.now) ≤ most_customers }
    ensures found { IfOk result (λ p. IsMixedFound kinds.now p.plan.items p.cert.items
        p.answer.status p.answer.text.items) }
    ensures heard { IfOk result
        (λ p. mixed_heard p.answer.status p.answer.text.items p.answer.cause) }
{
    watcher.begin(kinds[0].denominator());
    let outcome = plan_mixed_watched(alloc, kinds, watcher)?;
    know_read_back(kinds, &outcome.proof);
    let mut plan = Vec::new(alloc);
    push_mixed_plan(alloc, &mut plan, held_routes(&outcome.plan))?;
    let mut cert = Vec::new(alloc);
    push_mixed(alloc, &mut cert, kinds, &outcome.proof)?;
    let answer = report(alloc, kinds, &outcome)?;
    Ok(Planned { plan, cert, answer })
}

/// The text of a proof is read as this proof, where it isn't too long.
fn know_read_back(kinds: &[Instance], proof: &MixedProof)
    requires networks { All IsNetwork kinds.now }
    requires kinds { AreKinds kinds.now }
    requires fits { MixedFits kinds.now proof.now }
    requires kept { HaveSets proof.now.labels }
    ensures { IsReadBack kinds.now proof.now }
{
    written_mixed_proofs_are_read();
}

/// The routes of a plan that is held.
fn held_routes(plan: &Option<Listed<MixedRoute>>) -> Option<&[MixedRoute]>
    ensures { option_map (λ p. p.now) result ≡ plan.now }
{
    match plan {
        Some(routes) => Some(routes.as_slice()),
        None => None,
    }
}

/// The report on a search, and its status.
fn report(
    alloc: Global,
    kinds: &[Instance],
    outcome: &MixedOutcome,
) -> Result<Answer<Cause>, AllocError>
    requires kinds { AreKinds kinds.now }
    requires few { customer_count (first_of kinds.now) ≤ most_customers }
    requires outcome { IsOutcome kinds.now outcome.now }
    ensures status { IfOk result (λ a. a.status ≡ mixed_status outcome.now.proof.bound) }
    ensures text { IfOk result (λ a. (told : RootLine)
        × TellsRoot kinds.now outcome.now.proof outcome.now.proof.root told
        × (a.text.items ≡ fleet_text (first_of kinds.now).denominator
        (outcomes_of kinds.now outcome.now told))) }
    ensures cause { IfOk result (λ a. a.cause ≡ cause_beside outcome.now.proof.bound) }
{
    let outcomes = Outcomes {
        cost: outcome.cost,
        bound: outcome.proof.bound,
        root: root_line(kinds, &outcome.proof),
        stopped: None,
    };
    let mut text = Vec::new(alloc);
    push_fleet_report(alloc, &mut text, &kinds[0], &outcomes)?;
    Ok(Answer {
        status: mixed_status(outcomes.bound),
        text,
        cause: Cause::beside(outcomes.bound),
    })
}

/// The status of a search with this bound.
fn mixed_status(bound: Option<u128>) -> Status
    ensures { result ≡ mixed_status bound }
{
    match bound {
        None => Status::Negative,
        Some(_) => Status::Done,
    }
}

/// The line of the root of the proof that a search found.
fn root_line(kinds: &[Instance], proof: &MixedProof) -> RootLine
    requires kinds { AreKinds kinds.now }
    requires few { customer_count (first_of kinds.now) ≤ most_customers }
    requires proof { IsBestProof kinds.now proof.now }
    ensures told { TellsRoot kinds.now proof.now proof.now.root result }
    ensures lowest { IsLowestLine result }
{
    match &proof.root {
        MixedRoot::None => RootLine::Empty,
        MixedRoot::Exact { .. } => {
            let sum = price_total(proof.prices.as_slice());
            RootLine::exact(sum, proof.weight, &kinds[0])
        }
        MixedRoot::Wide { .. } => RootLine::Wide,
    }
}
