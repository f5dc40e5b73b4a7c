//! What `fleet` writes and puts of a search.

ghost use Rattle.std.specs.Prelude.{◌≡◌, ◌*◌, ◌≤◌, IfOk, IfSome, None, Option, Some, if◌then◌else◌, ℕ};
ghost use Rattle.std.specs.List.{All};
ghost use Rattle.bound_certificate.specs.Kept.{IsKept};
ghost use Rattle.bound_certificate.specs.Ranges.{Fits, SectionFits, customer_count};
ghost use Rattle.certificate_check.specs.Accepted.{IsAccepted};
ghost use Rattle.ev_fleet.specs.Outcome.{IsOutcome};
ghost use Rattle.ev_model.specs.Network.{IsNetwork};
ghost use Rattle.evroute_run.specs.FleetAnswer.{IsFound, IsReadBack, TellsRootOf, outcomes_of, search_status};
ghost use Rattle.fleet_model.specs.Prices.{price_total};
ghost use Rattle.instance_reader.specs.Instance.{most_customers};
ghost use Rattle.evroute_causes.specs.Heard.{HearsSearch, cause_beside};
ghost use Rattle.plan_writer.specs.FleetText.{IsExactLine, IsLowestLine, fleet_text};

use crate::watcher::JobWatcher;
use bound_certificate::{
    Certificate, Root, Section, push_certificate, written_certificates_are_read,
};
use certificate_check::price_total;
use ev_fleet::{Outcome, plan_fleet_watched};
use evroute_causes::Cause;
use instance_reader::Instance;
use job_frame::{Answer, Planned, Status};
use plan_writer::{Outcomes, RootLine, push_fleet_report};
use route_plan::push_fleet_plan;
use std::alloc::{AllocError, Global};

/// The texts of a fleet plan and of a certificate on an instance without too many customers, and
/// the report on both; with a budget, which is the greatest number of nodes that are looked at, of
/// what is found by then.
pub fn plan_all<W: JobWatcher>(
    alloc: Global,
    inst: &Instance,
    nodes: Option<u64>,
    watcher: &mut W,
) -> Result<Planned<Cause>, AllocError>
    requires few { customer_count inst.now ≤ most_customers }
    requires nodes { IfSome nodes (λ most. 1 ≤ most) }
    ensures found { IfOk result (λ p. IsFound inst.now nodes p.plan.items p.cert.items
        p.answer.status p.answer.text.items) }
    ensures heard { IfOk result
        (λ p. HearsSearch p.answer.status p.answer.text.items p.answer.cause) }
{
    watcher.begin(inst.denominator());
    let outcome = plan_fleet_watched(alloc, inst, nodes, watcher)?;
    know_read_back(inst, &outcome.certificate);
    let mut plan = Vec::new(alloc);
    push_fleet_plan(alloc, &mut plan, outcome.plan.as_ref())?;
    let mut cert = Vec::new(alloc);
    push_certificate(alloc, &mut cert, inst, &outcome.certificate)?;
    let answer = report(alloc, inst, &outcome)?;
    Ok(Planned { plan, cert, answer })
}

/// The text of a certificate is read as this certificate, where it isn't too long.
fn know_read_back(inst: &Instance, cert: &Certificate)
    requires network { IsNetwork inst.now }
    requires few { customer_count inst.now ≤ most_customers }
    requires fits { Fits inst.now cert.now }
    requires kept { All IsKept cert.now.sections }
    ensures { IsReadBack inst.now cert.now }
{
    written_certificates_are_read();
}

/// The report on a search, and its status.
fn report(alloc: Global, inst: &Instance, outcome: &Outcome) -> Result<Answer<Cause>, AllocError>
    requires few { customer_count inst.now ≤ most_customers }
    requires outcome { (budget : Option ℕ) × IsOutcome inst.now budget outcome.now }
    ensures status { IfOk result (λ a. a.status
        ≡ search_status outcome.now.certificate.bound outcome.now.stopped) }
    ensures text { IfOk result (λ a. (told : RootLine)
        × TellsRootOf inst.now outcome.now.certificate told
        × (a.text.items ≡ fleet_text inst.now.denominator
        (outcomes_of inst.now outcome.now told))) }
    ensures cause { IfOk result (λ a. a.cause ≡ cause_beside outcome.now.certificate.bound) }
{
    let outcomes = Outcomes {
        cost: outcome.cost,
        bound: outcome.certificate.bound,
        root: root_line(inst, &outcome.certificate),
        stopped: looked_at(outcome),
    };
    let mut text = Vec::new(alloc);
    push_fleet_report(alloc, &mut text, inst, &outcomes)?;
    Ok(Answer {
        status: search_status(outcomes.bound, outcome.stopped),
        text,
        cause: Cause::beside(outcomes.bound),
    })
}

/// How many nodes were looked at, where the budget ended the search.
fn looked_at(outcome: &Outcome) -> Option<u64>
    ensures { result ≡ (if outcome.now.stopped then Some outcome.now.nodes else None) }
{
    if outcome.stopped {
        Some(outcome.nodes)
    } else {
        None
    }
}

/// The status of a search with this bound.
fn search_status(bound: Option<u128>, stopped: bool) -> Status
    ensures { result ≡ search_status bound stopped }
{
    match bound {
        None => Status::Negative,
        Some(_) => {
            if stopped {
                Status::Stopped
            } else {
                Status::Done
            }
        }
    }
}

/// The line of the root of an accepted certificate.
fn root_line(inst: &Instance, cert: &Certificate) -> RootLine
    requires few { customer_count inst.now ≤ most_customers }
    requires network { IsNetwork inst.now }
    requires fits { Fits inst.now cert.now }
    requires accepted { IsAccepted inst.now cert.now }
    ensures told { TellsRootOf inst.now cert.now result }
    ensures lowest { IsLowestLine result }
{
    let sections = cert.sections.as_slice();
    match &cert.root {
        Root::None => RootLine::Empty,
        Root::Exact { .. } => exact_line(inst, &sections[0]),
        Root::Wide { .. } => RootLine::Wide,
    }
}

/// The line of an exact root with this section.
fn exact_line(inst: &Instance, section: &Section) -> RootLine
    requires few { customer_count inst.now ≤ most_customers }
    requires fits { SectionFits inst.now section.now }
    requires weight { 1 ≤ section.now.weight }
    ensures value { IsExactLine (price_total section.now.prices)
        (section.now.weight * inst.now.denominator) result }
    ensures lowest { IsLowestLine result }
{
    let sum = price_total(section.prices.as_slice());
    RootLine::exact(sum, section.weight, inst)
}
