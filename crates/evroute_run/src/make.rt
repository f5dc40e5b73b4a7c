//! What `make` does: an instance is made and written, and then its route over all customers is
//! charged.

ghost use Rattle.std.specs.Prelude.{◌≡◌, ◌≢◌, ◌<◌, ◌≤◌, ◌∷◌, [], false, IfOk, List, None, Option, Some};
ghost use Rattle.command_line.specs.JobValue.{job_value};
ghost use Rattle.command_line.specs.Words.{MakeJob};
ghost use Rattle.command_line.specs.declared.Job.TheVariants.{Make};
ghost use Rattle.ev_model.specs.Feasible.{IsFeasible};
ghost use Rattle.ev_model.specs.Network.{node_count};
ghost use Rattle.ev_model.specs.Time.{time_of};
ghost use Rattle.ev_outside.specs.Shelf.{CountsNeverFall, ShelfState};
ghost use Rattle.evroute_run.specs.MakeAnswer.{MakeAnswers, MakesNetwork, made_file, make_task, route_of_all};
ghost use Rattle.evroute_run.specs.Run.{task_of};
ghost use Rattle.job_frame.specs.Performs.{NothingFailed, Performs, PutsHeard, SparesFiles};
ghost use Rattle.job_frame.specs.Task.{IsAnswered};
ghost use Rattle.job_frame.specs.Writes.{Leaves, Written};
ghost use Rattle.plan_writer.specs.MakeText.{make_text};

use command_line::MakeWords;
use ev_outside::{Shelf, ShelfFault, Sink};
use evroute_causes::Cause;
use frvcp_labels::solve_route;
use instance_maker::{MakerFault, made_instance};
use instance_reader::Instance;
use job_ending::finish;
use job_frame::{Answer, CauseListener, Status, put_answer, refuse_job};
use plan_writer::{Refusal, push_make_report};
use route_plan::{RoutePlan, walk};
use std::alloc::{AllocError, Global};

/// `make`: the instance is made and written, and then the route over all its customers is charged.
/// Where memory is refused for that, the file stands; where it is refused before, none changed.
pub fn make<S: Shelf, K: Sink, L: CauseListener<Cause>>(
    alloc: Global,
    job: &MakeWords,
    shelf: &mut S,
    out: &mut K,
    listener: &mut L,
) -> Status
    ensures words { result ≢ Status.Words }
    ensures job { Performs (task_of (job_value (Make job.now)))
        (S.state shelf.old) (S.state shelf.new) (K.state out.old) (K.state out.new) result }
    ensures heard { IsAnswered result
        → PutsHeard (task_of (job_value (Make job.now))) (S.state shelf.old).files
        (S.state shelf.new).files (K.state out.old).written (K.state out.new).written
        result (L.heard listener.new) }
    ensures stays { result ≢ Status.Fault
        → NothingFailed (S.state shelf.old) (S.state shelf.new)
        (K.state out.old) (K.state out.new) }
    ensures falls { CountsNeverFall (S.state shelf.old) (S.state shelf.new) }
    ensures memory { K.takes_memory ≡ false → result ≡ Status.Memory
        → K.state out.new ≡ K.state out.old }
    ensures spares { SparesFiles (task_of (job_value (Make job.now)))
        S.writes_take_memory K.takes_memory
        (S.state shelf.old).files (S.state shelf.new).files result }
{
    match made_instance(alloc, job.seed, job.customers, job.stations) {
        Ok(made) => match shelf.write(job.outfile.as_str(), made.text.as_slice()) {
            Ok(()) => put_summary(alloc, &made.instance, job.customers, out),
            Err(ShelfFault::Failed) => Status::Fault,
            Err(ShelfFault::Memory) => Status::Memory,
        },
        Err(MakerFault::Range) => finish(refuse_job(alloc, Refusal::Maker), shelf, out, listener),
        Err(MakerFault::Memory) => Status::Memory,
    }
}

/// The three lines on a made instance are put behind its file: its route over all customers is
/// charged.
fn put_summary<K: Sink>(alloc: Global, inst: &Instance, customers: u32, out: &mut K) -> Status
    requires some { 1 ≤ customers }
    requires nodes { customers < node_count inst.now }
    ensures words { result ≢ Status.Words }
    ensures job { (job : MakeJob) → job.customers ≡ customers → MakesNetwork job inst.now
        → (before after : ShelfState) → Leaves (made_file job ∷ []) before.files after.files
        → Performs (make_task job) before after (K.state out.old) (K.state out.new) result }
    ensures heard { (job : MakeJob) → job.customers ≡ customers → MakesNetwork job inst.now
        → (before after : ShelfState) → Leaves (made_file job ∷ []) before.files after.files
        → (heard : Option Cause) → IsAnswered result
        → PutsHeard (make_task job) before.files after.files
        (K.state out.old).written (K.state out.new).written result heard }
    ensures stays { result ≢ Status.Fault → (K.state out.new).faults ≡ (K.state out.old).faults }
    ensures memory { K.takes_memory ≡ false → result ≡ Status.Memory
        → K.state out.new ≡ K.state out.old }
{
    match charge_all(alloc, inst, customers) {
        Ok(answer) => put_answer(&answer, out),
        Err(AllocError) => Status::Memory,
    }
}

/// The three lines on a made instance, whose route over all customers is charged.
fn charge_all(alloc: Global, inst: &Instance, customers: u32) -> Result<Answer<Cause>, AllocError>
    requires some { 1 ≤ customers }
    requires nodes { customers < node_count inst.now }
    ensures answers { (job : MakeJob) → job.customers ≡ customers → MakesNetwork job inst.now
        → IfOk result (λ a. (ws : List Written) → ws ≡ made_file job ∷ []
        → MakeAnswers job a.status ws a.text.items) }
    ensures answered { IfOk result (λ a. IsAnswered a.status) }
{
    let route = route_of_all(alloc, customers)?;
    match solve_route(alloc, inst, route.as_slice(), inst.max_q())? {
        Some(plan) => report_time(alloc, inst, &plan),
        None => report_no_time(alloc, inst),
    }
}

/// The route over all customers.
fn route_of_all(alloc: Global, customers: u32) -> Result<Vec<usize>, AllocError>
    ensures { IfOk result (λ nodes. nodes.items ≡ route_of_all customers) }
{
    let mut nodes = Vec::new(alloc);
    nodes.push(0)?;
    for customer in 0..customers {
        nodes.push(customer as usize + 1)?;
    }
    nodes.push(0)?;
    Ok(nodes)
}

/// The three lines, with the time of a feasible plan.
fn report_time(
    alloc: Global,
    inst: &Instance,
    plan: &RoutePlan,
) -> Result<Answer<Cause>, AllocError>
    requires { IsFeasible inst.now 1 inst.now.capacity plan.now.stops }
    ensures status { IfOk result (λ a. a.status ≡ Status.Done) }
    ensures text { IfOk result (λ a. a.text.items
        ≡ make_text (node_count inst.now) inst.now.denominator
        (Some (time_of inst.now 1 inst.now.capacity plan.now.stops))) }
{
    let Ok(walk) = walk(inst, inst.max_q(), plan.stops.as_slice()) else {
        // A feasible plan is walked to its end.
        unreachable!()
    };
    let mut text = Vec::new(alloc);
    push_make_report(alloc, &mut text, inst, Some(walk.time))?;
    Ok(Answer {
        status: Status::Done,
        text,
        cause: None,
    })
}

/// The three lines where no plan of the route is feasible.
fn report_no_time(alloc: Global, inst: &Instance) -> Result<Answer<Cause>, AllocError>
    ensures status { IfOk result (λ a. a.status ≡ Status.Negative) }
    ensures text { IfOk result (λ a. a.text.items
        ≡ make_text (node_count inst.now) inst.now.denominator None) }
{
    let mut text = Vec::new(alloc);
    push_make_report(alloc, &mut text, inst, None)?;
    Ok(Answer {
        status: Status::Negative,
        text,
        cause: None,
    })
}
