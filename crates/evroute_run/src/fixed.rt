//! What `fixed` finds: one route of an instance is charged.

ghost use Rattle.std.specs.Prelude.{◌≡◌, ◌≤◌, IfErr, IfOk, List, None, Some, ℕ};
ghost use Rattle.command_line.specs.JobValue.{job_value};
ghost use Rattle.command_line.specs.declared.Job.TheVariants.{Fixed};
ghost use Rattle.command_line.specs.declared.Options.{Options};
ghost use Rattle.ev_model.specs.Feasible.{IsFeasible};
ghost use Rattle.ev_model.specs.Route.{IsRoute};
ghost use Rattle.ev_model.specs.Time.{time_of};
ghost use Rattle.evroute_run.specs.Ended.{IsEnded};
ghost use Rattle.evroute_run.specs.FixedAnswer.{FixedAnswers, IsTask, start_of};
ghost use Rattle.evroute_run.specs.Run.{task_of};
ghost use Rattle.job_frame.specs.Finds.{Finds};
ghost use Rattle.evroute_causes.specs.Heard.{HearsRefusals};
ghost use Rattle.job_frame.specs.Task.{IsAnswered};
ghost use Rattle.report_lines.specs.FixedText.{fixed_text};

use crate::trip::trip_of;
use command_line::{FixedWords, Options};
use ev_outside::{Shelf, ShelfFault};
use evroute_causes::Cause;
use frvcp_labels::solve_route;
use instance_reader::Instance;
use job_frame::{Answer, Ended, Found, MOST_BYTES, Status, read_file, refuse};
use plan_writer::push_fixed;
use route_plan::{RoutePlan, walk};
use std::alloc::{AllocError, Global};

/// What `fixed` finds: the file is read as an instance, and its route is charged.
pub fn fixed<S: Shelf>(
    alloc: Global,
    job: &FixedWords,
    shelf: &mut S,
) -> Result<Found<Cause>, ShelfFault>
    ensures { Finds (task_of (job_value (Fixed job.now)))
        (S.state shelf.old) (S.state shelf.new) result }
{
    let bytes = match read_file(alloc, job.file.as_str(), MOST_BYTES, shelf) {
        Ok(bytes) => bytes,
        Err(fault) => return Err(fault),
    };
    match answer_to(alloc, bytes.as_slice(), job.route.as_str(), job.options) {
        Ok(answer) => Ok(Found::alone(alloc, answer)),
        Err(AllocError) => Err(ShelfFault::Memory),
    }
}

/// The answer to the bytes of a file and the word of a route.
fn answer_to(
    alloc: Global,
    bytes: &[u8],
    word: &str,
    options: Options,
) -> Result<Answer<Cause>, AllocError>
    ensures answered { IfOk result (λ a. IsAnswered a.status) }
    ensures answers { IfOk result
        (λ a. FixedAnswers options word.now bytes.now a.status a.text.items) }
    ensures heard { IfOk result (λ a. HearsRefusals a.status a.text.items a.cause) }
{
    match charge_file(alloc, bytes, word, options) {
        Ok(answer) => Ok(answer),
        Err(Ended::Refused(refusal)) => refuse(alloc, refusal),
        Err(Ended::Memory) => Err(AllocError),
    }
}

/// The charged route, or why there is none.
fn charge_file(
    alloc: Global,
    bytes: &[u8],
    word: &str,
    options: Options,
) -> Result<Answer<Cause>, Ended>
    ensures ok { IfOk result (λ a. FixedAnswers options word.now bytes.now a.status a.text.items) }
    ensures answered { IfOk result (λ a. IsAnswered a.status) }
    ensures heard { IfOk result (λ a. HearsRefusals a.status a.text.items a.cause) }
    ensures ended { IfErr result (IsEnded options word.now bytes.now) }
{
    match trip_of(alloc, bytes, word, options) {
        Ok(trip) => charge_from(alloc, &trip.inst, trip.route.as_slice(), trip.start),
        Err(ended) => Err(ended),
    }
}

/// The text of a fastest plan of the route, or that there is none.
fn charge_from(
    alloc: Global,
    inst: &Instance,
    route: &[usize],
    start: u64,
) -> Result<Answer<Cause>, Ended>
    requires route { IsRoute inst.now route.now }
    requires start { start ≤ inst.now.capacity }
    ensures ok { (options : Options) (word bytes : List ℕ)
        → IsTask options word bytes inst.now route.now
        → start ≡ start_of inst.now options.charge
        → IfOk result (λ a. FixedAnswers options word bytes a.status a.text.items) }
    ensures ended { (options : Options) (word bytes : List ℕ)
        → IsTask options word bytes inst.now route.now
        → IfErr result (IsEnded options word bytes) }
    ensures answered { IfOk result (λ a. IsAnswered a.status) }
    ensures heard { IfOk result (λ a. HearsRefusals a.status a.text.items a.cause) }
{
    let plan = match solve_route(alloc, inst, route, start) {
        Ok(plan) => plan,
        Err(AllocError) => return Err(Ended::Memory),
    };
    match plan {
        Some(plan) => report_plan(alloc, inst, start, &plan),
        None => infeasible(alloc, inst),
    }
}

/// The text of a feasible plan.
pub(crate) fn report_plan(
    alloc: Global,
    inst: &Instance,
    start: u64,
    plan: &RoutePlan,
) -> Result<Answer<Cause>, Ended>
    requires start { start ≤ inst.now.capacity }
    requires feasible { IsFeasible inst.now 1 start plan.now.stops }
    ensures status { IfOk result (λ a. a.status ≡ Status.Done) }
    ensures text { IfOk result (λ a. a.text.items
        ≡ fixed_text inst.now.denominator
        (Some (plan.now.stops, time_of inst.now 1 start plan.now.stops))) }
    ensures heard { IfOk result (λ a. HearsRefusals a.status a.text.items a.cause) }
    ensures memory { IfErr result (λ e. e ≡ Ended.Memory) }
{
    let Ok(walk) = walk(inst, start, plan.stops.as_slice()) else {
        // A feasible plan is walked to its end.
        unreachable!()
    };
    let mut text = Vec::new(alloc);
    match push_fixed(alloc, &mut text, inst, Some((plan, walk.time))) {
        Ok(()) => Ok(Answer {
            status: Status::Done,
            text,
            cause: None,
        }),
        Err(AllocError) => Err(Ended::Memory),
    }
}

/// The text of a route without a feasible plan.
pub(crate) fn infeasible(alloc: Global, inst: &Instance) -> Result<Answer<Cause>, Ended>
    ensures status { IfOk result (λ a. a.status ≡ Status.Negative) }
    ensures text { IfOk result (λ a. a.text.items ≡ fixed_text inst.now.denominator None) }
    ensures heard { IfOk result (λ a. HearsRefusals a.status a.text.items a.cause) }
    ensures memory { IfErr result (λ e. e ≡ Ended.Memory) }
{
    let mut text = Vec::new(alloc);
    match push_fixed(alloc, &mut text, inst, None) {
        Ok(()) => Ok(Answer {
            status: Status::Negative,
            text,
            cause: None,
        }),
        Err(AllocError) => Err(Ended::Memory),
    }
}
