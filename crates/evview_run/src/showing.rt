//! The schedule of plans, and the texts by which it is shown.

ghost use Rattle.std.specs.Prelude.{◌≡◌, ◌<◌, ◌≤◌, ◌++◌, IfOk, IfSome, None, OnOk, Some, length, map, option_map, string_bytes};
ghost use Rattle.std.specs.List.{All};
ghost use Rattle.ev_model.specs.Feasible.{IsFeasible};
ghost use Rattle.evview_run.specs.Held.{HasFewRoutes};
ghost use Rattle.evview_run.specs.ViewAnswer.{HasRoute, clock_of, file_of, files_of, part_of, shown_of, untrue};
ghost use Rattle.job_frame.specs.Finds.{written_by};
ghost use Rattle.plan_check.specs.FleetRules.{stops_of};
ghost use Rattle.plan_schedule.specs.Schedules.{IsTimed};
ghost use Rattle.schedule_texts.specs.Clocks.{AreClocks};
ghost use Rattle.schedule_texts.specs.JsonTexts.{json_text};
ghost use Rattle.schedule_texts.specs.Maps.{map_text};
ghost use Rattle.schedule_texts.specs.Options.{AreTimed};
ghost use Rattle.schedule_texts.specs.Pictures.{picture_text};
ghost use Rattle.schedule_texts.specs.Spreadsheets.{csv_text};
ghost use Rattle.schedule_texts.specs.Tables.{table_text};
ghost use Rattle.view_words.specs.Clocks.{IsDayClock};
ghost use Rattle.view_words.specs.JobValue.{view_value};

use crate::cause::Cause;
use crate::held::HeldPlans;
use instance_reader::Instance;
use job_frame::{Answer, Found, NewFile, Status};
use place_names::Place;
use plan_schedule::{Schedule, only_route, schedule_plan};
use schedule_texts::{
    Clock, schedule_csv, schedule_json, schedule_map, schedule_picture, schedule_table,
};
use std::alloc::{AllocError, Global};
use view_words::{DayClock, ViewWords};

/// What is found for a schedule, or for none: its tables, and the files that are asked for.
pub(crate) fn show(
    alloc: Global,
    shown: Option<&Schedule>,
    places: &[Place],
    job: &ViewWords,
) -> Result<Found<Cause>, AllocError>
    requires timed { AreTimed (option_map (λ s. s.now) shown) }
    requires clock { IfSome job.now.clock IsDayClock }
    ensures status { IfOk result (λ f. f.answer.status ≡ Status.Done) }
    ensures files { IfOk result (λ f. map written_by f.files.items
        ≡ files_of (view_value job.now) places.now (option_map (λ s. s.now) shown.entry)) }
    ensures text { IfOk result (λ f. f.answer.text.items
        ≡ table_text job.now.exact (clock_of job.now.clock) places.now
        (option_map (λ s. s.now) shown.entry)) }
    ensures cause { IfOk result (λ f. f.answer.cause ≡ None) }
{
    let clock = clock_of(job.clock);
    let text = schedule_table(alloc, shown, job.exact, clock, places)?;
    let mut files = Vec::new(alloc);
    push_picture(alloc, &mut files, &job.svg, shown, clock, places)?;
    push_json(alloc, &mut files, &job.json, shown, clock, places)?;
    push_csv(alloc, &mut files, &job.csv, shown, clock, places)?;
    push_map(alloc, &mut files, &job.map, shown, places)?;
    let answer = Answer {
        status: Status::Done,
        text,
        cause: None,
    };
    Ok(Found { answer, files })
}

/// The schedule of plans that can be driven, or of the one route that is asked for; `None` where
/// there is no plan.
pub(crate) fn shown(
    alloc: Global,
    inst: &Instance,
    held: &HeldPlans,
    route: Option<u64>,
) -> Result<Option<Schedule>, AllocError>
    requires start { held.now.start ≤ inst.now.capacity }
    requires feasible { IfSome held.now.plan
        (λ p. All (IsFeasible inst.now 1 held.now.start) (stops_of p.routes)) }
    requires few { HasFewRoutes held.now.plan }
    requires route { HasRoute route held.now.plan }
    ensures shown { IfOk result (λ s. s ≡ shown_of inst.now route held.now) }
    ensures timed { IfOk result AreTimed }
{
    let Some(plan) = &held.plan else {
        return Ok(None);
    };
    let whole = schedule_plan(alloc, inst, held.start, plan)?;
    Ok(part_of(whole, route))
}

/// The told time, where it isn't that of what is shown.
pub(crate) fn untrue(told: Option<u64>, shown: Option<&Schedule>) -> Option<u64>
    ensures { result ≡ untrue told
        (option_map (λ s. s.totals.time) (option_map (λ s. s.now) shown.entry)) }
{
    let Some(told) = told else {
        return None;
    };
    match shown {
        Some(schedule) if u128::from(told) == schedule.totals.time => None,
        _ => Some(told),
    }
}

/// The schedule of all routes, or of one of them.
fn part_of(whole: Schedule, route: Option<u64>) -> Option<Schedule>
    requires { IfSome route (λ number. number < length whole.routes) }
    ensures value { result ≡ Some (part_of whole route) }
    ensures timed { IsTimed whole → IfSome result IsTimed }
{
    match route {
        Some(number) => only_route(whole, number as usize),
        None => Some(whole),
    }
}

/// The clock of the words, as that of the texts.
fn clock_of(clock: Option<DayClock>) -> Option<Clock>
    requires { IfSome clock IsDayClock }
    ensures value { result ≡ clock_of clock }
    ensures are { AreClocks result }
{
    match clock {
        Some(clock) => Some(Clock {
            begin: clock.begin,
            seconds: clock.seconds,
            parts: clock.parts,
        }),
        None => None,
    }
}

/// Appends the file with the pictures, where it has a name.
fn push_picture(
    alloc: Global,
    files: &mut Vec<NewFile>,
    name: &Option<String>,
    shown: Option<&Schedule>,
    clock: Option<Clock>,
    places: &[Place],
) -> Result<(), AllocError>
    requires timed { AreTimed (option_map (λ s. s.now) shown) }
    requires clock { AreClocks clock }
    ensures { OnOk result (map written_by files.new.items ≡ map written_by files.old.items
        ++ file_of (option_map (λ s. string_bytes s) name.now)
        (picture_text clock places.now (option_map (λ s. s.now) shown.entry))) }
{
    let Some(name) = name else {
        return Ok(());
    };
    let bytes = schedule_picture(alloc, shown, clock, places)?;
    files.push(NewFile::new(alloc, name.as_str(), bytes)?)?;
    Ok(())
}

/// Appends the file with the schedule as JSON, where it has a name.
fn push_json(
    alloc: Global,
    files: &mut Vec<NewFile>,
    name: &Option<String>,
    shown: Option<&Schedule>,
    clock: Option<Clock>,
    places: &[Place],
) -> Result<(), AllocError>
    requires timed { AreTimed (option_map (λ s. s.now) shown) }
    requires clock { AreClocks clock }
    ensures { OnOk result (map written_by files.new.items ≡ map written_by files.old.items
        ++ file_of (option_map (λ s. string_bytes s) name.now)
        (json_text clock places.now (option_map (λ s. s.now) shown.entry))) }
{
    let Some(name) = name else {
        return Ok(());
    };
    let bytes = schedule_json(alloc, shown, clock, places)?;
    files.push(NewFile::new(alloc, name.as_str(), bytes)?)?;
    Ok(())
}

/// Appends the file with the schedule as CSV, where it has a name.
fn push_csv(
    alloc: Global,
    files: &mut Vec<NewFile>,
    name: &Option<String>,
    shown: Option<&Schedule>,
    clock: Option<Clock>,
    places: &[Place],
) -> Result<(), AllocError>
    requires timed { AreTimed (option_map (λ s. s.now) shown) }
    requires clock { AreClocks clock }
    ensures { OnOk result (map written_by files.new.items ≡ map written_by files.old.items
        ++ file_of (option_map (λ s. string_bytes s) name.now)
        (csv_text clock places.now (option_map (λ s. s.now) shown.entry))) }
{
    let Some(name) = name else {
        return Ok(());
    };
    let bytes = schedule_csv(alloc, shown, clock, places)?;
    files.push(NewFile::new(alloc, name.as_str(), bytes)?)?;
    Ok(())
}

/// Appends the file with the map, where it has a name.
fn push_map(
    alloc: Global,
    files: &mut Vec<NewFile>,
    name: &Option<String>,
    shown: Option<&Schedule>,
    places: &[Place],
) -> Result<(), AllocError>
    requires { AreTimed (option_map (λ s. s.now) shown) }
    ensures { OnOk result (map written_by files.new.items ≡ map written_by files.old.items
        ++ file_of (option_map (λ s. string_bytes s) name.now)
        (map_text places.now (option_map (λ s. s.now) shown.entry))) }
{
    let Some(name) = name else {
        return Ok(());
    };
    let bytes = schedule_map(alloc, shown, places)?;
    files.push(NewFile::new(alloc, name.as_str(), bytes)?)?;
    Ok(())
}
