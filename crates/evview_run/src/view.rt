//! What is found for the words: the instance and the plans of their files are read, the plans are
//! judged, and their schedule is shown.

ghost use Rattle.std.specs.Prelude.{◌≡◌, ◌≤◌, ◌++◌, [], IfErr, IfOk, IfSome, IsNone, List, OnOk, Option, Some, map, option_map, ℕ};
ghost use Rattle.evview_run.specs.ViewAnswer.{EndsPlaces, HasPlaces, HasRoute, IsShowable, ViewAnswers, entry_words, listed, needs_points, no_route_text, other_time_text, places_text, route_count, view_heard, view_task};
ghost use Rattle.evview_run.specs.Held.{FitsHeld, HasHeld, HasStart, start_of};
ghost use Rattle.job_frame.specs.Finds.{Finds, written_by};
ghost use Rattle.job_frame.specs.Task.{AreReadUpTo};
ghost use Rattle.job_frame.specs.Caps.{most_bytes};
ghost use Rattle.view_words.specs.JobValue.{IsViewJob, view_value};

use crate::asking::ask_files;
use crate::cause::Cause;
use crate::held::{HeldPlans, held_of, setting_of};
use crate::judging::judged;
use crate::showing::{show, shown, untrue};
use ev_outside::{Shelf, ShelfFault};
use fleet_steps::reject;
use instance_reader::Instance;
use job_frame::{Answer, Ended, Found, MOST_BYTES, Status, read_file, refuse_job};
use place_names::{EntryFault, Place, PlacesEnded, PlacesFault, read_places};
use plan_check::LargeFault;
use report_lines::{push_number_line, push_numbered, push_time, push_word};
use route_plan::FleetPlan;
use std::alloc::{AllocError, Global};
use view_words::ViewWords;

/// What is found for the words: it is asked whether the files can be written, and the instance is
/// read, then the plan, and the places where they are given; and then the plan is judged and shown.
pub fn view<S: Shelf>(
    alloc: Global,
    job: &ViewWords,
    shelf: &mut S,
) -> Result<Found<Cause>, ShelfFault>
    requires { IsViewJob job.now }
    ensures { Finds (view_task (view_value job.now))
        (S.state shelf.old) (S.state shelf.new) result }
{
    match ask_files(job, shelf) {
        Ok(()) => view_asked(alloc, job, shelf),
        Err(fault) => Err(fault),
    }
}

/// What is found behind the question whether the files can be written.
fn view_asked<S: Shelf>(
    alloc: Global,
    job: &ViewWords,
    shelf: &mut S,
) -> Result<Found<Cause>, ShelfFault>
    requires { IsViewJob job.now }
    ensures { Finds (view_task (view_value job.now))
        (S.state shelf.old) (S.state shelf.new) result }
{
    let bytes = match read_file(alloc, job.file.as_str(), MOST_BYTES, shelf) {
        Ok(bytes) => bytes,
        Err(fault) => return Err(fault),
    };
    match setting_of(alloc, bytes.as_slice(), job.limit, &job.form) {
        Ok(setting) => view_on(alloc, &setting.inst, setting.start, job, shelf),
        Err(Ended::Refused(refusal)) => refuse_job(alloc, refusal),
        Err(Ended::Memory) => Err(ShelfFault::Memory),
    }
}

/// What is found on an instance whose vehicles start with this level: the plan is read, then the
/// places, where they are given, and the plan is judged and shown.
fn view_on<S: Shelf>(
    alloc: Global,
    inst: &Instance,
    start: u64,
    job: &ViewWords,
    shelf: &mut S,
) -> Result<Found<Cause>, ShelfFault>
    requires job { IsViewJob job.now }
    requires start { start ≡ start_of inst.now job.now.form }
    requires within { start ≤ inst.now.capacity }
    ensures { (bytes : List ℕ)
        → AreReadUpTo most_bytes (S.state shelf.old).files (view_value job.now).file bytes
        → HasStart (view_value job.now) bytes inst.now
        → Finds (view_task (view_value job.now)) (S.state shelf.old) (S.state shelf.new) result }
{
    let bytes = match read_file(alloc, job.plan.as_str(), MOST_BYTES, shelf) {
        Ok(bytes) => bytes,
        Err(fault) => return Err(fault),
    };
    match held_of(alloc, inst, start, bytes.as_slice(), &job.form) {
        Ok(held) => match &job.places {
            Some(name) => view_named(alloc, inst, &held, name.as_str(), job, shelf),
            None => view_text(alloc, inst, &held, None, job),
        },
        Err(Ended::Refused(refusal)) => refuse_job(alloc, refusal),
        Err(Ended::Memory) => Err(ShelfFault::Memory),
    }
}

/// What is found for plans, or for none, with the file of this name for the places.
fn view_named<S: Shelf>(
    alloc: Global,
    inst: &Instance,
    held: &HeldPlans,
    name: &str,
    job: &ViewWords,
    shelf: &mut S,
) -> Result<Found<Cause>, ShelfFault>
    requires job { IsViewJob job.now }
    requires held { FitsHeld inst.now job.now.form held.now }
    ensures { (bytes plan_bytes : List ℕ)
        → AreReadUpTo most_bytes (S.state shelf.old).files (view_value job.now).file bytes
        → AreReadUpTo most_bytes (S.state shelf.old).files (view_value job.now).plan plan_bytes
        → HasHeld (view_value job.now) bytes plan_bytes inst.now held.now
        → (view_value job.now).places ≡ Some name.now
        → Finds (view_task (view_value job.now)) (S.state shelf.old) (S.state shelf.new) result }
{
    let bytes = match read_file(alloc, name, MOST_BYTES, shelf) {
        Ok(bytes) => bytes,
        Err(fault) => return Err(fault),
    };
    view_text(alloc, inst, held, Some(bytes.as_slice()), job)
}

/// What is found for plans, or for none, and the bytes of a file of places, where it is given.
fn view_text(
    alloc: Global,
    inst: &Instance,
    held: &HeldPlans,
    bytes: Option<&[u8]>,
    job: &ViewWords,
) -> Result<Found<Cause>, ShelfFault>
    requires job { IsViewJob job.now }
    requires held { FitsHeld inst.now job.now.form held.now }
    ensures answers { (file plan_bytes : List ℕ)
        → HasHeld (view_value job.now) file plan_bytes inst.now held.now
        → IfOk result (λ f. ViewAnswers (view_value job.now) file plan_bytes
        (listed (option_map (λ b. b.now) bytes.entry))
        f.answer.status (map written_by f.files.items) f.answer.text.items) }
    ensures heard { IfOk result
        (λ f. view_heard f.answer.status f.answer.text.items f.answer.cause) }
    ensures memory { IfErr result (λ fault. fault ≡ ShelfFault.Memory) }
{
    match places_of(alloc, inst, bytes, job.map.is_some()) {
        Ok(places) => match view_plan(alloc, inst, held, places.as_slice(), job) {
            Ok(found) => Ok(found),
            Err(AllocError) => Err(ShelfFault::Memory),
        },
        Err(PlacesEnded::Refused(fault)) => match refuse_places(alloc, fault) {
            Ok(found) => Ok(found),
            Err(AllocError) => Err(ShelfFault::Memory),
        },
        Err(PlacesEnded::Memory) => Err(ShelfFault::Memory),
    }
}

/// The places that the bytes of a file mean, which say where they are if `points_needed`; none
/// where it isn't given.
fn places_of(
    alloc: Global,
    inst: &Instance,
    bytes: Option<&[u8]>,
    points_needed: bool,
) -> Result<Vec<Place>, PlacesEnded>
    ensures places { IfOk result (λ places. HasPlaces points_needed inst.now
        (listed (option_map (λ b. b.now) bytes.entry)) places.items) }
    ensures fault { IfErr result
        (EndsPlaces points_needed inst.now (listed (option_map (λ b. b.now) bytes.entry))) }
{
    match bytes {
        Some(bytes) => read_places(alloc, bytes, inst.nodes(), points_needed),
        None => Ok(Vec::new(alloc)),
    }
}

/// The line of the rule that a file of places breaks.
fn refuse_places(alloc: Global, fault: PlacesFault) -> Result<Found<Cause>, AllocError>
    ensures status { IfOk result (λ f. f.answer.status ≡ Status.Refused) }
    ensures files { IfOk result (λ f. map written_by f.files.items ≡ []) }
    ensures text { IfOk result (λ f. f.answer.text.items ≡ places_text fault) }
    ensures cause { IfOk result (λ f. f.answer.cause ≡ Some (Cause.Places fault)) }
{
    let mut text = Vec::new(alloc);
    push_places_line(alloc, &mut text, fault)?;
    let answer = Answer {
        status: Status::Refused,
        text,
        cause: Some(Cause::Places(fault)),
    };
    Ok(Found::alone(alloc, answer))
}

/// Appends the line of the rule that a file of places breaks.
#[tactic(auto, unfolding(crate::specs::ViewAnswer::places_text))]
fn push_places_line(alloc: Global, out: &mut Vec<u8>, fault: PlacesFault) -> Result<(), AllocError>
    ensures { OnOk result (out.new.items ≡ out.old.items ++ places_text fault) }
{
    match fault {
        PlacesFault::TooLong => out.extend_from_slice(b"refused places long\n"),
        PlacesFault::NotJson => out.extend_from_slice(b"refused places json\n"),
        PlacesFault::NoList => out.extend_from_slice(b"refused places list\n"),
        PlacesFault::Entry(index, wrong) => {
            push_number_line(alloc, out, entry_words(wrong), index as u128)
        }
        PlacesFault::Count(count) => {
            push_number_line(alloc, out, b"refused places ", count as u128)
        }
    }
}

/// What is wrong with an entry of a file of places.
fn entry_words(wrong: EntryFault) -> &'static [u8]
    ensures { result.now ≡ entry_words wrong }
{
    match wrong {
        EntryFault::NoObject => b"refused places entry ",
        EntryFault::Name => b"refused places name ",
        EntryFault::Character => b"refused places character ",
        EntryFault::X => b"refused places x ",
        EntryFault::Y => b"refused places y ",
    }
}

/// What is found for plans, or for none: the one route that is asked for has to be there.
fn view_plan(
    alloc: Global,
    inst: &Instance,
    held: &HeldPlans,
    places: &[Place],
    job: &ViewWords,
) -> Result<Found<Cause>, AllocError>
    requires job { IsViewJob job.now }
    requires held { FitsHeld inst.now job.now.form held.now }
    ensures answers { (file plan_bytes : List ℕ) (more : List (List ℕ))
        → HasHeld (view_value job.now) file plan_bytes inst.now held.now
        → HasPlaces (needs_points (view_value job.now)) inst.now more places.now
        → IfOk result (λ f. ViewAnswers (view_value job.now) file plan_bytes more
        f.answer.status (map written_by f.files.items) f.answer.text.items) }
    ensures heard { IfOk result
        (λ f. view_heard f.answer.status f.answer.text.items f.answer.cause) }
{
    match missing_route(held.plan.as_ref(), job.route) {
        Some(number) => refuse_route(alloc, number),
        None => view_judged(alloc, inst, held, places, job),
    }
}

/// The number of the one route that is asked for, where there is no such route.
fn missing_route(plan: Option<&FleetPlan>, route: Option<u64>) -> Option<u64>
    ensures past { IfSome result (λ number. (route ≡ Some number)
        × (route_count (option_map (λ p. p.now) plan.entry) ≤ number)) }
    ensures there { IsNone result → HasRoute route (option_map (λ p. p.now) plan.entry) }
{
    let Some(number) = route else {
        return None;
    };
    if number < route_count(plan) {
        return None;
    }
    Some(number)
}

/// How many routes there are.
fn route_count(plan: Option<&FleetPlan>) -> u64
    ensures { result ≡ route_count (option_map (λ p. p.now) plan.entry) }
{
    match plan {
        Some(plan) => plan.routes.len() as u64,
        None => 0,
    }
}

/// The line of a route that isn't there.
fn refuse_route(alloc: Global, number: u64) -> Result<Found<Cause>, AllocError>
    ensures status { IfOk result (λ f. f.answer.status ≡ Status.Refused) }
    ensures files { IfOk result (λ f. map written_by f.files.items ≡ []) }
    ensures text { IfOk result (λ f. f.answer.text.items ≡ no_route_text number) }
    ensures cause { IfOk result (λ f. f.answer.cause ≡ Some (Cause.Number number)) }
{
    let mut text = Vec::new(alloc);
    push_numbered(alloc, &mut text, b"refused number ", u128::from(number))?;
    push_word(&mut text, b"\n")?;
    let answer = Answer {
        status: Status::Refused,
        text,
        cause: Some(Cause::Number(number)),
    };
    Ok(Found::alone(alloc, answer))
}

/// What is found for plans, or for none, with the one route that is asked for: they are judged by
/// the rules that are asked of them, and shown.
fn view_judged(
    alloc: Global,
    inst: &Instance,
    held: &HeldPlans,
    places: &[Place],
    job: &ViewWords,
) -> Result<Found<Cause>, AllocError>
    requires job { IsViewJob job.now }
    requires held { FitsHeld inst.now job.now.form held.now }
    requires route { HasRoute job.now.route held.now.plan }
    ensures answers { (file plan_bytes : List ℕ) (more : List (List ℕ))
        → HasHeld (view_value job.now) file plan_bytes inst.now held.now
        → HasPlaces (needs_points (view_value job.now)) inst.now more places.now
        → IfOk result (λ f. ViewAnswers (view_value job.now) file plan_bytes more
        f.answer.status (map written_by f.files.items) f.answer.text.items) }
    ensures heard { IfOk result
        (λ f. view_heard f.answer.status f.answer.text.items f.answer.cause) }
{
    match judged(alloc, inst, held, &job.form) {
        Ok(()) => view_shown(alloc, inst, held, places, job),
        Err(LargeFault::Plan { fault }) => reject(alloc, fault),
        Err(LargeFault::Memory) => Err(AllocError),
    }
}

/// What is found for plans that can be driven, or for none: their schedule is shown, unless another
/// time than its own is told of them.
fn view_shown(
    alloc: Global,
    inst: &Instance,
    held: &HeldPlans,
    places: &[Place],
    job: &ViewWords,
) -> Result<Found<Cause>, AllocError>
    requires job { IsViewJob job.now }
    requires held { FitsHeld inst.now job.now.form held.now }
    requires route { HasRoute job.now.route held.now.plan }
    requires showable { (cost : Option ℕ) × IsShowable job.now.form inst.now held.now cost }
    ensures answers { (file plan_bytes : List ℕ) (more : List (List ℕ))
        → HasHeld (view_value job.now) file plan_bytes inst.now held.now
        → HasPlaces (needs_points (view_value job.now)) inst.now more places.now
        → IfOk result (λ f. ViewAnswers (view_value job.now) file plan_bytes more
        f.answer.status (map written_by f.files.items) f.answer.text.items) }
    ensures heard { IfOk result
        (λ f. view_heard f.answer.status f.answer.text.items f.answer.cause) }
{
    let shown = shown(alloc, inst, held, job.route)?;
    match untrue(held.told, shown.as_ref()) {
        Some(told) => reject_time(alloc, told, inst.denominator()),
        None => show(alloc, shown.as_ref(), places, job),
    }
}

/// The line of a told time that isn't that of the route.
fn reject_time(alloc: Global, told: u64, denominator: u64) -> Result<Found<Cause>, AllocError>
    ensures status { IfOk result (λ f. f.answer.status ≡ Status.Negative) }
    ensures files { IfOk result (λ f. map written_by f.files.items ≡ []) }
    ensures text { IfOk result (λ f. f.answer.text.items ≡ other_time_text denominator told) }
    ensures cause { IfOk result (λ f. f.answer.cause ≡ Some (Cause.Time told)) }
{
    let mut text = Vec::new(alloc);
    push_word(&mut text, b"rejected ")?;
    push_time(alloc, &mut text, told, denominator)?;
    let answer = Answer {
        status: Status::Negative,
        text,
        cause: Some(Cause::Time(told)),
    };
    Ok(Found::alone(alloc, answer))
}
