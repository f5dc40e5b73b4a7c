//! The first steps of each job on one route: its instance, its start and its route.

ghost use Rattle.std.specs.Prelude.{◌≡◌, ◌≤◌, IfErr, IfOk, List, length, ℕ};
ghost use Rattle.command_line.specs.declared.Options.{Options};
ghost use Rattle.ev_model.specs.Route.{IsRoute};
ghost use Rattle.evroute_run.specs.Ended.{IsEnded};
ghost use Rattle.job_frame.specs.Ended.{IsRuleOrMemory};
ghost use Rattle.evroute_run.specs.FixedAnswer.{HasStart, IsTask, start_of};
ghost use Rattle.job_frame.specs.LimitedNetwork.{HasNetwork};
ghost use Rattle.route_plan.specs.Limits.{most_route_nodes};
ghost use Rattle.route_plan.specs.RouteWords.{SpellsRoute};

use command_line::Options;
use instance_reader::Instance;
use job_frame::{Ended, limited_instance};
use plan_writer::Refusal;
use route_plan::{RouteFault, read_route};
use std::alloc::Global;

/// A route of an instance, and the level at which a vehicle starts on it, in units of charge.
#[derive(Drop)]
pub struct Trip {
    pub inst: Instance,
    pub start: u64,
    pub route: Vec<usize>,
}

/// The route of the word on the instance of the bytes, with the limit and the level at the start
/// that the options give; or why there is none.
pub fn trip_of(alloc: Global, bytes: &[u8], word: &str, options: Options) -> Result<Trip, Ended>
    ensures task { IfOk result (λ t. IsTask options word.now bytes.now t.inst t.route.items) }
    ensures start { IfOk result (λ t. t.start ≡ start_of t.inst options.charge) }
    ensures within { IfOk result (λ t. t.start ≤ t.inst.capacity) }
    ensures rule { IfErr result IsRuleOrMemory }
    ensures ended { IfErr result (IsEnded options word.now bytes.now) }
{
    match limited_instance(alloc, bytes, options.limit) {
        Ok(inst) => trip_on(alloc, inst, word, options),
        Err(ended) => Err(ended),
    }
}

/// The route of the word on an instance whose limit is that of the words.
fn trip_on(alloc: Global, inst: Instance, word: &str, options: Options) -> Result<Trip, Ended>
    ensures task { (bytes : List ℕ) → HasNetwork options.limit bytes inst
        → IfOk result (λ t. IsTask options word.now bytes t.inst t.route.items) }
    ensures start { IfOk result (λ t. t.start ≡ start_of t.inst options.charge) }
    ensures within { IfOk result (λ t. t.start ≤ t.inst.capacity) }
    ensures rule { IfErr result IsRuleOrMemory }
    ensures ended { (bytes : List ℕ) → HasNetwork options.limit bytes inst
        → IfErr result (IsEnded options word.now bytes) }
{
    match start(&inst, options) {
        Ok(start) => match route(alloc, word, &inst) {
            Ok(route) => Ok(Trip { inst, start, route }),
            Err(ended) => Err(ended),
        },
        Err(ended) => Err(ended),
    }
}

/// The level at which the vehicle starts.
fn start(inst: &Instance, options: Options) -> Result<u64, Ended>
    ensures ok { IfOk result (λ level. (level ≡ start_of inst.now options.charge)) }
    ensures within { IfOk result (λ level. level ≤ inst.now.capacity) }
    ensures rule { IfErr result IsRuleOrMemory }
    ensures ended { (word bytes : List ℕ) → HasNetwork options.limit bytes inst.now
        → IfErr result (IsEnded options word bytes) }
{
    let full = inst.max_q();
    match options.charge {
        Some(level) => {
            if level <= full {
                Ok(level)
            } else {
                Err(Ended::Refused(Refusal::Charge(level)))
            }
        }
        None => Ok(full),
    }
}

/// The route of the word.
fn route(alloc: Global, word: &str, inst: &Instance) -> Result<Vec<usize>, Ended>
    ensures spelled { IfOk result (λ nodes. SpellsRoute word.now nodes.items) }
    ensures is_route { IfOk result (λ nodes. IsRoute inst.now nodes.items) }
    ensures short { IfOk result (λ nodes. length nodes.items ≤ most_route_nodes) }
    ensures rule { IfErr result IsRuleOrMemory }
    ensures ended { (options : Options) (bytes : List ℕ) → HasStart options bytes inst.now
        → IfErr result (IsEnded options word.now bytes) }
{
    match read_route(alloc, word, inst) {
        Ok(nodes) => Ok(nodes),
        Err(RouteFault::Memory) => Err(Ended::Memory),
        Err(fault) => Err(Ended::Refused(Refusal::Route(fault))),
    }
}
