//! Where times and levels stand in a panel.

ghost use Rattle.std.specs.Prelude.{◌≡◌, ◌≤◌, ◌<◌, ◌^◌};
ghost use Rattle.plan_schedule.specs.Schedules.{IsTimed};
ghost use Rattle.schedule_texts.specs.Clocks.{AreClocks};
ghost use Rattle.schedule_texts.specs.Scales.{IsScale, end_with, mark_at, most_stops, near_limit, rise_of, scale_of, x_at, y_at};

use crate::clock::Clock;
use crate::labels::widest;
use crate::latest::latest_of;
use place_names::Place;
use plan_schedule::{RouteSchedule, Schedule};

/// The scale of a picture.
#[derive(Clone, Copy)]
pub(crate) struct Scale {
    /// How wide a panel is between its axes.
    pub width: u64,
    /// The scaled time at its right end; 0 where no vehicle drives.
    pub latest: u64,
    /// The level of a full battery.
    pub full: u64,
    /// The least level on arriving at a stop.
    pub reserve: u64,
    /// The least level on arriving at the end of a route.
    pub home: u64,
    /// The scaled limit on the time of a route, where it is drawn.
    pub limit: Option<u64>,
    /// The number by which times are scaled.
    pub denominator: u64,
    /// The clock by which moments are told, where there is one.
    pub clock: Option<Clock>,
    /// How much higher panels are for long names.
    pub rise: u64,
}

/// The scale of the picture of a plan: all panels have the same times, and the more stops a route
/// has, the wider they are, from 800 to 5200 pixels.
pub(crate) fn scale_of(schedule: &Schedule, clock: Option<Clock>, places: &[Place]) -> Scale
    requires timed { IsTimed schedule.now }
    requires clock { AreClocks clock }
    ensures value { result ≡ scale_of clock places.now schedule.now }
    ensures scale { IsScale result }
{
    let routes = schedule.routes.as_slice();
    let stops = most_stops(routes).clamp(40, 260) as u64;
    let latest = latest_of(routes);
    let limit = near_limit(latest, schedule.limit);
    Scale {
        width: 200 * stops,
        latest: end_with(latest, limit),
        full: schedule.full,
        reserve: schedule.reserve,
        home: schedule.home,
        limit,
        denominator: schedule.denominator,
        clock,
        rise: rise_of(places),
    }
}

/// The limit, where the last vehicle comes home after four fifths of it.
fn near_limit(latest: u64, limit: u64) -> Option<u64>
    ensures { result ≡ near_limit latest limit }
{
    if (5 * latest as u128) < 4 * limit as u128 {
        None
    } else {
        Some(limit)
    }
}

/// The time at the right end.
fn end_with(latest: u64, limit: Option<u64>) -> u64
    ensures { result ≡ end_with latest limit }
{
    match limit {
        Some(limit) => latest.max(limit),
        None => latest,
    }
}

/// How much higher panels are for names of more than five characters.
fn rise_of(places: &[Place]) -> u64
    ensures value { result ≡ rise_of places.now }
    ensures small { result ≤ 1000 }
{
    52 * (widest(5, places).min(24) as u64).saturating_sub(5)
}

/// The most stops of a route.
fn most_stops(routes: &[RouteSchedule]) -> usize
    ensures { result ≡ most_stops 0 routes.now }
{
    let mut most = 0;
    for route in routes {
        most = most.max(route.visits.len());
    }
    most
}

/// Where a scaled time stands, from the left.
#[tactic(auto, using(crate::proofs::Sizes::x_sizes))]
pub(crate) fn x_at(scale: Scale, time: u128) -> u128
    requires wide { scale.width ≤ 52000 }
    requires small { time < 2 ^ 102 }
    ensures value { result ≡ x_at scale time }
    ensures small { result < 2 ^ 120 }
{
    1200 + time * scale.width as u128 / scale.latest.max(1) as u128
}

/// Where a time in hundredths of a unit stands, from the left.
#[tactic(auto, using(crate::proofs::Sizes::mark_sizes))]
pub(crate) fn mark_at(scale: Scale, hundredths: u128) -> u128
    requires scale { IsScale scale }
    requires small { hundredths < 2 ^ 71 }
    ensures { result ≡ mark_at scale hundredths }
{
    let across = hundredths * scale.denominator as u128 * scale.width as u128;
    1200 + across / (100 * scale.latest.max(1) as u128)
}

/// Where a level stands, from the top of the panel.
pub(crate) fn y_at(scale: Scale, level: u64) -> u128
    ensures value { result ≡ y_at scale level }
    ensures within { result ≤ 2200 }
{
    let height = level as u128 * 1600 / scale.full.max(1) as u128;
    2200_u128.saturating_sub(height)
}
