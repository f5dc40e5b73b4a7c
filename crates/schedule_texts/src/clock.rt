//! Times of day in place of times from 0.

ghost use Rattle.std.specs.Prelude.{◌≡◌, ◌≤◌, ◌++◌, ◌^◌, ◌<◌, OnOk};
ghost use Rattle.schedule_texts.specs.Clocks.{AreClocks, IsClock, clock_text, day_seconds, hours_text, midnights_text, moment_text, parts_of, seconds_of, two_digits};

use crate::decimals::push_time;
use report_lines::{push_numbered, push_word};
use std::alloc::{AllocError, Global};

/// A clock: when the vehicles begin, in minutes from midnight, and how long a unit of time is,
/// `seconds / parts` seconds.
#[derive(Clone, Copy)]
pub struct Clock {
    pub begin: u64,
    pub seconds: u64,
    pub parts: u64,
}

/// Appends a time at which something happens: by the clock, where there is one.
pub(crate) fn push_moment(
    alloc: Global,
    out: &mut Vec<u8>,
    clock: Option<Clock>,
    exact: bool,
    denominator: u64,
    scaled: u64,
) -> Result<(), AllocError>
    requires some { 1 ≤ denominator }
    requires small { denominator ≤ 10 ^ 9 }
    requires clock { AreClocks clock }
    ensures { OnOk result
        (out.new.items ≡ out.old.items ++ moment_text clock exact denominator scaled) }
{
    match clock {
        Some(clock) => push_clock_time(alloc, out, clock, denominator, scaled),
        None => push_time(alloc, out, exact, denominator, scaled as u128),
    }
}

/// Appends a scaled time as a time of day.
pub(crate) fn push_clock_time(
    alloc: Global,
    out: &mut Vec<u8>,
    clock: Clock,
    denominator: u64,
    scaled: u64,
) -> Result<(), AllocError>
    requires some { 1 ≤ denominator }
    requires small { denominator ≤ 10 ^ 9 }
    requires clock { IsClock clock }
    ensures { OnOk result
        (out.new.items ≡ out.old.items ++ clock_text clock denominator scaled) }
{
    push_hours(alloc, out, day_seconds(clock, denominator, scaled))
}

/// The seconds from the midnight before time 0.
fn day_seconds(clock: Clock, denominator: u64, scaled: u64) -> u128
    requires some { 1 ≤ denominator }
    requires small { denominator ≤ 10 ^ 9 }
    requires clock { IsClock clock }
    ensures { result ≡ day_seconds clock denominator scaled }
{
    clock.begin as u128 * 60 + seconds_of(clock, denominator, scaled)
}

/// How many scaled units of time a second has, over the seconds of a unit.
#[tactic(auto, using(crate::proofs::Sizes::part_sizes))]
fn parts_of(clock: Clock, denominator: u64) -> u128
    requires some { 1 ≤ denominator }
    requires small { denominator ≤ 10 ^ 9 }
    requires clock { IsClock clock }
    ensures value { result ≡ parts_of clock denominator }
    ensures some { 1 ≤ result }
    ensures small { result ≤ 10 ^ 18 }
{
    denominator as u128 * clock.parts as u128
}

/// The seconds that are nearest to a scaled time, a half up.
#[tactic(auto, using(crate::proofs::Sizes::second_sizes))]
fn seconds_of(clock: Clock, denominator: u64, scaled: u64) -> u128
    requires some { 1 ≤ denominator }
    requires small { denominator ≤ 10 ^ 9 }
    requires clock { IsClock clock }
    ensures value { result ≡ seconds_of clock denominator scaled }
    ensures small { result < 2 ^ 80 }
{
    let parts = parts_of(clock, denominator);
    (scaled as u128 * clock.seconds as u128 * 2 + parts) / (2 * parts)
}

/// Appends hours, minutes and seconds of a day, and how many midnights lie between.
#[tactic(auto, unfolding(crate::specs::Clocks::hours_text))]
fn push_hours(alloc: Global, out: &mut Vec<u8>, seconds: u128) -> Result<(), AllocError>
    ensures { OnOk result (out.new.items ≡ out.old.items ++ hours_text seconds) }
{
    push_two(alloc, out, seconds / 3600 % 24)?;
    push_word(out, b":")?;
    push_two(alloc, out, seconds / 60 % 60)?;
    push_word(out, b":")?;
    push_two(alloc, out, seconds % 60)?;
    push_midnights(alloc, out, seconds / 86400)
}

/// Appends a number below 100 in two digits.
fn push_two(alloc: Global, out: &mut Vec<u8>, number: u128) -> Result<(), AllocError>
    ensures { OnOk result (out.new.items ≡ out.old.items ++ two_digits number) }
{
    push_numbered(alloc, out, if number < 10 { b"0" } else { b"" }, number)
}

/// Appends how many midnights lie between, where there is one.
fn push_midnights(alloc: Global, out: &mut Vec<u8>, days: u128) -> Result<(), AllocError>
    ensures { OnOk result (out.new.items ≡ out.old.items ++ midnights_text days) }
{
    if days > 0 {
        push_numbered(alloc, out, b"+", days)?;
    }
    Ok(())
}
