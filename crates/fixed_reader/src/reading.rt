//! Reading what `fixed` puts.

ghost use Rattle.std.specs.Prelude.{◌≡◌, ◌≢◌, ◌++◌, ◌∷◌, [], Ok, Err, IfErr, IfOk, OnOk, codes, decimal, option_map};
ghost use Rattle.ev_text.specs.Scans.{word_at};
ghost use Rattle.fixed_reader.specs.FixedReading.{amount_at, charged_at, each_to_end, fixed_at, fixed_in, line_at, line_behind};
ghost use Rattle.fixed_reader.specs.Spelled.{SpellsFixed, charged};
ghost use Rattle.route_plan.specs.PlanReading.{or_bad};

use ev_list::Listed;
use ev_model::Stop;
use ev_text::{Scan, TextFault};
use instance_reader::MOST_BYTES;
use route_plan::{PlanText, RoutePlan};
use std::alloc::{AllocError, Global};

/// The greatest number of a node, and the greatest amount.
const GREATEST_NUMBER: u128 = 1_000_000_000;

/// The greatest scaled time.
const GREATEST_TIME: u128 = 1_000_000_000_000_000_000;

/// The charged route of one vehicle, and the scaled time that is told of it.
#[derive(Drop)]
pub struct ChargedRoute {
    pub plan: RoutePlan,
    pub time: u64,
}

/// The charged route of a text, or `None` where it says that there is none, as `fixed` puts it on
/// an instance with this denominator: `infeasible`, or a line `time X/D` and a line a stop. A stop
/// that was inserted is `via` its node, another is `at` it; where something is charged ` charge `
/// and the amount follow. Numbers are decimal without leading zeros: nodes and amounts at most
/// 10^9, amounts above 0, the time at most 10^18. Each line ends with a line feed, and the text
/// with the last.
///
/// A text of more than 2^26 bytes is `TooLong`. Else `Bad` has the first fault from the left, as
/// [`route_plan::read_plan`] tells them; another denominator is `Word` at the slash. `Memory`:
/// memory was refused.
pub fn read_fixed(
    alloc: Global,
    bytes: &[u8],
    denominator: u64,
) -> Result<Option<ChargedRoute>, PlanText>
    ensures ok { IfOk result
        (λ found. fixed_in denominator bytes.now ≡ Ok (option_map charged found)) }
    ensures spelled { IfOk result
        (λ found. SpellsFixed denominator bytes.now (option_map charged found)) }
    ensures fault { IfErr result (λ fault. fault ≢ PlanText.Memory →
        fixed_in denominator bytes.now ≡ Err fault) }
{
    let len = bytes.len();
    if len > MOST_BYTES {
        return Err(PlanText::TooLong { len });
    }
    let mut scan = Scan::new(bytes);
    let found = take_fixed(alloc, &mut scan, denominator)?;
    scan.end()?;
    Ok(found)
}

/// Takes a charged route, or the word that there is none.
fn take_fixed(
    alloc: Global,
    scan: &mut Scan<'_>,
    denominator: u64,
) -> Result<Option<ChargedRoute>, PlanText>
    ensures ok { IfOk result
        (λ found. fixed_at denominator scan.old ≡ Ok (option_map charged found, scan.new)) }
    ensures fault { IfErr result (λ fault. fault ≢ PlanText.Memory →
        or_bad (fixed_at denominator scan.old) ≡ Err fault) }
{
    if scan.choose(b"infeasible\n")? {
        return Ok(None);
    }
    let found = take_charged(alloc, scan, denominator)?;
    Ok(Some(found))
}

/// Takes a charged route: the line of its time, and the lines of its stops.
fn take_charged(
    alloc: Global,
    scan: &mut Scan<'_>,
    denominator: u64,
) -> Result<ChargedRoute, PlanText>
    ensures ok { IfOk result
        (λ found. charged_at denominator scan.old ≡ Ok (charged found, scan.new)) }
    ensures fault { IfErr result (λ fault. fault ≢ PlanText.Memory →
        or_bad (charged_at denominator scan.old) ≡ Err fault) }
{
    scan.word(b"time ")?;
    let time = scan.whole(GREATEST_TIME)? as u64;
    let over = match format!(in alloc; "/{denominator}\n") {
        Ok(over) => over,
        Err(AllocError) => return Err(PlanText::Memory),
    };
    scan.word(over.as_bytes())?;
    let stops = take_lines(alloc, scan)?;
    Ok(ChargedRoute {
        plan: RoutePlan {
            stops: Listed::from_vec(stops),
        },
        time,
    })
}

/// Takes the lines of stops, up to the end of the text.
fn take_lines(alloc: Global, scan: &mut Scan<'_>) -> Result<Vec<Stop>, PlanText>
    ensures ok { IfOk result (λ stops. each_to_end line_at scan.old ≡ Ok (stops.items, scan.new)) }
    ensures fault { IfErr result (λ fault. fault ≢ PlanText.Memory →
        or_bad (each_to_end line_at scan.old) ≡ Err fault) }
{
    let mut stops = Vec::new(alloc);
    while !scan.is_end() {
        let stop = take_line(scan)?;
        stops.push(stop)?;
    }
    Ok(stops)
}

/// Takes the line of a stop: `via ` where it was inserted, else `at `, its node, and the rest.
fn take_line(scan: &mut Scan<'_>) -> Result<Stop, TextFault>
    ensures ok { IfOk result (λ stop. line_at scan.old ≡ Ok (stop, scan.new)) }
    ensures fault { IfErr result (λ fault. line_at scan.old ≡ Err fault) }
{
    if scan.choose(b"via ")? {
        return take_rest(scan, true);
    }
    scan.word(b"at ")?;
    take_rest(scan, false)
}

/// Takes what stands behind the first word of a line: the node, and the amount.
fn take_rest(scan: &mut Scan<'_>, via: bool) -> Result<Stop, TextFault>
    ensures ok { IfOk result (λ stop. line_behind via scan.old ≡ Ok (stop, scan.new)) }
    ensures fault { IfErr result (λ fault. line_behind via scan.old ≡ Err fault) }
{
    let node = scan.whole(GREATEST_NUMBER)? as usize;
    let added = take_amount(scan)?;
    Ok(Stop { node, added, via })
}

/// Takes the end of a line: the line feed alone, which answers 0, or in front of it ` charge ` and
/// an amount, which is above 0.
fn take_amount(scan: &mut Scan<'_>) -> Result<u64, TextFault>
    ensures ok { IfOk result (λ added. amount_at scan.old ≡ Ok (added, scan.new)) }
    ensures fault { IfErr result (λ fault. amount_at scan.old ≡ Err fault) }
{
    if scan.choose(b"\n")? {
        return Ok(0);
    }
    scan.word(b" charge ")?;
    let amount = scan.positive(GREATEST_NUMBER)?;
    scan.word(b"\n")?;
    Ok(amount as u64)
}
