//! Small instances that are drawn by a number.

ghost use Rattle.std.specs.Prelude.{◌<◌, ◌≤◌};

use std::alloc::Global;

/// A generator of pseudo-random numbers (Knuth's linear congruential generator of 64 bits).
#[derive(Drop)]
struct Draws {
    state: u64,
}

impl Draws {
    /// A number below the end.
    fn below(&mut self, end: u64) -> u64
        requires { 1 ≤ end }
        ensures { result < end }
    {
        self.state = self
            .state
            .wrapping_mul(6364136223846793005)
            .wrapping_add(1442695040888963407);
        (self.state >> 33) % end
    }
}

/// The text of an instance of so many customers and stations, without a triangle inequality. The
/// nodes are the depot, the customers and the stations. `None` is want of memory alone.
///
/// Whatever the seed, instances of as many customers and stations have the same denominator.
pub fn instance_text(alloc: Global, seed: u64, customers: u64, stations: u64) -> Option<String> {
    let mut draws = Draws { state: seed };
    let nodes = customers.saturating_add(stations).saturating_add(1);
    let q = draws.below(4).saturating_add(6);
    let css = station_list(alloc, customers.saturating_add(1), stations)?;
    let energies = matrix(alloc, &mut draws, nodes, 4)?;
    let times = matrix(alloc, &mut draws, nodes, 12)?;
    let services = list(alloc, &mut draws, nodes, 3)?;
    let levels = levels(alloc, &mut draws)?;
    let curves =
        r#"[{"cs_type":"fast","time":[0,3,9],"charge":[0,6,9]},{"cs_type":"slow","time":[0,4,12],"charge":[0,6,9],"plug_time":1}]"#;
    format!(in alloc;
        "{{\"max_q\":{q},\"css\":{css},\"breakpoints_by_type\":{curves},\"process_times\":{services},\"energy_matrix\":{energies},\"time_matrix\":{times}{levels}}}"
    ).ok()
}

/// Maybe a limit, a reserve and a level at home, each with a comma before it.
fn levels(alloc: Global, draws: &mut Draws) -> Option<String> {
    let limit = draws.below(30).saturating_add(15);
    let reserve = draws.below(3);
    let home = draws.below(5);
    match draws.below(4) {
        0 => format!(in alloc; "").ok(),
        1 => format!(in alloc; ",\"t_max\":{limit}").ok(),
        2 => format!(in alloc; ",\"min_q\":{reserve},\"home_q\":{home}").ok(),
        _ => format!(in alloc; ",\"t_max\":{limit},\"min_q\":{reserve}").ok(),
    }
}

/// So many rows of as many numbers.
fn matrix(alloc: Global, draws: &mut Draws, nodes: u64, most: u64) -> Option<String>
    requires { 1 ≤ most }
{
    let mut rows = String::new(alloc);
    for row in 0..nodes {
        let mark = if row == 0 { "[" } else { "," };
        rows.push_str(mark).ok()?;
        let numbers = list(alloc, draws, nodes, most)?;
        rows.push_str(numbers.as_str()).ok()?;
    }
    rows.push_str("]").ok()?;
    Some(rows)
}

/// So many numbers, each from 1 to the most.
fn list(alloc: Global, draws: &mut Draws, count: u64, most: u64) -> Option<String>
    requires { 1 ≤ most }
{
    let mut numbers = String::new(alloc);
    for index in 0..count {
        let mark = if index == 0 { "[" } else { "," };
        let number = draws.below(most).saturating_add(1);
        let entry = format!(in alloc; "{mark}{number}").ok()?;
        numbers.push_str(entry.as_str()).ok()?;
    }
    numbers.push_str("]").ok()?;
    Some(numbers)
}

/// So many stations from the first node on, a fast one and a slow one in turn.
fn station_list(alloc: Global, first: u64, count: u64) -> Option<String> {
    let mut entries = format!(in alloc; "[").ok()?;
    for number in 0..count {
        let mark = if number == 0 { "" } else { "," };
        let kind = if number % 2 == 0 { "fast" } else { "slow" };
        let node = first.saturating_add(number);
        let entry = format!(in alloc; "{mark}{{\"node_id\":{node},\"cs_type\":\"{kind}\"}}").ok()?;
        entries.push_str(entry.as_str()).ok()?;
    }
    entries.push_str("]").ok()?;
    Some(entries)
}
