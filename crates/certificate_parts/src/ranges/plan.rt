//! Whether the stops of a plan may stand in a text.

ghost use Rattle.std.specs.Prelude.{◌<◌, ◌^◌, ◌&&◌, false, true, ◌↔◌, IsTrue, ◌*◌};
ghost use Rattle.std.specs.List.{All};
ghost use Rattle.ev_model.specs.declared.Stop.{Stop};
ghost use Rattle.route_plan.specs.PlanTexts.{FitsText, IsSmallStop};

use ev_model::Stop;

/// The greatest number of a node, and the greatest amount.
const GREATEST_NUMBER: u64 = 1_000_000_000;

/// Whether there is a stop, and the numbers of all are at most 10^9.
pub fn stops_fit(stops: &[Stop]) -> bool
    ensures { IsTrue result ↔ FitsText stops.now }
{
    !stops.is_empty() && are_small(stops)
}

fn are_small(stops: &[Stop]) -> bool
    ensures { IsTrue result ↔ All IsSmallStop stops.now }
{
    for stop in stops {
        if !is_small(*stop) {
            return false;
        }
    }
    true
}

fn is_small(stop: Stop) -> bool
    ensures { IsTrue result ↔ IsSmallStop stop }
{
    stop.node as u64 <= GREATEST_NUMBER && stop.added <= GREATEST_NUMBER
}
