//! The limit on a route, and how far it may be scaled.

ghost use Rattle.std.specs.Prelude.{◌≡◌, ◌*◌, ◌/◌, ◌<◌, ◌≤◌, None, Some, IfOk, IfErr, nat_lt, unwrap_or};
ghost use Rattle.instance_reader.specs.Limits.{horizon, past_horizon};
ghost use Rattle.instance_reader.specs.Meaning.{smaller};

use crate::faults::ReadFault;

/// The greatest scaled limit.
const HORIZON: u64 = 1_000_000_000_000_000_000;

/// The limit, scaled by the denominator, is past 10^18.
pub(crate) fn is_past_horizon(denominator: u64, limit: u64) -> bool
    ensures { result ≡ nat_lt horizon (denominator * limit) }
{
    u128::from(denominator) * u128::from(limit) > u128::from(HORIZON)
}

/// The smaller of two limits, of those that are given.
pub(crate) fn smaller(a: Option<u64>, b: Option<u64>) -> Option<u64>
    ensures { result ≡ smaller a b }
{
    match (a, b) {
        (Some(a), Some(b)) => Some(a.min(b)),
        (a, None) => a,
        (None, b) => b,
    }
}

/// The greatest limit that isn't scaled past 10^18.
pub(crate) fn greatest(denominator: u64) -> u64
    requires { 1 ≤ denominator }
    ensures value { result ≡ horizon / denominator }
    ensures within { denominator * result ≤ horizon }
{
    HORIZON / denominator
}

/// The limit in force: the given one, or else the greatest. A given limit that is scaled past 10^18
/// is refused.
pub(crate) fn checked_limit(denominator: u64, given: Option<u64>) -> Result<u64, ReadFault>
    requires { 1 ≤ denominator }
    ensures value { IfOk result (λ limit. limit ≡ unwrap_or given (horizon / denominator)) }
    ensures within { IfOk result (λ limit. denominator * limit ≤ horizon) }
    ensures ok { IfOk result (λ _. past_horizon denominator given ≡ None) }
    ensures err { IfErr result (λ fault. past_horizon denominator given ≡ Some fault) }
{
    match given {
        Some(limit) if is_past_horizon(denominator, limit) => Err(ReadFault::Horizon { limit }),
        Some(limit) => Ok(limit),
        None => Ok(greatest(denominator)),
    }
}
