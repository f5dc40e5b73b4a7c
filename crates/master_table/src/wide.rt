//! The test whether a listed basis is too wide.

ghost use Rattle.std.specs.Prelude.{◌≡◌, ◌+◌, ◌<◌, ◌≤◌, All, IfOk, length, true, false};
ghost use Rattle.fleet_model.specs.Wide.{IsTooWide};
ghost use Rattle.master_table.specs.Listed.{listed_columns, route_columns};

use crate::caps::Caps;
use crate::listed::ListedRoute;
use crate::starts::has_start_past;
use std::alloc::{AllocError, Global};

/// The caps of certificates: on the weight and shares, and on prices.
pub const CERTIFICATE_CAPS: Caps = Caps {
    body: 1 << 40,
    cost: 1 << 84,
};

/// Whether the listed basis is too wide: some number of its first entries are independent, and with
/// the helpers that follow, by rising customer, are a basis past the caps of 2^40 and 2^84. `Err`
/// is want of memory alone.
///
/// There are `n` customers. An entry names a column: below `n` the helper of the customer with this
/// number, and from there on the listed routes, in their order.
pub fn is_too_wide(
    alloc: Global,
    n: usize,
    routes: &[ListedRoute],
    entries: &[usize],
) -> Result<bool, AllocError>
    requires customers { n ≤ 128 }
    requires entries { All (λ j. j < n + length routes.now) entries.now }
    ensures wide { IfOk result (λ answer. answer ≡ true →
        IsTooWide n (route_columns routes.now) (listed_columns n routes.now entries.now)) }
    ensures narrow { IfOk result (λ answer. answer ≡ false →
        IsTooWide n (route_columns routes.now) (listed_columns n routes.now entries.now) → ⊥) }
{
    has_start_past(alloc, CERTIFICATE_CAPS, n, routes, entries)
}
