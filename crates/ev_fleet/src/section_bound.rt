//! The bounds of sections.

ghost use Rattle.std.specs.Prelude.{◌≡◌, ◌≤◌, pos, ◌≤ℤ◌, IfSome, length};
ghost use Rattle.std.specs.List.{All};
ghost use Rattle.bound_certificate.specs.Limits.{greatest_bound};
ghost use Rattle.bound_certificate.specs.Meaning.{priced_section};
ghost use Rattle.bound_certificate.specs.Ranges.{IsPrice};
ghost use Rattle.fleet_model.specs.Prices.{price_total};
ghost use Rattle.ev_fleet.specs.Bounds.{IsBoundOf};
ghost use Rattle.ev_fleet.specs.State.{greater_of};

use bound_certificate::Section;
use certificate_check::{rounded_up, unsigned_total};

/// The bound of a section: its price sum over its weight, rounded up, where the weight is above 0;
/// `None`, that there is no plan, where the weight is 0 and the price sum above 0; and else 0.
pub(crate) fn bound_of(section: &Section) -> Option<u128>
    requires few { length section.now.prices ≤ 128 }
    requires small { All IsPrice section.now.prices }
    requires some { pos 0 ≤ℤ price_total section.now.prices }
    ensures bound { IsBoundOf (priced_section section.now) result }
    ensures small { IfSome result (λ bound. bound ≤ greatest_bound) }
{
    let sum = unsigned_total(section.prices.as_slice());
    if section.weight == 0 {
        return if sum == 0 { Some(0) } else { None };
    }
    Some(rounded_up(sum, section.weight))
}

/// Of two sections the number of the one with the greater bound, and this bound: of the one with
/// the number, whose bound may be `None`, and of another with a name and a bound.
pub(crate) fn greater_of(
    number: usize,
    own: Option<u128>,
    name: usize,
    bound: u128,
) -> (usize, Option<u128>)
    ensures { result ≡ greater_of number own name bound }
{
    match own {
        Some(own) if own <= bound => (name, Some(bound)),
        _ => (number, own),
    }
}
