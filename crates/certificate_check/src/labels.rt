//! The labels of a section, in their ranges, under the test of closed lists.

ghost use Rattle.std.specs.Prelude.{◌≡◌, ◌≤◌, IfErr, IfOk, length};
ghost use Rattle.std.specs.List.{All};
ghost use Rattle.bound_certificate.specs.Ranges.{IsPrice, LabelFits, customer_count};
ghost use Rattle.certificate_parts.specs.Limits.{greatest_weight};
ghost use Rattle.certificate_check.specs.Labels.{priced_labels};
ghost use Rattle.closed_lists.specs.Verdicts.{IsTold};
ghost use Rattle.customer_sets.specs.Pairs.{allows_of};
ghost use Rattle.fleet_model.specs.ClosedList.{IsClosed};
ghost use Rattle.instance_reader.specs.Instance.{customer_nodes, most_customers};

use closed_lists::{ClosedFault, check_closed};
use customer_sets::Pairs;
use instance_reader::Instance;
use piece_fn::Label;
use std::alloc::Global;

/// Tests whether labels in the ranges of the instance are closed under a weight of time, prices by
/// customer number and forbidden pairs: `Ok` where they are, else the first broken rule.
pub fn check_labels(
    alloc: Global,
    inst: &Instance,
    pairs: &Pairs,
    weight: u64,
    prices: &[i128],
    labels: &[Label],
) -> Result<(), ClosedFault>
    requires few { length (customer_nodes inst.now) ≤ most_customers }
    requires pairs { pairs.now.customers ≡ customer_count inst.now }
    requires weight { weight ≤ greatest_weight }
    requires one_price { length prices.now ≡ customer_count inst.now }
    requires small_prices { All IsPrice prices.now }
    requires labels { All (LabelFits inst.now) labels.now }
    ensures closed { IfOk result (λ _.
        IsClosed inst.now (priced_labels (allows_of pairs.now) weight prices.now labels.now)) }
    ensures broken { IfErr result
        (IsTold inst.now (priced_labels (allows_of pairs.now) weight prices.now labels.now)) }
{
    check_closed(alloc, inst, pairs, weight, prices, labels)
}
