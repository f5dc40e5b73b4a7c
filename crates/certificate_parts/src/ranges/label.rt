//! Whether labels are in their ranges.

ghost use Rattle.std.specs.Prelude.{◌≡◌, ◌≤◌, ◌<◌, ◌^◌, ◌&&◌, ℕ, false, length, true, ◌↔◌, IsTrue, ◌*◌};
ghost use Rattle.std.specs.List.{All};
ghost use Rattle.customer_sets.specs.CustSet.{has};
ghost use Rattle.ev_model.specs.Network.{scaled_limit, node_count, is_customer};
ghost use Rattle.instance_reader.specs.Instance.{customer_nodes, most_customers};
ghost use Rattle.certificate_parts.specs.Ranges.{LabelFits, PointFits, customer_count, IsLast};

use customer_sets::CustSet;
use instance_reader::{Instance, MOST_CUSTOMERS};
use piece_fn::Label;

/// Whether each label is in its ranges.
pub fn labels_fit(inst: &Instance, labels: &[Label]) -> bool
    requires { length (customer_nodes inst.now) ≤ most_customers }
    ensures { IsTrue result ↔ All (LabelFits inst.now) labels.now }
{
    for label in labels {
        if !label_fits(inst, label) {
            return false;
        }
    }
    true
}

/// Whether a label is in its ranges.
pub(crate) fn label_fits(inst: &Instance, label: &Label) -> bool
    requires { length (customer_nodes inst.now) ≤ most_customers }
    ensures { IsTrue result ↔ LabelFits inst.now label.now }
{
    is_last(inst, label.last)
        && label.node < inst.nodes()
        && holds_customers(inst, label.set)
        && points_fit(inst, label.value.points())
}

/// Whether the node is 0 or that of a customer.
fn is_last(inst: &Instance, node: usize) -> bool
    ensures { IsTrue result ↔ IsLast inst.now node }
{
    node == 0 || is_customer(inst, node)
}

/// Whether the node is that of a customer.
fn is_customer(inst: &Instance, node: usize) -> bool
    ensures { IsTrue result ↔ ((node < node_count inst.now) × (is_customer inst.now node ≡ true)) }
{
    node < inst.nodes() && inst.customer_number(node).is_some()
}

/// Whether each member of the set is the number of a customer.
fn holds_customers(inst: &Instance, set: CustSet) -> bool
    requires { length (customer_nodes inst.now) ≤ most_customers }
    ensures { IsTrue result ↔
        ((c : ℕ) → has set c ≡ true → c < customer_count inst.now) }
{
    let customers = inst.customers().len();
    for number in 0..MOST_CUSTOMERS {
        if set.has(number) && customers <= number {
            return false;
        }
    }
    true
}

/// Whether levels are at most a full battery, and times at most the limit.
fn points_fit(inst: &Instance, points: &[(u64, u64)]) -> bool
    ensures { IsTrue result ↔ All (PointFits inst.now) points.now }
{
    for point in points {
        if !point_fits(inst, *point) {
            return false;
        }
    }
    true
}

fn point_fits(inst: &Instance, point: (u64, u64)) -> bool
    ensures { IsTrue result ↔ PointFits inst.now point }
{
    point.0 <= inst.max_q() && point.1 <= inst.scaled_limit()
}
