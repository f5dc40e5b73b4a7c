//! The kinds of vehicles that the tests drive.

ghost use Rattle.std.specs.Prelude.{◌≡◌, ◌≤◌, length, true};
ghost use Rattle.instance_reader.specs.Instance.{customer_nodes, most_customers};
ghost use Rattle.mixed_model.specs.Kinds.{AreKinds, first_of};

use instance_reader::{Instance, read_instance};
use mixed_model::kinds_agree;
use std::alloc::Global;
use worked_instances::TWO_CUSTOMERS;

/// Two customers as in [`TWO_CUSTOMERS`], with other times: customer 1 is nearer and customer 2 is
/// farther.
const OTHER_TIMES: &str =
    r#"{"max_q":10,"css":[],"breakpoints_by_type":[],"process_times":[0,0,0],"energy_matrix":[[0,1,1],[1,0,1],[1,1,0]],"time_matrix":[[0,3,6],[3,0,5],[6,5,0]]}"#;

/// Whether the kinds are those of a fleet with at most 128 customers.
pub(crate) fn are_of_a_fleet(kinds: &[Instance]) -> bool
    ensures kinds { result ≡ true → AreKinds kinds.now }
    ensures few { result ≡ true → length (customer_nodes (first_of kinds.now)) ≤ most_customers }
{
    let count = kinds.len();
    if count == 0 {
        return false;
    }
    if count > 8 || kinds_agree(kinds).is_some() {
        return false;
    }
    if kinds[0].customers().len() > 128 {
        return false;
    }
    true
}

/// Two kinds whose routes take 12 at most, so that none serves both customers.
pub(crate) fn short_kinds(alloc: Global) -> Option<Vec<Instance>> {
    let mut kinds = Vec::new(alloc);
    for text in [TWO_CUSTOMERS, OTHER_TIMES] {
        let inst = read_instance(alloc, text.as_bytes()).ok()?;
        kinds.push(inst.with_limit(12).ok()?).ok()?;
    }
    Some(kinds)
}
