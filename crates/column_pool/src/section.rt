//! The section of a node.

ghost use Rattle.std.specs.Prelude.{◌≡◌, ◌≤◌, length};
ghost use Rattle.bound_certificate.specs.Limits.{most_items};

use bound_certificate::Section;
use customer_sets::Pairs;
use ev_list::Listed;
use piece_fn::Label;
use pricing::Prices;

/// The section of closed labels.
pub(crate) fn section_of(pairs: &Pairs, prices: Prices, labels: Vec<Label>) -> Section
    ensures weight { result.weight ≡ prices.weight }
    ensures prices { result.prices ≡ prices.of.items }
    ensures pairs { result.pairs ≡ pairs.now }
    ensures labels { result.labels ≡ labels.items }
    ensures few { length result.labels ≤ most_items }
{
    let Prices { weight, of } = prices;
    Section {
        weight,
        prices: Listed::from_vec(of),
        pairs: *pairs,
        labels: Listed::from_vec(labels),
    }
}
