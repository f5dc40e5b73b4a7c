//! Whether the kinds of vehicles of a fleet go with one another.

ghost use Rattle.std.specs.Prelude.{◌↔◌, ◌≤◌, IfNone, IfSome, IsTrue, length};
ghost use Rattle.std.specs.List.{All};
ghost use Rattle.mixed_model.specs.Kinds.{Agrees, first_of};
ghost use Rattle.mixed_model.specs.Agreement.{IsFirstApart};

use instance_reader::Instance;

/// The first kind whose number of nodes, customers or denominator differ from those of kind 0, told
/// by its number from 0. `None` exactly where none differs. It takes no memory.
pub fn kinds_agree(kinds: &[Instance]) -> Option<usize>
    requires { 1 ≤ length kinds.now }
    ensures none { IfNone result (All (Agrees (first_of kinds.now)) kinds.now) }
    ensures first { IfSome result (IsFirstApart kinds.now) }
{
    for kind in 1..kinds.len() {
        if !agrees(&kinds[0], &kinds[kind]) {
            return Some(kind);
        }
    }
    None
}

/// Whether a kind has the number of nodes, the customers and the denominator of another.
fn agrees(first: &Instance, kind: &Instance) -> bool
    ensures { IsTrue result ↔ Agrees first.now kind.now }
{
    kind.nodes() == first.nodes()
        && kind.customers() == first.customers()
        && kind.denominator() == first.denominator()
}
