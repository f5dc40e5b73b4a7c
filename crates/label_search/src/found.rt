//! The labels that a search finds.

ghost use Rattle.std.specs.Prelude.{◌≡◌, ◌+◌, ◌<◌, ◌≤◌, ◌^◌, IfOk, IfSome, OnOk, length, unsigned_abs};
ghost use Rattle.label_search.specs.Steps.{IsInRange};
ghost use Rattle.label_search.specs.Tree.{HasOrigin, IsGrown, IsTree};

use crate::groups::{Gap, Glance, Group, no_labels};
use crate::resources::Resources;
use std::alloc::{AllocError, Global};

/// A label that was found.
#[derive(Drop)]
pub(crate) struct Found<L: Drop> {
    pub(crate) label: L,
    /// What it has earned.
    pub(crate) earned: i128,
    /// The number of the label that it is one stop behind; `None` for the start.
    pub(crate) parent: Option<usize>,
    /// What the labels of its group left open that came before it.
    pub(crate) gap: Gap,
}

/// The labels that were found.
#[derive(Drop)]
pub(crate) struct Tree<L: Drop> {
    /// The labels, by number.
    pub(crate) found: Vec<Found<L>>,
    /// What is read of the labels of a group, by group.
    pub(crate) groups: Vec<Group>,
    /// How many customers the groups tell apart: none where it doesn't count who is remembered.
    pub(crate) customers: usize,
}

/// No label.
pub(crate) fn no_tree<R: Resources>(
    alloc: Global,
    resources: &R,
    customers: usize,
) -> Result<Tree<R::Label>, AllocError>
    ensures tree { IfOk result (λ t.
        IsTree (R.space resources.now) t.found.items t.groups.items) }
    ensures none { IfOk result (λ t. length t.found.items ≡ 0) }
{
    Ok(Tree {
        found: Vec::new(alloc),
        groups: no_labels(alloc, resources.groups())?,
        customers,
    })
}

/// Puts a label, which has earned so much, behind the others and answers its number.
pub(crate) fn push<R: Resources>(
    resources: &R,
    tree: &mut Tree<R::Label>,
    label: R::Label,
    earned: i128,
    parent: Option<usize>,
    gap: Gap,
) -> Result<usize, AllocError>
    requires tree { IsTree (R.space resources.now) tree.old.found.items tree.old.groups.items }
    requires range { IsInRange (R.space resources.now) label }
    requires small { unsigned_abs earned ≤ 2 ^ 91 }
    requires elder { IfSome parent (λ p. p < length tree.old.found.items) }
    requires origin { HasOrigin (R.space resources.now) tree.old.found.items parent label }
    ensures tree { OnOk result
        (IsTree (R.space resources.now) tree.new.found.items tree.new.groups.items) }
    ensures grown { OnOk result (IsGrown tree.old.found.items tree.new.found.items) }
    ensures count { OnOk result (length tree.new.found.items
        ≡ length tree.old.found.items + 1) }
    ensures number { IfOk result (λ i. i ≡ length tree.old.found.items) }
{
    let group = resources.group(&label);
    let number = tree.found.len();
    let memory = resources.memory(&label);
    let glance = Glance::of(resources.value(&label), resources.weight(), earned, number);
    tree.groups[group].push(tree.customers, glance, memory)?;
    tree.found.push(Found {
        label,
        earned,
        parent,
        gap,
    })?;
    Ok(number)
}
