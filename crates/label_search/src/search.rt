//! The search for labels.

ghost use Rattle.std.specs.Prelude.{All, List, ℕ, ◌≡◌, ◌<◌, ◌≤◌, IfOk, IfSome, OnOk, Some, ◌^◌, length, slice_get, unsigned_abs};
ghost use Rattle.ev_model.specs.Network.{node_count};
ghost use Rattle.label_search.specs.Answers.{TellsFault};
ghost use Rattle.label_search.specs.Steps.{IsInRange, IsListed, Leads};
ghost use Rattle.label_search.specs.Tree.{AreCopies, AreSteps, HasOrigin, IsGrown, IsMended, IsNext, IsSearch, IsTree};
ghost use Rattle.label_search.specs.declared.found.Found.{Found};

use crate::coverage::{all_but, asked_of, gap, makes_needless};
use crate::found::{Tree, no_tree, push};
use crate::groups::Gap;
use crate::order::order_of;
use crate::resources::{Care, ListFault, Resources};
use crate::steps::{arrived_behind, values_behind};
use completion_bounds::Completion;
use dominance::LabelValue;
use piece_fn::PieceFn;
use std::alloc::{AllocError, Global};
use std::cmp::Reverse;
use std::collections::BinaryHeap;

/// A search takes no further label once so many have earned at home.
const MOST_HOMES: usize = 80;

/// A search for routes that earn.
#[derive(Drop)]
pub(crate) struct Search<'a, L: Drop, T: Drop> {
    pub(crate) care: Care,
    /// By which it leaves out what can't earn.
    pub(crate) table: &'a Completion,
    pub(crate) tree: Tree<L>,
    /// The labels that wait, by their least time and their number.
    pub(crate) queue: BinaryHeap<Reverse<(u64, usize)>>,
    /// The numbers of the labels that were taken and not needless, whose steps are all made.
    pub(crate) listed: Vec<usize>,
    pub(crate) routes: Vec<T>,
    /// How many labels earned at home.
    pub(crate) homes: usize,
    /// What the best of them gained.
    pub(crate) gain: u128,
}

/// A search in which the start waits.
pub(crate) fn new_search<'a, R: Resources>(
    alloc: Global,
    resources: &R,
    table: &'a Completion,
    care: Care,
) -> Result<Search<'a, R::Label, R::Route>, AllocError>
    ensures { IfOk result (IsSearch (R.space resources.now)) }
{
    let customers = match care {
        Care::Quick => 0,
        Care::Exact | Care::Certain => resources.customers(),
    };
    // That the labels are lawful is told by a call.
    let _inst = resources.instance();
    let mut search = Search {
        care,
        table,
        tree: no_tree(alloc, resources, customers)?,
        queue: BinaryHeap::new(alloc),
        listed: Vec::new(alloc),
        routes: Vec::new(alloc),
        homes: 0,
        gain: 0,
    };
    let start = resources.start(alloc);
    let gap = Gap::new(resources.value(&start));
    put(resources, &mut search, start, 0, None, gap)?;
    Ok(search)
}

/// Takes the labels that wait, by least time, and makes the steps from those that are not needless,
/// until none waits, enough earn, or the search is not to go on.
pub(crate) fn run<R: Resources>(
    alloc: Global,
    resources: &R,
    search: &mut Search<'_, R::Label, R::Route>,
) -> Result<(), AllocError>
    requires { IsSearch (R.space resources.now) search.old }
    ensures search { OnOk result (IsSearch (R.space resources.now) search.new) }
    ensures listed { OnOk result (length search.old.listed.items
        ≤ length search.new.listed.items) }
{
    while search.homes < MOST_HOMES && resources.goes_on() {
        let Some(Reverse((_, number))) = search.queue.pop() else {
            return Ok(());
        };
        if number < search.tree.found.len() && !is_needless(resources, search, number) {
            settle(alloc, resources, search, number)?;
        }
    }
    Ok(())
}

/// Whether labels that were taken before make a label needless.
fn is_needless<R: Resources>(
    resources: &R,
    search: &Search<'_, R::Label, R::Route>,
    number: usize,
) -> bool
    requires search { IsSearch (R.space resources.now) search.now }
    requires known { number < length search.now.tree.found.items }
{
    let found = &search.tree.found[number];
    let (_, key) = resources.value(&found.label).least();
    let words = all_but(search.tree.customers, resources.memory(&found.label));
    let before = (key, number);
    let asked = asked_of(
        resources,
        search,
        &found.label,
        found.earned,
        before,
        &words,
    );
    makes_needless(resources, &search.tree, &asked, found.gap)
}

/// Lists a label, looks whether it earns at home, and makes its steps.
fn settle<R: Resources>(
    alloc: Global,
    resources: &R,
    search: &mut Search<'_, R::Label, R::Route>,
    number: usize,
) -> Result<(), AllocError>
    requires search { IsSearch (R.space resources.now) search.old }
    requires known { number < length search.old.tree.found.items }
    ensures search { OnOk result (IsSearch (R.space resources.now) search.new) }
    ensures grown { OnOk result (IsGrown search.old.tree.found.items search.new.tree.found.items) }
    ensures listed { OnOk result (length search.old.listed.items
        < length search.new.listed.items) }
{
    search.listed.push(number)?;
    look_home(alloc, resources, search, number)?;
    let label = &search.tree.found[number].label;
    let budget = search.table.budget(resources.value(label));
    let leaving = resources.leaving(label, budget);
    for node in 0..resources.instance().nodes() {
        go(alloc, resources, search, number, node, (budget, &leaving))?;
    }
    Ok(())
}

/// Keeps the route of a label that earns at home, if it is to be kept.
fn look_home<R: Resources>(
    alloc: Global,
    resources: &R,
    search: &mut Search<'_, R::Label, R::Route>,
    number: usize,
) -> Result<(), AllocError>
    requires search { IsSearch (R.space resources.now) search.old }
    requires known { number < length search.old.tree.found.items }
    ensures search { OnOk result (IsSearch (R.space resources.now) search.new) }
    ensures same { OnOk result (search.new.tree.found.items ≡ search.old.tree.found.items) }
    ensures listed { OnOk result (search.new.listed.items ≡ search.old.listed.items) }
{
    let found = &search.tree.found[number];
    let Some(gain) = resources.gain(&found.label, found.earned)? else {
        return Ok(());
    };
    search.homes = search.homes.saturating_add(1);
    if !resources.keeps(gain, search.gain) {
        return Ok(());
    }
    search.gain = gain;
    keep_route(alloc, resources, search, number)
}

/// Keeps the route of a label that earns at home.
fn keep_route<R: Resources>(
    alloc: Global,
    resources: &R,
    search: &mut Search<'_, R::Label, R::Route>,
    number: usize,
) -> Result<(), AllocError>
    requires search { IsSearch (R.space resources.now) search.old }
    requires known { number < length search.old.tree.found.items }
    requires earns { (f : Found R.Label) → slice_get search.old.tree.found.items number ≡ Some f →
        (R.space resources.now).earns f.label }
    ensures search { OnOk result (IsSearch (R.space resources.now) search.new) }
    ensures same { OnOk result (search.new.tree.found.items ≡ search.old.tree.found.items) }
    ensures listed { OnOk result (search.new.listed.items ≡ search.old.listed.items) }
    ensures some { OnOk result (0 < length search.new.routes.items) }
{
    let order = order_of(alloc, resources, &search.tree, number)?;
    let route = resources.route(alloc, order)?;
    search.routes.push(route)?;
    Ok(())
}

/// Lets the labels wait that a step leads to from a label, with what the table says of its value
/// and what its steps have in common, to a node.
fn go<R: Resources>(
    alloc: Global,
    resources: &R,
    search: &mut Search<'_, R::Label, R::Route>,
    from: usize,
    node: usize,
    of: (u64, &R::Leaving),
) -> Result<(), AllocError>
    requires search { IsSearch (R.space resources.now) search.old }
    requires known { from < length search.old.tree.found.items }
    requires node { node < node_count (R.space resources.now).network }
    ensures search { OnOk result (IsSearch (R.space resources.now) search.new) }
    ensures grown { OnOk result (IsGrown search.old.tree.found.items search.new.tree.found.items) }
    ensures listed { OnOk result (search.new.listed.items ≡ search.old.listed.items) }
{
    let (budget, leaving) = of;
    let found = &search.tree.found[from];
    let label = &found.label;
    if !resources.may_lead(search.table, label, leaving, node) {
        return Ok(());
    }
    let Some(target) = resources.target(label, found.earned, node) else {
        return Ok(());
    };
    let at = resources.node(label);
    let (memory, earned) = (
        resources.target_memory(&target),
        resources.target_earned(&target),
    );
    if search.table.leaves_out(budget, at, node, memory, earned) {
        return Ok(());
    }
    if resources.instance().curve_at(node).is_none() {
        return serve(resources, search, from, node, &target);
    }
    let values = values_behind(alloc, resources, label, node)?;
    add_all(resources, search, from, node, &target, values)
}

/// Lets the label wait that the step from a label to a node without a curve leads to, where it is
/// not needless.
fn serve<R: Resources>(
    resources: &R,
    search: &mut Search<'_, R::Label, R::Route>,
    from: usize,
    node: usize,
    target: &R::Target,
) -> Result<(), AllocError>
    requires search { IsSearch (R.space resources.now) search.old }
    requires known { from < length search.old.tree.found.items }
    requires node { node < node_count (R.space resources.now).network }
    requires leads { (f : Found R.Label) → slice_get search.old.tree.found.items from ≡ Some f →
        (value : List (ℕ × ℕ)) → Leads (R.space resources.now) f.label
        ((R.space resources.now).label target.now node value) }
    ensures search { OnOk result (IsSearch (R.space resources.now) search.new) }
    ensures grown { OnOk result (IsGrown search.old.tree.found.items search.new.tree.found.items) }
    ensures listed { OnOk result (search.new.listed.items ≡ search.old.listed.items) }
{
    let Some(value) = arrived_behind(resources, &search.tree.found[from].label, node)? else {
        return Ok(());
    };
    let label = resources.label(target, node, value);
    add(
        resources,
        search,
        from,
        resources.target_earned(target),
        label,
    )
}

/// Lets the labels with these values wait, where they are not needless.
fn add_all<R: Resources>(
    resources: &R,
    search: &mut Search<'_, R::Label, R::Route>,
    from: usize,
    node: usize,
    target: &R::Target,
    mut values: Vec<PieceFn>,
) -> Result<(), AllocError>
    requires search { IsSearch (R.space resources.now) search.old }
    requires node { node < node_count (R.space resources.now).network }
    requires steps { AreSteps (R.space resources.now) search.old.tree.found.items from node
        target.now values.items }
    ensures search { OnOk result (IsSearch (R.space resources.now) search.new) }
    ensures grown { OnOk result (IsGrown search.old.tree.found.items search.new.tree.found.items) }
    ensures listed { OnOk result (search.new.listed.items ≡ search.old.listed.items) }
{
    let earned = resources.target_earned(target);
    while let Some(value) = values.pop() {
        add(
            resources,
            search,
            from,
            earned,
            resources.label(target, node, value),
        )?;
    }
    Ok(())
}

/// Lets a label wait that has earned so much, where it is not needless.
fn add<R: Resources>(
    resources: &R,
    search: &mut Search<'_, R::Label, R::Route>,
    from: usize,
    earned: i128,
    label: R::Label,
) -> Result<(), AllocError>
    requires search { IsSearch (R.space resources.now) search.old }
    requires small { unsigned_abs earned ≤ 2 ^ 91 }
    requires next { IsNext (R.space resources.now) search.old.tree.found.items from label }
    ensures search { OnOk result (IsSearch (R.space resources.now) search.new) }
    ensures grown { OnOk result (IsGrown search.old.tree.found.items search.new.tree.found.items) }
    ensures listed { OnOk result (search.new.listed.items ≡ search.old.listed.items) }
{
    let table = search.table;
    let budget = table.budget(resources.value(&label));
    if table.is_beyond(
        budget,
        resources.node(&label),
        resources.memory(&label),
        earned,
    ) {
        return Ok(());
    }
    let words = all_but(search.tree.customers, resources.memory(&label));
    let last = (u64::MAX, usize::MAX);
    let asked = asked_of(resources, search, &label, earned, last, &words);
    let Some(open) = gap(resources, &search.tree, &asked) else {
        return Ok(());
    };
    put(resources, search, label, earned, Some(from), open)?;
    Ok(())
}

/// Copies of the listed labels, in order.
pub(crate) fn copies<R: Resources>(
    alloc: Global,
    resources: &R,
    search: &Search<'_, R::Label, R::Route>,
) -> Result<Vec<R::Label>, AllocError>
    requires { IsSearch (R.space resources.now) search.now }
    ensures copies { IfOk result (λ labels.
        AreCopies search.now.tree.found.items search.now.listed.items labels.items) }
    ensures listed { IfOk result (λ labels.
        All (IsListed (R.space resources.now)) labels.items) }
{
    let mut labels = Vec::with_capacity(alloc, search.listed.len())?;
    for number in &search.listed {
        labels.push(resources.copy(alloc, &search.tree.found[*number].label)?)?;
    }
    Ok(labels)
}

/// Answers what the listed labels lack: keeps the route of a label that earns at home, or lists
/// further labels, whatever other labels there are.
pub(crate) fn mend<R: Resources>(
    alloc: Global,
    resources: &R,
    search: &mut Search<'_, R::Label, R::Route>,
    labels: &[R::Label],
    fault: ListFault,
) -> Result<(), AllocError>
    requires search { IsSearch (R.space resources.now) search.old }
    requires copies { AreCopies search.old.tree.found.items search.old.listed.items labels.now }
    requires told { TellsFault (R.space resources.now) labels.now (Some fault) }
    ensures search { OnOk result (IsSearch (R.space resources.now) search.new) }
    ensures further { OnOk result (IsMended search.old search.new) }
{
    match fault {
        ListFault::Start => settle(alloc, resources, search, 0),
        ListFault::Step { label, node } => {
            let number = search.listed[label];
            force(alloc, resources, search, number, node)
        }
        ListFault::End { label } => {
            let number = search.listed[label];
            keep_route(alloc, resources, search, number)
        }
    }
}

/// Makes the step from a label to a node, and lists the labels that it leads to.
fn force<R: Resources>(
    alloc: Global,
    resources: &R,
    search: &mut Search<'_, R::Label, R::Route>,
    from: usize,
    node: usize,
) -> Result<(), AllocError>
    requires search { IsSearch (R.space resources.now) search.old }
    requires known { from < length search.old.tree.found.items }
    requires node { node < node_count (R.space resources.now).network }
    requires leads { (f : Found R.Label) → slice_get search.old.tree.found.items from ≡ Some f →
        (R.space resources.now).can_step f.label node }
    ensures search { OnOk result (IsSearch (R.space resources.now) search.new) }
    ensures listed { OnOk result (length search.old.listed.items
        < length search.new.listed.items) }
{
    let found = &search.tree.found[from];
    let Some(target) = resources.target(&found.label, found.earned, node) else {
        unreachable!();
    };
    let values = values_behind(alloc, resources, &found.label, node)?;
    force_all(alloc, resources, search, from, node, &target, values)
}

/// Lists the labels with these values.
fn force_all<R: Resources>(
    alloc: Global,
    resources: &R,
    search: &mut Search<'_, R::Label, R::Route>,
    from: usize,
    node: usize,
    target: &R::Target,
    mut values: Vec<PieceFn>,
) -> Result<(), AllocError>
    requires search { IsSearch (R.space resources.now) search.old }
    requires node { node < node_count (R.space resources.now).network }
    requires steps { AreSteps (R.space resources.now) search.old.tree.found.items from node
        target.now values.items }
    requires some { 0 < length values.items }
    ensures search { OnOk result (IsSearch (R.space resources.now) search.new) }
    ensures listed { OnOk result (length search.old.listed.items
        < length search.new.listed.items) }
{
    let earned = resources.target_earned(target);
    while let Some(value) = values.pop() {
        let label = resources.label(target, node, value);
        force_one(alloc, resources, search, from, earned, label)?;
    }
    Ok(())
}

/// Lists a label behind another one.
fn force_one<R: Resources>(
    alloc: Global,
    resources: &R,
    search: &mut Search<'_, R::Label, R::Route>,
    from: usize,
    earned: i128,
    label: R::Label,
) -> Result<(), AllocError>
    requires search { IsSearch (R.space resources.now) search.old }
    requires small { unsigned_abs earned ≤ 2 ^ 91 }
    requires next { IsNext (R.space resources.now) search.old.tree.found.items from label }
    ensures search { OnOk result (IsSearch (R.space resources.now) search.new) }
    ensures grown { OnOk result (IsGrown search.old.tree.found.items search.new.tree.found.items) }
    ensures listed { OnOk result (length search.old.listed.items
        < length search.new.listed.items) }
{
    let open = Gap::new(resources.value(&label));
    let number = put(resources, search, label, earned, Some(from), open)?;
    settle(alloc, resources, search, number)
}

/// Puts a label behind the others, lets it wait, and answers its number.
fn put<R: Resources>(
    resources: &R,
    search: &mut Search<'_, R::Label, R::Route>,
    label: R::Label,
    earned: i128,
    parent: Option<usize>,
    open: Gap,
) -> Result<usize, AllocError>
    requires tree { IsTree (R.space resources.now) search.old.tree.found.items
        search.old.tree.groups.items }
    requires range { IsInRange (R.space resources.now) label }
    requires small { unsigned_abs earned ≤ 2 ^ 91 }
    requires elder { IfSome parent (λ p. p < length search.old.tree.found.items) }
    requires origin { HasOrigin (R.space resources.now) search.old.tree.found.items parent label }
    ensures tree { OnOk result (IsTree (R.space resources.now) search.new.tree.found.items
        search.new.tree.groups.items) }
    ensures grown { OnOk result (IsGrown search.old.tree.found.items search.new.tree.found.items) }
    ensures some { OnOk result (0 < length search.new.tree.found.items) }
    ensures number { IfOk result (λ i. i < length search.new.tree.found.items) }
    ensures listed { search.new.listed ≡ search.old.listed }
    ensures routes { search.new.routes ≡ search.old.routes }
{
    let (_, key) = resources.value(&label).least();
    let number = push(resources, &mut search.tree, label, earned, parent, open)?;
    search.queue.push(Reverse((key, number)))?;
    Ok(number)
}
