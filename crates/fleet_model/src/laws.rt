//! Laws of closed lists of labels. Each is the contract of an empty function.

ghost use Rattle.std.specs.Prelude.{◌≡◌, ◌↔◌, ◌*◌, ◌*ℤ◌, ◌<◌, ◌≤◌, ◌≤ℤ◌, List, ℕ, ℤ, filter, length, map, slice_get, None, pos, Some, true};
ghost use Rattle.std.specs.List.{All, range_with_len};
ghost use Rattle.customer_sets.specs.CustSet.{has, IsCustomerSet};
ghost use Rattle.customer_sets.specs.Pairs.{any_pair};
ghost use Rattle.ev_model.specs.Feasible.{IsFeasible};
ghost use Rattle.ev_model.specs.Fleet.{cost_of, customers_of, IsFleetPlan, ServesOnly, times_in};
ghost use Rattle.ev_model.specs.Network.{is_customer, IsNetwork, Network, node_count};
ghost use Rattle.ev_model.specs.Time.{time_of};
ghost use Rattle.ev_model.specs.declared.Stop.{Stop};
ghost use Rattle.fleet_model.specs.ClosedList.{IsClosed};
ghost use Rattle.fleet_model.specs.ClosedListRules.{ClosedFault, IsFault};
ghost use Rattle.fleet_model.specs.Cover.{cost_of_shares, CoverKeepsPairs, IsExactRoot, IsFractionalCover, Share};
ghost use Rattle.fleet_model.specs.Coverage.{IsAsGood, IsCovered};
ghost use Rattle.fleet_model.specs.Equations.{total};
ghost use Rattle.fleet_model.specs.Labels.{Label, State};
ghost use Rattle.fleet_model.specs.Margins.{Covers, CoversBy, HasNoMargin, IsMargin};
ghost use Rattle.fleet_model.specs.Pairs.{FleetKeepsPairs, PlanKeepsPairs};
ghost use Rattle.fleet_model.specs.Places.{customer_count, customer_number, numbers_of};
ghost use Rattle.fleet_model.specs.PricedLabels.{ArePriced, IsClosedByPrices, IsCoveredByPrices};
ghost use Rattle.fleet_model.specs.Prices.{price_sum, priced, price_total};
ghost use Rattle.fleet_model.specs.Section.{IsAtMostBound, IsSectionOf, Section, ShowsNoPlan};
ghost use Rattle.fleet_model.specs.Tree.{BranchTree, IsBranchTree, KeepsSomeLeaf, LeavesAreUnder};
ghost use Rattle.fleet_model.specs.Whole.{NoFractionIsFaster};

/// Along a closed list every feasible whole plan from full that keeps the pairs and serves no
/// customer twice takes at least as long, times the weight, as the prices of its customers ask.
pub fn a_plan_pays_its_prices()
    ensures { (g : Network) (s : Section) (plan : List Stop) → IsNetwork g → IsSectionOf g s →
        IsClosed g s →
        IsFeasible g 1 g.capacity plan → ServesOnly g plan → PlanKeepsPairs g s.allows plan →
        ((node : ℕ) → is_customer g node ≡ true → times_in (customers_of g plan) node ≤ 1) →
        price_sum s.prices (numbers_of g plan) ≤ℤ pos (s.weight * time_of g 1 g.capacity plan) }
{}

/// A fleet plan that keeps the pairs of a section costs at least each number that is at most its
/// bound: a whole one, and, where no fraction is faster, one in any fraction of a unit.
pub fn a_fleet_costs_the_bound()
    ensures whole { (g : Network) (s : Section) (plans : List (List Stop)) (bound : ℕ) →
        IsNetwork g → IsSectionOf g s → IsClosed g s → IsFleetPlan g 1 plans →
        FleetKeepsPairs g s.allows plans →
        IsAtMostBound s bound → bound ≤ cost_of g 1 plans }
    ensures fraction { (g : Network) (s : Section) (k : ℕ) (plans : List (List Stop)) (bound : ℕ) →
        IsNetwork g → NoFractionIsFaster g → IsSectionOf g s → IsClosed g s →
        IsFleetPlan g k plans → FleetKeepsPairs g s.allows plans →
        IsAtMostBound s bound → k * bound ≤ cost_of g k plans }
{}

/// Where the weight is 0 and the price sum is above 0, no fleet plan keeps the pairs of a section:
/// no whole one, and, where no fraction is faster, none in any fraction of a unit.
pub fn no_fleet_keeps_the_pairs()
    ensures whole { (g : Network) (s : Section) (plans : List (List Stop)) →
        IsNetwork g → IsSectionOf g s → IsClosed g s → IsFleetPlan g 1 plans →
        FleetKeepsPairs g s.allows plans →
        ShowsNoPlan s → ⊥ }
    ensures fraction { (g : Network) (s : Section) (k : ℕ) (plans : List (List Stop)) →
        IsNetwork g → NoFractionIsFaster g → IsSectionOf g s → IsClosed g s →
        IsFleetPlan g k plans → FleetKeepsPairs g s.allows plans → ShowsNoPlan s → ⊥ }
{}

/// Every fleet plan, in any fraction of a unit, keeps all pairs that are forbidden on the way to
/// some leaf of a tree of splits.
pub fn a_fleet_keeps_some_leaf()
    ensures { (g : Network) (t : BranchTree) (k : ℕ) (plans : List (List Stop)) →
        IsBranchTree g t → IsFleetPlan g k plans → KeepsSomeLeaf g any_pair t plans }
{}

/// Where each leaf of a tree names a closed section that holds under the leaf, each fleet plan
/// costs at least a bound that is at most the bounds of all these sections; and where each of these
/// sections shows that there is no plan, there is none. Both in any fraction of a unit, where no
/// fraction is faster.
pub fn a_fleet_costs_the_bound_of_a_tree()
    ensures bound { (g : Network) (sections : List Section) (t : BranchTree) (k bound : ℕ)
        (plans : List (List Stop)) →
        IsNetwork g → NoFractionIsFaster g → All (IsSectionOf g) sections →
        All (IsClosed g) sections →
        IsBranchTree g t → LeavesAreUnder sections (Some bound) any_pair t →
        IsFleetPlan g k plans → k * bound ≤ cost_of g k plans }
    ensures none { (g : Network) (sections : List Section) (t : BranchTree) (k : ℕ)
        (plans : List (List Stop)) →
        IsNetwork g → NoFractionIsFaster g → All (IsSectionOf g) sections →
        All (IsClosed g) sections →
        IsBranchTree g t → LeavesAreUnder sections None any_pair t →
        IsFleetPlan g k plans → ⊥ }
{}

/// No fractional cover that keeps the pairs of a section costs less than the price sum over the
/// section's weight, in any fraction of a unit, where no fraction is faster: the cost of the cover
/// is the sum of share times time, over `k` and the weight of the cover.
pub fn no_cover_costs_less()
    ensures { (g : Network) (s : Section) (k weight : ℕ) (shares : List Share) →
        IsNetwork g → NoFractionIsFaster g → IsSectionOf g s → IsClosed g s →
        IsFractionalCover g k weight shares → CoverKeepsPairs g s.allows shares →
        (pos (k * weight) *ℤ price_total s.prices) ≤ℤ pos (s.weight * cost_of_shares g k shares) }
{}

/// Labels whose paid sums are the price sums of their sets: a state whose paid sum is that of its
/// set is covered exactly where it is by price sums of sets, and the list is closed exactly where
/// it is by these.
pub fn paid_sums_may_be_price_sums()
    ensures covered { (s : Section) (b : State) → ArePriced s →
        b.paid ≡ price_sum s.prices b.served →
        IsCovered s b ↔ IsCoveredByPrices s b }
    ensures closed { (g : Network) (s : Section) → ArePriced s →
        IsClosed g s ↔ IsClosedByPrices g s }
    ensures priced { (s : Section) (labels : List Label) →
        s.labels ≡ map (priced s.prices) labels → ArePriced s }
{}

/// Where the weight of a section is above 0, its bound is the price sum over the weight, rounded
/// up: the least whole number that, times the weight, is no less than the price sum.
pub fn the_bound_rounds_up()
    ensures { (s : Section) (bound : ℕ) → 0 < s.weight →
        IsAtMostBound s bound ↔ ((z : ℤ) → price_total s.prices ≤ℤ (z *ℤ pos s.weight) →
        pos bound ≤ℤ z) }
{}

/// The shares of an exact root are a fractional cover of least cost, in any fraction of a unit,
/// where no fraction is faster: among the covers that keep the section's pairs, and among all where
/// no pair is forbidden.
pub fn an_exact_root_is_the_least_cover()
    ensures pairs { (g : Network) (s : Section) (over k weight : ℕ) (shares others : List Share) →
        IsNetwork g → NoFractionIsFaster g → IsSectionOf g s → IsClosed g s →
        IsExactRoot g s over shares →
        IsFractionalCover g k weight others → CoverKeepsPairs g s.allows others →
        cost_of_shares g 1 shares * (k * weight) ≤ cost_of_shares g k others * over }
    ensures all { (g : Network) (s : Section) (over k weight : ℕ) (shares others : List Share) →
        IsNetwork g → NoFractionIsFaster g → IsSectionOf g s → IsClosed g s →
        IsExactRoot g s over shares →
        ((a b : ℕ) → s.allows a b ≡ true) → IsFractionalCover g k weight others →
        cost_of_shares g 1 shares * (k * weight) ≤ cost_of_shares g k others * over }
{}

/// A list of labels is closed exactly where none of the rules is broken, of which the first broken
/// one is told.
pub fn closed_where_no_rule_is_broken()
    ensures { (g : Network) (s : Section) →
        IsClosed g s ↔ ((fault : ClosedFault) → IsFault g s fault → ⊥) }
{}

/// A label covers a state exactly where it reaches the state's level, or a higher one, at a time
/// that is earlier by the least margin that makes up for what it has paid less; where none does, it
/// covers no such state.
pub fn a_label_covers_by_a_margin()
    ensures margin { (weight margin : ℕ) (l : Label) (b : State) →
        IsMargin weight l.paid b.paid margin →
        Covers weight l b ↔ CoversBy margin l b }
    ensures none { (weight : ℕ) (l : Label) (b : State) → HasNoMargin weight l.paid b.paid →
        Covers weight l b → ⊥ }
{}

/// What covers a state covers each state that it is as good as.
pub fn a_worse_state_is_covered()
    ensures { (s : Section) (a b : State) → IsCovered s a → IsAsGood s.weight a b → IsCovered s b }
{}

/// The customers' nodes in rising order: there are as many as the count says, and the one at a
/// place has that number.
pub fn customers_are_numbered()
    ensures count { (g : Network) →
        length (filter (is_customer g) (range_with_len 0 (node_count g))) ≡ customer_count g }
    ensures number { (g : Network) (number node : ℕ) →
        slice_get (filter (is_customer g) (range_with_len 0 (node_count g))) number ≡ Some node →
        number ≡ customer_number g node }
{}

/// The price sum of a set of customers is the sum of the prices of the customers that are in it.
pub fn a_price_sum_is_a_total()
    ensures { (prices : List ℤ) (set : List ℕ) → IsCustomerSet set →
        price_sum prices set ≡ total (has set) prices }
{}
