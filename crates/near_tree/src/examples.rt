//! Worked trees, computed by the checker. Each is the contract of an empty function.

ghost use Rattle.std.specs.Prelude.{◌≡◌, [], None, Some, pos};
ghost use Rattle.near_tree.specs.Bounds.{IsAccepted, IsBounded, leaf_sum};
ghost use Rattle.near_tree.specs.Branches.{whole};
ghost use Rattle.near_tree.specs.Closed.{AreClosedAt};
ghost use Rattle.near_tree.specs.Examples.DepotStation.{both, depot_station};
ghost use Rattle.near_tree.specs.Examples.OutOfReach.{out_of_reach, priced_at};
ghost use Rattle.near_tree.specs.Examples.Shortcut.{apart, by_pair, shortcut, when_apart};
ghost use Rattle.near_tree.specs.Examples.ThreeCustomers.{by_routes, far_apart, three_customers, two_routes, up_to_two};
ghost use Rattle.near_tree.specs.Follows.{StandsFor};
ghost use Rattle.near_tree.specs.Sections.{after, anybody};
ghost use Rattle.near_tree.specs.Trees.{IsTreeAt, leaf};

/// Three customers, each on a route of 20, or two on one of 50: three routes are best, and by two
/// routes at most it costs no less than 70. There an entry price of -10 stands beside prices of 30,
/// and counts twice, as often as there may be routes.
pub fn an_entry_price_may_be_below_0()
    ensures tree { IsTreeAt (three_customers 30) whole far_apart }
    ensures bound { IsAccepted (three_customers 30) (Some 60) far_apart }
    ensures no_more { IsAccepted (three_customers 30) (Some 61) far_apart → ⊥ }
    ensures two_routes { leaf_sum up_to_two two_routes ≡ pos 70 }
{}

/// Three customers, each on a route of 20, or two on one of 30: a plan has two routes at least, and
/// costs 50, where prices alone, without a tree, show no more than 45. By one route there is no
/// plan: at the weight 0 the prices and the entry price have the sum 1. A customer from whom no way
/// leads back has no plan at all; a sum of 0 shows nothing.
pub fn a_leaf_of_weight_0_shows_that_no_plan_goes_there()
    ensures tree { IsTreeAt (three_customers 10) whole by_routes }
    ensures bound { IsAccepted (three_customers 10) (Some 50) by_routes }
    ensures no_more { IsAccepted (three_customers 10) (Some 51) by_routes → ⊥ }
    ensures none_tree { IsTreeAt out_of_reach whole (leaf (priced_at (pos 1))) }
    ensures none { IsAccepted out_of_reach None (leaf (priced_at (pos 1))) }
    ensures zero { IsAccepted out_of_reach None (leaf (priced_at (pos 0))) → ⊥ }
    ensures zero_bound { IsAccepted out_of_reach (Some 0) (leaf (priced_at (pos 0))) → ⊥ }
{}

/// Two customers, from each of whom the way home leads over the same station: one label stands
/// there for those who come from the first, from the second, and before any customer, where the
/// second may not follow the first and where he has to. The first wouldn't stand for the second,
/// since after the second he himself may come next, if he was forgotten.
pub fn anybody_stands_in_at_a_station()
    ensures tree { IsTreeAt shortcut whole by_pair }
    ensures bound { IsAccepted shortcut (Some 16) by_pair }
    ensures no_more { IsAccepted shortcut (Some 17) by_pair → ⊥ }
    ensures himself { StandsFor shortcut when_apart apart (after 1) (after 2) → ⊥ }
{}

/// Where the depot is a station, a vehicle may come there between two customers. One label after
/// anybody covers it, and the start as well. One before any customer covers the start alone: home
/// may come next after the customer, and not before any.
pub fn the_depot_may_be_a_station()
    ensures tree { IsTreeAt depot_station whole (leaf (both anybody)) }
    ensures bound { IsAccepted depot_station (Some 8) (leaf (both anybody)) }
    ensures no_more { IsAccepted depot_station (Some 9) (leaf (both anybody)) → ⊥ }
    ensures start_alone { AreClosedAt depot_station whole (both (after 0)) → ⊥ }
{}
