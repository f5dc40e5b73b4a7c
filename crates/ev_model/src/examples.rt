//! The worked examples, computed from the definitions by the checker. Each is the contract of an
//! empty function.

ghost use Rattle.std.specs.Prelude.{◌≡◌, ◌∷◌, []};
ghost use Rattle.ev_model.specs.Examples.LeastLevels.{over_depot, with_depot_station, with_home_level, with_reserve};
ghost use Rattle.ev_model.specs.Examples.NoStation.{no_station as network_without_station, there_and_back};
ghost use Rattle.ev_model.specs.Examples.OneStation.{charging_after, charging_before, charging_customer, inserted_customer, one_station as network, one_station_within, station_twice, without_charging};
ghost use Rattle.ev_model.specs.Examples.PluggingIn.{halves_down, halves_up, over_halves, plugging_in};
ghost use Rattle.ev_model.specs.Examples.TwoCustomers.{apart, together, twice, two_customers as customers, unserved};
ghost use Rattle.ev_model.specs.Examples.TwoStations.{over_both, two_stations as stations};
ghost use Rattle.ev_model.specs.Feasible.{IsFeasible};
ghost use Rattle.ev_model.specs.Fleet.{cost_of, IsFleetPlan};
ghost use Rattle.ev_model.specs.Levels.{levels_of};
ghost use Rattle.ev_model.specs.Network.{IsNetwork};
ghost use Rattle.ev_model.specs.Route.{FollowsRoute, IsRoute};
ghost use Rattle.ev_model.specs.Time.{time_of};

/// One station: charging one unit before the customer takes 43 halves, charging three units after
/// it 45. Three halves of a unit before the customer take 92 halves of halves.
pub fn one_station()
    ensures network { IsNetwork network }
    ensures route { IsRoute network (0 ∷ 1 ∷ 0 ∷ []) }
    ensures before { time_of network 1 10 (charging_before 1) ≡ 43 }
    ensures before_levels { levels_of network 1 10 (charging_before 1) ≡ 10 ∷ 8 ∷ 6 ∷ 0 ∷ [] }
    ensures before_route { FollowsRoute (0 ∷ 1 ∷ 0 ∷ []) (charging_before 1) }
    ensures before_feasible { IsFeasible network 1 10 (charging_before 1) }
    ensures after { time_of network 1 10 (charging_after 3) ≡ 45 }
    ensures after_feasible { IsFeasible network 1 10 (charging_after 3) }
    ensures halves { time_of network 2 10 (charging_before 3) ≡ 92 }
    ensures halves_feasible { IsFeasible network 2 10 (charging_before 3) }
{}

/// Plans that are not feasible, one for each reason.
pub fn infeasible_plans()
    ensures empty_on_an_arc { IsFeasible network 1 10 without_charging → ⊥ }
    ensures above_full { IsFeasible network 1 10 (charging_before 4) → ⊥ }
    ensures past_the_limit { IsFeasible (one_station_within 21) 1 10 (charging_before 1) → ⊥ }
    ensures within_the_limit { IsFeasible (one_station_within 22) 1 10 (charging_before 1) }
    ensures neighbours_equal { IsFeasible network 1 10 station_twice → ⊥ }
    ensures inserted_without_station { IsFeasible network 1 10 inserted_customer → ⊥ }
    ensures charging_without_station { IsFeasible network 1 10 charging_customer → ⊥ }
{}

/// Two stations on each way: 110 halves.
pub fn two_stations()
    ensures network { IsNetwork stations }
    ensures time { time_of stations 1 10 over_both ≡ 110 }
    ensures route { FollowsRoute (0 ∷ 1 ∷ 0 ∷ []) over_both }
    ensures feasible { IsFeasible stations 1 10 over_both }
{}

/// No station and no curve, so the denominator is 1: the route takes 8.
pub fn no_station()
    ensures network { IsNetwork network_without_station }
    ensures time { time_of network_without_station 1 10 there_and_back ≡ 8 }
    ensures feasible { IsFeasible network_without_station 1 10 there_and_back }
{}

/// Two customers: one vehicle for both costs 13, one for each 16. A fleet plan serves each customer
/// once.
pub fn two_customers()
    ensures together { IsFleetPlan customers 1 together }
    ensures together_cost { cost_of customers 1 together ≡ 13 }
    ensures apart { IsFleetPlan customers 1 apart }
    ensures apart_cost { cost_of customers 1 apart ≡ 16 }
    ensures served_twice { IsFleetPlan customers 1 twice → ⊥ }
    ensures not_served { IsFleetPlan customers 1 unserved → ⊥ }
{}

/// Plugging in takes a unit of time, two halves: it is paid at each stop where something is
/// charged, and not where a vehicle passes through. In halves of a unit, charging a half and later
/// three halves takes 100 halves of halves; the two plans in whole units that it rounds to take 48
/// and 50, since the first passes through once.
pub fn plugging_in_takes_time()
    ensures network { IsNetwork plugging_in }
    ensures paid_once { time_of plugging_in 1 10 (charging_before 1) ≡ 45 }
    ensures halves { time_of plugging_in 2 10 over_halves ≡ 100 }
    ensures halves_feasible { IsFeasible plugging_in 2 10 over_halves }
    ensures down { time_of plugging_in 1 10 halves_down ≡ 48 }
    ensures up { time_of plugging_in 1 10 halves_up ≡ 50 }
{}

/// With a reserve of 1 the vehicle that charged one unit before the customer comes home below the
/// reserve, and the one that charges four units after it takes 46 halves. With a level at home of 5
/// it has to charge eight units, which takes 60. An arrival at the depot in the middle of the
/// route, empty, is no arrival at home.
pub fn least_levels()
    ensures reserve { IsNetwork (with_reserve 1) }
    ensures below_the_reserve { IsFeasible (with_reserve 1) 1 10 (charging_before 1) → ⊥ }
    ensures at_the_reserve { IsFeasible (with_reserve 1) 1 10 (charging_after 4) }
    ensures at_the_reserve_time { time_of (with_reserve 1) 1 10 (charging_after 4) ≡ 46 }
    ensures home_level { IsNetwork (with_home_level 5) }
    ensures below_at_home { IsFeasible (with_home_level 5) 1 10 (charging_after 7) → ⊥ }
    ensures enough_at_home { IsFeasible (with_home_level 5) 1 10 (charging_after 8) }
    ensures enough_at_home_time { time_of (with_home_level 5) 1 10 (charging_after 8) ≡ 60 }
    ensures never_enough { IsFeasible (with_home_level 6) 1 10 (charging_after 8) → ⊥ }
    ensures empty_on_the_way { IsFeasible (with_depot_station 5) 1 10 over_depot }
{}
