//! Laws of the word of a route, of the texts of plans and of the walk along a plan. Each is the
//! contract of an empty function.

ghost use Rattle.std.specs.Prelude.{◌≡◌, ◌↔◌, ◌<◌, ◌≤◌, List, ℕ, Err, None, Ok, Option, length, take};
ghost use Rattle.ev_model.specs.Feasible.{IsFeasible};
ghost use Rattle.ev_model.specs.Network.{Network, node_count};
ghost use Rattle.ev_model.specs.Route.{IsRoute};
ghost use Rattle.ev_model.specs.Time.{time_of};
ghost use Rattle.ev_model.specs.declared.Stop.{Stop};
ghost use Rattle.route_plan.specs.Limits.{most_route_nodes};
ghost use Rattle.route_plan.specs.RouteRules.{route_fault};
ghost use Rattle.route_plan.specs.RouteWords.{BeginsRouteWord, SpellsRoute, nodes_in};
ghost use Rattle.route_plan.specs.Walking.{end_level, walk_along};
ghost use Rattle.route_plan.specs.declared.route.RouteFault.{RouteFault};
ghost use Rattle.route_plan.specs.declared.route.RouteFault.TheVariants.{Text};
ghost use Rattle.route_plan.specs.declared.walks.Walk.{Walk};

/// A word is read as nodes exactly where it spells them: decimal numbers joined by single commas.
pub fn words_spell_routes()
    ensures { (word nodes : List ℕ) → (nodes_in word ≡ Ok nodes) ↔ SpellsRoute word nodes }
{}

/// The fault of the text of a route's word is the first from the left: what stands before its place
/// can be continued to a route's word, and, unless the place is the end of the word, what follows
/// cannot mend it. Reading the nodes of a word has no other fault.
pub fn route_word_faults_are_first()
    ensures first { (word : List ℕ) (at : ℕ) → nodes_in word ≡ Err (Text at)
        → (at ≤ length word) × BeginsRouteWord (take at word) × (at < length word →
        BeginsRouteWord word → ⊥) }
    ensures only { (word : List ℕ) (fault : RouteFault) → nodes_in word ≡ Err fault →
        (at : ℕ) × (fault ≡ Text at) }
{}

/// Nodes break no rule exactly where they are a route of the network, of at most 400 nodes.
pub fn unbroken_nodes_are_routes()
    ensures { (g : Network) (nodes : List ℕ) → (route_fault (node_count g) nodes ≡ None) ↔
        (IsRoute g nodes × (length nodes ≤ most_route_nodes)) }
{}

/// A whole plan is walked to its end exactly where it is feasible, and the walk tells its time and
/// its last level.
pub fn feasible_plans_are_walked()
    ensures { (g : Network) (start : ℕ) (stops : List Stop) (w : Walk) →
        (walk_along g start stops ≡ Ok w)
        ↔ (IsFeasible g 1 start stops × (w.time ≡ time_of g 1 start stops)
        × (w.last ≡ end_level g start stops)) }
{}
