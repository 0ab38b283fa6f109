ghost use Rattle.model.specs.Laws.{VerdictExact, VerdictSays, CyclicLowest, OrderExact, AcceptedOrdered, CycleExact, RouteOnce, RouteOnward, HoldExact, HopsExact};

// The verdict is yes exactly when the setup is accepted.
pub fn verdict_exact()
    ensures { VerdictExact }
{}

// What each verdict says.
pub fn verdict_says()
    ensures { VerdictSays }
{}

// A cycle verdict names the lowest lane with a cycle.
pub fn cyclic_lowest()
    ensures { CyclicLowest }
{}

// A completed order holds every channel once, and no dependency runs backward in it.
pub fn order_exact()
    ensures { OrderExact }
{}

// On an accepted setup the order of every lane is complete.
pub fn accepted_ordered()
    ensures { AcceptedOrdered }
{}

// There is a cycle exactly when the order cannot be completed.
pub fn cycle_exact()
    ensures { CycleExact }
{}

// On an accepted setup a route comes to no switch twice and takes no channel twice.
pub fn route_once()
    ensures { RouteOnce }
{}

// On an accepted setup a route never returns to the switch it just came from.
pub fn route_onward()
    ensures { RouteOnward }
{}

// On an accepted setup the hold is the largest of 1 and the turn costs of the dependencies.
pub fn hold_exact()
    ensures { HoldExact }
{}

// The planner's hop count is the fewest channels of a walk, or none.
pub fn hops_exact()
    ensures { HopsExact }
{}
