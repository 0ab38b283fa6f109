ghost use Rattle.model.specs.Plans.{PlanAccepted, PlanShortest, PlanLowest, PathsExact, LanesExact};

// A plan is accepted with the lane count that it was made for.
pub fn plan_accepted()
    ensures { PlanAccepted }
{}

// No path is shorter than a route of a plan made without a given table.
pub fn plan_shortest()
    ensures { PlanShortest }
{}

// Each pair of a plan lies in the lowest lane in which no cycle closes with the pairs filed before it.
pub fn plan_lowest()
    ensures { PlanLowest }
{}

// Refusal 9 comes exactly when some pair has no path, and names the first such pair.
pub fn paths_exact()
    ensures { PathsExact }
{}

// Refusal 10 comes only where a pair fits no lane after the pairs before it.
pub fn lanes_exact()
    ensures { LanesExact }
{}
