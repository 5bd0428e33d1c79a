// Plans: what a plan and a step are, and why a step is right. Each function's contract is a theorem, for every kind of cost.
#![tactic(auto)]

ghost use Rattle.plans.specs.Samples.{StepsOfTheSample};
ghost use Rattle.plans.specs.Theorems.{BestPlanExists, AStepLeadsOn, CellsAreLeast, ClimbingLeadsThere, PlansInterlace, TotalsAreConvex, FurtherEnds, StepsKeepTheirShape, StepsReadLittle};

use costs::Kind;

// The earliest best plan of a number of cuts and an end exists, and is the only one.
pub fn best_plan_exists<V: Kind>()
    ensures { BestPlanExists V.Kind.costs }
{}

// A step from an earliest best plan leaves the earliest best plan with one cut more, and its total.
pub fn a_step_leads_on<V: Kind>()
    ensures { AStepLeadsOn V.Kind.costs }
{}

// The cells of such a step are totals of earliest best plans.
pub fn cells_are_least<V: Kind>()
    ensures { CellsAreLeast V.Kind.costs }
{}

// Stepping up from no cuts leaves the earliest best plan with that many, and its total, whatever cells were lent.
pub fn climbing_leads_there<V: Kind>()
    ensures { ClimbingLeadsThere V.Kind.costs }
{}

// At one end, the earliest best plan interlaces with that of one cut more.
pub fn plans_interlace<V: Kind>()
    ensures { PlansInterlace V.Kind.costs }
{}

// At one end, a further cut saves no more than the cut before it.
pub fn totals_are_convex<V: Kind>()
    ensures { TotalsAreConvex V.Kind.costs }
{}

// With as many cuts, a further end moves no cut earlier.
pub fn further_ends<V: Kind>()
    ensures { FurtherEnds V.Kind.costs }
{}

// Whatever the costs are, a step from a plan leaves a plan with one cut more, and a cell for each place up to the end and each new cut.
pub fn steps_keep_their_shape<V: Kind>()
    ensures { StepsKeepTheirShape V.Kind.costs }
{}

// A step to n cuts at the end e reads at most 2 * (e + n) + e * (1 + L) costs, L the largest number with 2 ^ L at most e + 1.
pub fn steps_read_little<V: Kind>()
    ensures { StepsReadLittle V.Kind.costs }
{}

// The steps of a small scale, computed from the definition.
pub fn steps_of_the_sample()
    ensures { StepsOfTheSample }
{}
