// A job over a source: shut at first, and once it is open it holds a plan.
ghost use Rattle.std.specs.Prelude.{◌≤◌};
ghost use Rattle.std.specs.Option.{ForSome};

use crate::plan::Plan;
use sources::Source;
use steps::Cuts;

mod acting;
mod looking;
mod opening;
mod planning;
mod running;

// The furthest end of a job.
const LONGEST: u32 = 4096;

// A source, and the plan of an open job over it.
#[derive(Drop)]
pub struct Job<S: Source> {
    source: S,
    plan: Option<Plan<S::Kind>>,
    ghost within: { ForSome plan (λ p. p.end ≤ S.Source.last source) },
}

impl<S: Source> Job<S> {
    ghost use Rattle.std.specs.Prelude.{◌≡◌, min, []};
    ghost use Rattle.plans.specs.Limits.{longest};
    ghost use Rattle.plans.specs.Plans.{Plan as IsPlan};
    ghost use Rattle.calls.specs.Calls.{shut, opened};
    ghost use Rattle.jobs.specs.Jobs.{state_of, plan_of, held_in};

    // A shut job over the source.
    pub fn new(source: S) -> Job<S>
        ensures state { state_of S.Kind.Kind result ≡ shut }
        ensures blank { plan_of S.Kind.Kind result ≡ record { end = 0; cuts = []; total = S.Kind.Kind.costs.nil } }
        ensures source { result.source ≡ source }
    {
        Job { source, plan: None }
    }

    // Holds the plan, and so is open.
    fn hold(&mut self, plan: Plan<S::Kind>)
        requires { plan.end ≤ S.Source.last self.old.source }
        ensures source { self.new.source ≡ self.old.source }
        ensures state { state_of S.Kind.Kind self.new ≡ opened (held_in S.Kind.Kind plan) }
    {
        self.plan = Some(plan);
    }
}
