// A look at a job.
ghost use Rattle.std.specs.Prelude.{◌≡◌, ℕ, List};
ghost use Rattle.calls.specs.declared.call.Call.TheVariants.{Look};
ghost use Rattle.jobs.specs.Jobs.{Did, state_of, looking, moment_of};

use crate::job::Job;
use crate::plan::Plan;
use crate::record::Moment;
use calls::View;
use sources::Source;

impl<S: Source> Job<S> {
    // The end, the number of cuts and the total, and the `k`-th cut, counted from 1; nothing of a shut job.
    pub fn look(&self, k: u32) -> Option<View<S::Kind>>
        ensures { (bound : ℕ) (cells : List S.Kind) → Did S.Kind.Kind S.Source bound (Look k) self.now self.now cells cells (looking S.Kind.Kind result) }
    {
        self.plan.as_ref().map(|plan| plan.view(k))
    }

    // The plan, where the job is open.
    pub(super) fn moment(&self) -> Option<Moment<S::Kind>>
        ensures { moment_of S.Kind.Kind result ≡ state_of S.Kind.Kind self.now }
    {
        self.plan.as_ref().map(Plan::moment)
    }
}
