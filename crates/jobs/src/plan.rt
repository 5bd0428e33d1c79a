// The plan that an open job holds.
ghost use Rattle.std.specs.Prelude.{◌≤◌, length};
ghost use Rattle.plans.specs.Limits.{longest, most_cuts};
ghost use Rattle.plans.specs.Plans.{Plan as IsPlan};
ghost use Rattle.steps.specs.PlanProofs.{plan_prop};

use crate::record::Moment;
use calls::View;
use costs::Kind;
use steps::Cuts;

// The end, the cuts and their total, with what is true of them in every job.
#[derive(Drop)]
pub struct Plan<K> {
    pub end: u32,
    pub cuts: Cuts,
    pub total: K,
    ghost short: { end ≤ longest },
    ghost few: { length cuts ≤ most_cuts },
    ghost planned: { IsPlan 0 cuts end } by { plan_prop 0 cuts end },
}

impl<K: Kind> Plan<K> {
    ghost use Rattle.std.specs.Prelude.{◌≡◌, Some};
    ghost use Rattle.calls.specs.Calls.{looked, opened};
    ghost use Rattle.jobs.specs.Jobs.{held_in, view_of, moment_of};

    // The end, the number of cuts and the total, and the `k`-th cut, counted from 1.
    pub fn view(&self, k: u32) -> View<K>
        ensures { view_of K.Kind result ≡ looked (held_in K.Kind self.now) k }
    {
        View {
            end: self.end,
            count: self.cuts.count(),
            total: self.total,
            cut: self.cuts.nth(k),
        }
    }

    pub fn moment(&self) -> Moment<K>
        ensures { moment_of K.Kind (Some result) ≡ opened (held_in K.Kind self.now) }
    {
        Moment {
            end: self.end,
            cuts: self.cuts,
            total: self.total,
        }
    }
}
