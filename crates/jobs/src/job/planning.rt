// The calls that plan: one step on, or up from no cuts. Each checks for itself, and one that is refused changes nothing.
ghost use Rattle.std.specs.Prelude.{◌≡◌, ℕ, ◌+◌, ◌<◌, ◌≤◌, min, IsSome, MatchResult};
ghost use Rattle.plans.specs.Limits.{longest, most_cuts};
ghost use Rattle.calls.specs.declared.call.Call.{Call};
ghost use Rattle.calls.specs.declared.call.Call.TheVariants.{Add, Drop, Reach};
ghost use Rattle.calls.specs.declared.refusal.Refusal.TheVariants.{TooFewCells};
ghost use Rattle.jobs.specs.Jobs.{Did, IsClimb, counting};

use crate::job::{Job, LONGEST};
use crate::plan::Plan;
use calls::Refusal;
use sources::Source;
use steps::{climb, step};

// The most cuts that a job can have.
const MOST_CUTS: u32 = 255;

impl<S: Source> Job<S> {
    // One cut more, by one step. Returns the number of costs read.
    pub fn add_cut(&mut self, cells: &mut [S::Kind]) -> Result<u64, Refusal>
        ensures { (bound : ℕ) → Did S.Kind.Kind S.Source bound Add self.old self.new cells.old cells.new (counting S.Kind.Kind result) }
    {
        let plan = self.plan.as_ref().ok_or(Refusal::NotOpen)?;
        let count = plan.cuts.count();
        if count >= MOST_CUTS {
            return Err(Refusal::Full);
        }
        let end = plan.end;
        check_cells(end, count + 1, cells.len())?;
        let stepped = step(&self.source, &plan.cuts, end, cells);
        self.hold(Plan {
            end,
            cuts: stepped.cuts,
            total: stepped.total,
        });
        Ok(stepped.reads)
    }

    // One cut fewer, up from no cuts. Returns the number of costs read.
    pub fn drop_cut(&mut self, cells: &mut [S::Kind]) -> Result<u64, Refusal>
        ensures { (bound : ℕ) → Did S.Kind.Kind S.Source bound Drop self.old self.new cells.old cells.new (counting S.Kind.Kind result) }
    {
        let plan = self.plan.as_ref().ok_or(Refusal::NotOpen)?;
        let fewer = plan.cuts.count().checked_sub(1).ok_or(Refusal::NoCut)?;
        let end = plan.end;
        self.climb_to(end, fewer, cells)
    }

    // As many cuts at another end, up from no cuts. Returns the number of costs read.
    pub fn reach(&mut self, end: u32, cells: &mut [S::Kind]) -> Result<u64, Refusal>
        ensures { (bound : ℕ) → Did S.Kind.Kind S.Source bound (Reach end) self.old self.new cells.old cells.new (counting S.Kind.Kind result) }
    {
        let plan = self.plan.as_ref().ok_or(Refusal::NotOpen)?;
        let count = plan.cuts.count();
        if end > self.source.end().min(LONGEST) {
            return Err(Refusal::Beyond);
        }
        self.climb_to(end, count, cells)
    }

    // Steps up from no cuts to `count` cuts at the end.
    fn climb_to(&mut self, end: u32, count: u32, cells: &mut [S::Kind]) -> Result<u64, Refusal>
        requires { IsSome self.old.plan × (end ≤ min (S.Source.last self.old.source) longest) × (count ≤ most_cuts) }
        ensures { (bound : ℕ) (call : Call) → IsClimb S.Kind.Kind S.Source bound call self.old end count cells.old → Did S.Kind.Kind S.Source bound call self.old self.new cells.old cells.new (counting S.Kind.Kind result) }
    {
        check_cells(end, count, cells.len())?;
        let climbed = climb(&self.source, end, count, cells);
        self.hold(Plan {
            end,
            cuts: climbed.cuts,
            total: climbed.total,
        });
        Ok(climbed.reads)
    }
}

// Refuses fewer cells than a plan with `count` cuts at the end needs.
fn check_cells(end: u32, count: u32, cells: usize) -> Result<(), Refusal>
    requires { (end ≤ longest) × (count ≤ most_cuts) }
    ensures { MatchResult result (λ _. end + count ≤ cells) (λ why. (why ≡ TooFewCells) × (cells < end + count)) }
{
    if (end + count) as usize > cells {
        return Err(Refusal::TooFewCells);
    }
    Ok(())
}
