// The openings of a job. One that is refused changes nothing.
ghost use Rattle.std.specs.Prelude.{◌≡◌, ℕ, ◌≤◌, List, [], MatchResult};
ghost use Rattle.plans.specs.Limits.{longest};
ghost use Rattle.sources.specs.Meant.{meant};
ghost use Rattle.calls.specs.Calls.{shut, opened};
ghost use Rattle.calls.specs.Openings.{Tells};
ghost use Rattle.calls.specs.declared.call.Call.TheVariants.{OpenChecked, OpenVouched};
ghost use Rattle.jobs.specs.Jobs.{Did, state_of, opening, NotOpenable};

use crate::job::{Job, LONGEST};
use crate::plan::Plan;
use calls::Refusal;
use costs::LARGEST;
use sources::{Source, Vouching, first_broken_square, first_too_large};
use steps::Cuts;

impl<S: Source> Job<S> {
    // Opens the job after a look at every cost and every square.
    pub fn open_checked(&mut self) -> Result<(), Refusal>
        ensures tells { Tells S.Kind.Kind.costs (meant S.Kind.Kind S.Source self.old.source) (opening S.Kind.Kind result) }
        ensures did { (bound : ℕ) (cells : List S.Kind) → Did S.Kind.Kind S.Source bound OpenChecked self.old self.new cells cells (opening S.Kind.Kind result) }
    {
        let end = self.end_to_open()?;
        if let Some(class) = first_too_large(&self.source) {
            return Err(Refusal::TooLarge(class));
        }
        if let Some(square) = first_broken_square(&self.source) {
            return Err(Refusal::Broken(square));
        }
        self.open(end);
        Ok(())
    }

    // Opens the job on the word of a source that vouches for the bound.
    pub(super) fn open_under(&mut self, bound: u64) -> Result<(), Refusal>
        ensures { (cells : List S.Kind) → Did S.Kind.Kind S.Source bound OpenVouched self.old self.new cells cells (opening S.Kind.Kind result) }
    {
        let end = self.end_to_open()?;
        if bound > LARGEST {
            return Err(Refusal::BoundTooLarge);
        }
        self.open(end);
        Ok(())
    }

    // The end of the plan with which a shut job opens: that of the source.
    fn end_to_open(&self) -> Result<u32, Refusal>
        ensures { MatchResult result (λ end. (state_of S.Kind.Kind self.now ≡ shut) × (end ≡ S.Source.last self.now.source) × (end ≤ longest)) (λ why. NotOpenable why (state_of S.Kind.Kind self.now) (S.Source.last self.now.source)) }
    {
        if self.plan.is_some() {
            return Err(Refusal::AlreadyOpen);
        }
        let end = self.source.end();
        if end > LONGEST {
            return Err(Refusal::TooLong);
        }
        Ok(end)
    }

    // Sets the end, no cuts, and the cost of the single class.
    fn open(&mut self, end: u32)
        requires { (end ≡ S.Source.last self.old.source) × (end ≤ longest) }
        ensures source { self.new.source ≡ self.old.source }
        ensures state { state_of S.Kind.Kind self.new ≡ opened (record { end = end; cuts = []; total = (meant S.Kind.Kind S.Source self.old.source).cost 0 end }) }
    {
        let total = self.source.cost(0, end).unwrap();
        let cuts = Cuts::none();
        self.hold(Plan { end, cuts, total });
    }
}

impl<S: Vouching> Job<S> {
    // Opens the job on the word of its source.
    pub fn open_vouched(&mut self) -> Result<(), Refusal>
        ensures { (cells : List S.Kind) → Did S.Kind.Kind S.Source (S.Vouching.vouched self.old.source) OpenVouched self.old self.new cells cells (opening S.Kind.Kind result) }
    {
        let bound = self.source.bound();
        self.open_under(bound)
    }
}
