ghost use Rattle.jobs.specs.Jobs.{Did, answer_of};

use crate::job::Job;
use calls::{Answer, Call, Refusal};
use sources::Source;

impl<S: Source> Job<S> {
    // Makes a call, under the bound that the source vouches for.
    pub(super) fn act(
        &mut self,
        call: Call,
        bound: u64,
        cells: &mut [S::Kind],
    ) -> Result<Answer<S::Kind>, Refusal>
        ensures { Did S.Kind.Kind S.Source bound call self.old self.new cells.old cells.new (answer_of S.Kind.Kind result) }
    {
        match call {
            Call::OpenChecked => self.open_checked().and(Ok(Answer::Accepted)),
            Call::OpenVouched => self.open_under(bound).and(Ok(Answer::Accepted)),
            Call::Add => Ok(Answer::Counted(self.add_cut(cells)?)),
            Call::Drop => Ok(Answer::Counted(self.drop_cut(cells)?)),
            Call::Reach(end) => Ok(Answer::Counted(self.reach(end, cells)?)),
            Call::Look(k) => Ok(Answer::Looked(self.look(k))),
        }
    }
}
