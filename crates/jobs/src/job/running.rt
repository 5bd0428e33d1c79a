// A list of calls on one job, with a record of each.
ghost use Rattle.std.specs.Prelude.{◌≤◌};
ghost use Rattle.costs.specs.Limits.{largest};
ghost use Rattle.sources.specs.Meant.{meant};
ghost use Rattle.sources.specs.Scales.{Sound};
ghost use Rattle.jobs.specs.Jobs.{RanOrKept};

use crate::job::Job;
use crate::record::Record;
use calls::Call;
use costs::Kind;
use sources::{Source, Vouching};
use std::alloc::{AllocError, Global};

impl<S: Source> Job<S> {
    // Makes the calls in turn. Memory for the records is got before the first call, so that want of it changes nothing.
    fn run_under(
        &mut self,
        heap: Global,
        bound: u64,
        calls: &[Call],
        cells: &mut [S::Kind],
    ) -> Result<Vec<Record<S::Kind>>, AllocError>
        requires { bound ≤ largest → Sound S.Kind.Kind.costs (meant S.Kind.Kind S.Source self.old.source) bound }
        ensures { RanOrKept S.Kind.Kind S.Source bound calls.now self.old self.new cells.old cells.new result }
    {
        let mut records = Vec::with_capacity(heap, calls.len())?;
        for call in calls {
            let answer = self.act(*call, bound, cells);
            records.push_reserved(Record {
                call: *call,
                answer,
                moment: self.moment(),
            });
        }
        Ok(records)
    }

    // Runs a job over a source that does not vouch: it counts as one that vouches for too large a bound, so its vouched openings are refused.
    pub fn run_checked(
        &mut self,
        heap: Global,
        calls: &[Call],
        cells: &mut [S::Kind],
    ) -> Result<Vec<Record<S::Kind>>, AllocError>
        ensures { RanOrKept S.Kind.Kind S.Source u64.MAX calls.now self.old self.new cells.old cells.new result }
    {
        self.run_under(heap, u64::MAX, calls, cells)
    }
}

impl<S: Vouching> Job<S> {
    // Makes the calls in turn, and returns a record of each.
    pub fn run(
        &mut self,
        heap: Global,
        calls: &[Call],
        cells: &mut [S::Kind],
    ) -> Result<Vec<Record<S::Kind>>, AllocError>
        ensures { RanOrKept S.Kind.Kind S.Source (S.Vouching.vouched self.old.source) calls.now self.old self.new cells.old cells.new result }
    {
        let bound = self.source.bound();
        self.run_under(heap, bound, calls, cells)
    }
}
