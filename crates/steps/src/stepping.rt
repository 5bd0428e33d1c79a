// One step, from the held cuts to one cut more, and stepping up from no cuts.
ghost use Rattle.std.specs.Prelude.{◌+◌, ◌≤◌, length};
ghost use Rattle.sources.specs.Meant.{meant};
ghost use Rattle.steps.specs.Left.{Ready, StepLeft, ClimbLeft};

use crate::cuts::Cuts;
use crate::filling::Step;
use rows::class_cost;
use sources::Source;

// What a step leaves: the new cuts, their total, and the number of costs that were read.
#[derive(Clone, Copy)]
pub struct Stepped<K> {
    pub cuts: Cuts,
    pub total: K,
    pub reads: u64,
}

// One cut more than the held ones, at the end `end`. The rows go into the lent cells.
pub fn step<S: Source>(source: &S, held: &Cuts, end: u32, cells: &mut [S::Kind]) -> Stepped<S::Kind>
    requires { Ready held.now end (S.Source.last source.now) (length cells.old) }
    ensures { StepLeft S.Kind.Kind (meant S.Kind.Kind S.Source source.now) held.now end cells.old cells.new result }
{
    let step = Step { source, held, end };
    let filled = step.fill_rows(cells);
    let traced = step.trace(cells);
    Stepped {
        reads: filled + traced.reads,
        ..traced
    }
}

// `count` cuts at the end `end`: the cost of the single class, and then a step for each cut.
pub fn climb<S: Source>(source: &S, end: u32, count: u32, cells: &mut [S::Kind]) -> Stepped<S::Kind>
    requires { (count ≤ 255) × (end ≤ S.Source.last source.now) × (end ≤ 4096) × (end + count ≤ length cells.old) }
    ensures { ClimbLeft S.Kind.Kind (meant S.Kind.Kind S.Source source.now) end count cells.old cells.new result }
{
    let mut reached = Stepped {
        cuts: Cuts::none(),
        total: class_cost(source, 0, end),
        reads: 1,
    };
    for _ in 0..count {
        let next = step(source, &reached.cuts, end, cells);
        let reads = reached.reads + next.reads;
        reached = Stepped { reads, ..next };
    }
    reached
}
