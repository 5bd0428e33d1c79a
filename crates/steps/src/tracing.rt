// The new cuts of a step, found by a trace through its rows.
ghost use Rattle.std.specs.Prelude.{◌≡◌, ◌+◌, ◌≤◌, map, length, take};

use crate::filling::Step;
use crate::stepping::Stepped;
use rows::Found;
use sources::Source;

impl<S: Source> Step<'_, S> {
    ghost use Rattle.plans.specs.Steps.{rows, joined_cells};
    ghost use Rattle.steps.specs.Left.{scale, start_of, cell_count, LeastOfRow, Traced};

    // The earliest least place of row `i` of the cells on the way to `next`.
    #[inline(always)]
    fn least_of_row(&self, i: u32, next: u32, cells: &[S::Kind]) -> Found<S::Kind>
        requires held { i ≤ length self.now.held.now }
        requires next { (start_of self.now (i + 1) ≤ next) × (next ≤ self.now.end) }
        requires filled { start_of self.now (i + 1) + i + 1 ≤ length cells.now }
        ensures { LeastOfRow self.now cells.now i next result }
    {
        let row = self.row(i, cells);
        row.find_least(row.from, row.to, next)
    }

    // The new cuts, found from the last row of the cells to the first, with their total and the reads that find them.
    pub(crate) fn trace(&self, cells: &[S::Kind]) -> Stepped<S::Kind>
        requires room { cell_count self.now ≤ length cells.now }
        requires filled { map S.Kind.Kind.means (take (cell_count self.now) cells.now) ≡ joined_cells (rows S.Kind.Kind.costs (scale self.now) self.now.held.now self.now.end) }
        ensures { Traced self.now result }
    {
        let count = self.held.count();
        let last = self.least_of_row(count, self.end, cells);
        let mut cuts = *self.held;
        cuts.push(last.place);
        let mut next = last.place;
        let mut reads = last.reads;
        for i in (0..count).rev() {
            let found = self.least_of_row(i, next, cells);
            cuts.set(i, found.place);
            next = found.place;
            reads += found.reads;
        }
        Stepped {
            cuts,
            total: last.cost,
            reads,
        }
    }
}
