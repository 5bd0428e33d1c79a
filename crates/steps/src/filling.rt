// The rows of a step, one behind the other.
ghost use Rattle.std.specs.Prelude.{◌≡◌, ◌+◌, ◌<◌, ◌≤◌, map, length};
ghost use Rattle.sources.specs.Meant.{meant};
ghost use Rattle.plans.specs.Plans.{Plan};
ghost use Rattle.plans.specs.Steps.{tabled};
ghost use Rattle.steps.specs.PlanProofs.{plan_prop};

use crate::cuts::Cuts;
use rows::{Above, class_cost};
use sources::Source;

// What a step starts from: the held cuts of a plan with room for one cut more, and its end, which lies on the scale.
#[derive(Drop)]
pub struct Step<'a, S: Source> {
    pub source: &'a S,
    pub held: &'a Cuts,
    pub end: u32,
    ghost plan: { Plan 0 held.now end } by { plan_prop 0 held.now end },
    ghost few: { length held.now < 255 },
    ghost within: { end ≤ S.Source.last source.now },
    ghost short: { end ≤ 4096 },
}

// Fills the cells of row 0 with the costs from place 0 to each place, and returns the reads.
fn fill_first<S: Source>(source: &S, cells: &mut [S::Kind]) -> u64
    requires { (length cells.old ≤ S.Source.last source.now + 1) × (length cells.old ≤ 4097) }
    ensures costs { map S.Kind.Kind.means cells.new ≡ tabled ((meant S.Kind.Kind S.Source source.now).cost 0) 0 (length cells.old) }
    ensures reads { result ≡ length cells.old }
{
    for (y, cell) in cells.iter_mut().enumerate() {
        *cell = class_cost(source, 0, y as u32);
    }
    cells.len() as u64
}

impl<'a, S: Source> Step<'a, S> {
    ghost use Rattle.rows.specs.Rows.{row_of, scale_of};
    ghost use Rattle.steps.specs.Left.{row_in, scale, start_of, cell_count, RowsFilled};

    // The place where row `i` starts: 0, the cut before it, or the end, where the last row stops.
    fn row_start(&self, i: u32) -> u32
        requires { i ≤ length self.now.held.now + 1 }
        ensures { result ≡ start_of self.now i }
    {
        match i {
            0 => 0,
            _ => self.held.nth(i).unwrap_or(self.end),
        }
    }

    // Where row `i` starts and where it ends.
    fn row_ends(&self, i: u32) -> (u32, u32)
        requires { i ≤ length self.now.held.now }
        ensures start { result.0 ≡ start_of self.now i }
        ensures end { result.1 ≡ start_of self.now (i + 1) }
        ensures order { (result.0 ≤ result.1) × (result.1 ≤ self.now.end) }
    {
        (self.row_start(i), self.row_start(i + 1))
    }

    // Row `i` of the cells.
    pub(crate) fn row<'c>(&self, i: u32, cells: &'c [S::Kind]) -> Above<'c, S>
    where
        'a: 'c,
        requires held { i ≤ length self.now.held.now }
        requires filled { start_of self.now (i + 1) + i + 1 ≤ length cells.now }
        ensures source { scale_of result ≡ scale self.now }
        ensures row { row_of result ≡ row_in S.Kind.Kind self.now.held.now self.now.end i cells.now }
    {
        let (from, to) = self.row_ends(i);
        Above {
            source: self.source,
            from,
            to,
            cells: &cells[(from + i) as usize..=(to + i) as usize],
        }
    }

    // Fills the rows and returns the reads. Row i has its cell for the place y at y + i.
    pub(crate) fn fill_rows(&self, cells: &mut [S::Kind]) -> u64
        requires { cell_count self.now ≤ length cells.old }
        ensures { RowsFilled self.now cells.old cells.new result }
    {
        let (_, first) = self.row_ends(0);
        let mut reads = fill_first(self.source, &mut cells[..=first as usize]);
        // the places found, for all rows: what the rows before left there is never read
        let mut places = [0; 4097];
        for i in 0..self.held.count() {
            let (from, to) = self.row_ends(i + 1);
            let (above, behind) = cells.split_at_mut((from + i) as usize + 1);
            reads += self.row(i, above).fill_behind(to, &mut places, behind);
        }
        reads
    }
}
