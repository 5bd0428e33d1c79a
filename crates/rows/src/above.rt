// The row above, and the earliest least way on from it.
ghost use Rattle.std.specs.Prelude.{◌≡◌, ◌+◌, ◌-◌, ◌≤◌, length};

use costs::Kind;
use sources::Source;

// The cost of the class from `x` to `y`, which is one of the scale.
pub fn class_cost<S: Source>(source: &S, x: u32, y: u32) -> S::Kind
    requires { (x ≤ y) × (y ≤ S.Source.last source.now) }
    ensures { result ≡ S.Source.reply source.now x y }
{
    source.cost(x, y).unwrap()
}

// The row above the one that is filled: its first and its last place, a cell for each place, and the source of the classes that lead on from them.
#[derive(Drop)]
pub struct Above<'a, S: Source> {
    pub source: &'a S,
    pub from: u32,
    pub to: u32,
    pub cells: &'a [S::Kind],
    ghost order: { from ≤ to },
    ghost whole: { length cells.now ≡ to - from + 1 },
}

// A place of the row above, the cost by way of it, and the number of costs that were read to find it.
#[derive(Clone, Copy)]
pub struct Found<K> {
    pub place: u32,
    pub cost: K,
    pub reads: u64,
}

impl<S: Source> Above<'_, S> {
    ghost use Rattle.plans.specs.Steps.{via};
    ghost use Rattle.rows.specs.Rows.{row_of, scale_of, IsLeast};

    // The cost of coming to the place `y` by way of the place `p`.
    fn cost_via(&self, p: u32, y: u32) -> S::Kind
        requires { (self.now.from ≤ p) × (p ≤ self.now.to) × (p ≤ y) × (y ≤ S.Source.last self.now.source.now) }
        ensures { S.Kind.Kind.means result ≡ via S.Kind.Kind.costs (scale_of self.now) (row_of self.now) y p }
    {
        self.cells[(p - self.from) as usize].plus(class_cost(self.source, p, y))
    }

    // The earliest least place from `lo` to `hi` on the way to `y`.
    pub fn find_least(&self, lo: u32, hi: u32, y: u32) -> Found<S::Kind>
        requires { (self.now.from ≤ lo) × (lo ≤ hi) × (hi ≤ self.now.to) × (hi ≤ y) × (y ≤ S.Source.last self.now.source.now) }
        ensures { IsLeast self.now lo hi y result }
    {
        let mut place = lo;
        let mut cost = self.cost_via(lo, y);
        // a range that takes its end in is slower here
        for before in lo..hi {
            let p = before + 1;
            let value = self.cost_via(p, y);
            let less = !cost.at_most(value);
            if less {
                place = p;
                cost = value;
            }
        }
        let reads = u64::from(hi - lo) + 1;
        Found { place, cost, reads }
    }
}
