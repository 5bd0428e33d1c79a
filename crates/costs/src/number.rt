// Numbers as costs: `i64`, with sums that stay at the end of the range.
ghost use Rattle.costs.specs.Numbers.{numbers, held_sum};
ghost use Rattle.costs.specs.NumbersLemmas as Numbers;
ghost use Rattle.std.proofs.Common.{rules};

use crate::kind::Kind;

impl Kind for i64 {
    ghost costs = { numbers };

    ghost means = { λ z. z };

    ghost sum = { held_sum };

    ghost laws = { Numbers.laws };

    ghost sums = { Prim.search rules };

    fn zero() -> i64 {
        0
    }

    fn plus(self, other: i64) -> i64 {
        self.saturating_add(other)
    }

    fn at_most(self, other: i64) -> bool {
        self <= other
    }

    fn size(self) -> u64 {
        self.unsigned_abs()
    }
}
