// Ranked costs: two numbers, compared by the first and, where those are equal, by the second.
ghost use Rattle.costs.specs.Numbers.{numbers, held_sum};
ghost use Rattle.costs.specs.Ranked.{ranked};
ghost use Rattle.costs.specs.NumbersLemmas as Numbers;
ghost use Rattle.costs.specs.Ranks.{ranked_laws};
ghost use Rattle.std.proofs.Common.{rules};

use crate::kind::Kind;

#[derive(Clone, Copy, Debug, PartialEq, Eq, PartialOrd, Ord)]
pub struct Ranked {
    pub first: i64,
    pub second: i64,
}

impl Kind for Ranked {
    ghost costs = { ranked numbers numbers };

    ghost means = { λ r. (r.first, r.second) };

    ghost sum = { λ a b. record { first = held_sum a.first b.first; second = held_sum a.second b.second } };

    ghost laws = { ranked_laws Numbers.laws Numbers.laws };

    ghost sums = { Prim.search rules };

    fn zero() -> Ranked {
        Ranked {
            first: 0,
            second: 0,
        }
    }

    fn plus(self, other: Ranked) -> Ranked {
        let first = self.first.saturating_add(other.first);
        let second = self.second.saturating_add(other.second);
        Ranked { first, second }
    }

    fn at_most(self, other: Ranked) -> bool {
        self <= other
    }

    fn size(self) -> u64 {
        self.first.unsigned_abs().max(self.second.unsigned_abs())
    }
}
