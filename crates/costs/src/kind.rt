ghost use Rattle.std.specs.Prelude.{◌≡◌};
ghost use Rattle.costs.specs.Costs.{Costs, Laws};

// A kind of cost: the values of a type that stand for costs.
pub trait Kind: Copy {
    // the costs, with their sum, order and size
    ghost costs: { Costs };

    // the cost that a value stands for
    ghost means: { Self → costs.Cost };

    // the value that `plus` returns
    ghost sum: { Self → Self → Self };

    fn zero() -> Self
        ensures { means result ≡ costs.nil };

    fn plus(self, other: Self) -> Self
        ensures { result ≡ sum self other };

    fn at_most(self, other: Self) -> bool
        ensures { result ≡ costs.le (means self) (means other) };

    fn size(self) -> u64
        ensures { result ≡ costs.size (means self) };

    ghost laws: { Laws costs };

    ghost sums: { (a b : Self) → means (sum a b) ≡ costs.add (means a) (means b) };
}
