ghost use Rattle.std.specs.Prelude.{◌≡◌, ℕ, ◌≤◌};
ghost use Rattle.costs.specs.Limits.{largest};
ghost use Rattle.sources.specs.Meant.{meant};
ghost use Rattle.sources.specs.Scales.{Sound};

use crate::source::Source;

// A source that vouches for its costs: where its bound is at most the largest cost, every cost has at most that size and Glebov's condition holds.
pub trait Vouching: Source {
    ghost vouched: { Self → ℕ };

    fn bound(&self) -> u64
        ensures value { result ≡ vouched self.now }
        ensures sound { result ≤ largest → Sound Self.Kind.Kind.costs (meant Self.Kind.Kind Self.Source self.now) result };
}
