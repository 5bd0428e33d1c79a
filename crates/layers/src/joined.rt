ghost use Rattle.std.specs.Prelude.{◌≡◌, ◌+◌, ◌-◌, ◌^◌, min};
ghost use Rattle.layers.specs.Layers.{joined};
ghost use Rattle.sources.specs.Meant.{meant};
ghost use Rattle.layers.specs.Replies.{joined_replies};

use costs::Kind;
use sources::{Source, Vouching};

// Two sources of one kind, up to the smaller end, their costs added.
#[derive(Drop)]
pub struct Joined<A, B> {
    one: A,
    two: B,
}

impl<A: Source, B: Source<Kind = A::Kind>> Joined<A, B> {
    pub fn new(one: A, two: B) -> Self
        ensures holds { (result.one ≡ one) × (result.two ≡ two) }
        ensures means { meant A.Kind.Kind (joined_replies A.Kind.Kind A.Source B.Source) result ≡ joined A.Kind.Kind.costs (meant A.Kind.Kind A.Source one) (meant A.Kind.Kind B.Source two) }
    {
        Joined { one, two }
    }
}

impl<A: Source, B: Source<Kind = A::Kind>> Source for Joined<A, B> {
    type Kind = A::Kind;

    ghost last = { (joined_replies A.Kind.Kind A.Source B.Source).last };

    ghost reply = { (joined_replies A.Kind.Kind A.Source B.Source).reply };

    fn end(&self) -> u32 {
        self.one.end().min(self.two.end())
    }

    fn cost(&self, x: u32, y: u32) -> Option<A::Kind> {
        let a = self.one.cost(x, y)?;
        let b = self.two.cost(x, y)?;
        Some(a.plus(b))
    }
}

impl<A: Vouching, B: Vouching + Source<Kind = A::Kind>> Vouching for Joined<A, B> {
    ghost vouched = { λ s. min (A.Vouching.vouched s.one + B.Vouching.vouched s.two) (2 ^ 64 - 1) };

    fn bound(&self) -> u64 {
        self.one.bound().saturating_add(self.two.bound())
    }
}
