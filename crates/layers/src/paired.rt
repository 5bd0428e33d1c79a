ghost use Rattle.std.specs.Prelude.{◌≡◌, max};
ghost use Rattle.costs.specs.contracts.number.I64Kind.TheImpl.{ghosts as plain};
ghost use Rattle.costs.specs.contracts.ranked.RankedKind.TheImpl.{ghosts as pairs};
ghost use Rattle.costs.specs.Numbers.{numbers};
ghost use Rattle.layers.specs.Layers.{paired};
ghost use Rattle.sources.specs.Meant.{meant};
ghost use Rattle.layers.specs.Replies.{paired_replies};

use costs::Ranked;
use sources::{Source, Vouching};

// Two number sources, up to the smaller end: ranked costs, the first source's number first.
#[derive(Drop)]
pub struct Paired<A, B> {
    one: A,
    two: B,
}

impl<A: Source<Kind = i64>, B: Source<Kind = i64>> Paired<A, B> {
    pub fn new(one: A, two: B) -> Self
        ensures holds { (result.one ≡ one) × (result.two ≡ two) }
        ensures means { meant pairs (paired_replies A.Source B.Source) result ≡ paired numbers numbers (meant plain A.Source one) (meant plain B.Source two) }
    {
        Paired { one, two }
    }
}

impl<A: Source<Kind = i64>, B: Source<Kind = i64>> Source for Paired<A, B> {
    type Kind = Ranked;

    ghost last = { (paired_replies A.Source B.Source).last };

    ghost reply = { (paired_replies A.Source B.Source).reply };

    fn end(&self) -> u32 {
        self.one.end().min(self.two.end())
    }

    fn cost(&self, x: u32, y: u32) -> Option<Ranked> {
        let first = self.one.cost(x, y)?;
        let second = self.two.cost(x, y)?;
        Some(Ranked { first, second })
    }
}

impl<A: Vouching + Source<Kind = i64>, B: Vouching + Source<Kind = i64>> Vouching for Paired<A, B> {
    ghost vouched = { λ s. max (A.Vouching.vouched s.one) (B.Vouching.vouched s.two) };

    #[tactic(auto, using(crate::proofs::Layers::paired_sound))]
    fn bound(&self) -> u64 {
        self.one.bound().max(self.two.bound())
    }
}
