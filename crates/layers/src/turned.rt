ghost use Rattle.std.specs.Prelude.{◌≡◌};
ghost use Rattle.layers.specs.Layers.{turned};
ghost use Rattle.sources.specs.Meant.{meant};
ghost use Rattle.layers.specs.Replies.{turned_replies};

use sources::{Source, Vouching};

// A source numbered from its end: the class from x to y is that below from last − y to last − x.
#[derive(Drop)]
pub struct Turned<S> {
    below: S,
}

impl<S: Source> Turned<S> {
    pub fn new(below: S) -> Self
        ensures holds { result.below ≡ below }
        ensures means { meant S.Kind.Kind (turned_replies S.Source) result ≡ turned S.Kind.Kind.costs (meant S.Kind.Kind S.Source below) }
    {
        Turned { below }
    }
}

impl<S: Source> Source for Turned<S> {
    type Kind = S::Kind;

    ghost last = { (turned_replies S.Source).last };

    ghost reply = { (turned_replies S.Source).reply };

    fn end(&self) -> u32 {
        self.below.end()
    }

    fn cost(&self, x: u32, y: u32) -> Option<S::Kind> {
        let last = self.end();
        self.below.cost(last.checked_sub(y)?, last.checked_sub(x)?)
    }
}

impl<S: Vouching> Vouching for Turned<S> {
    ghost vouched = { λ s. S.Vouching.vouched s.below };

    #[tactic(auto, using(crate::proofs::Layers::turned_sound))]
    fn bound(&self) -> u64 {
        self.below.bound()
    }
}
