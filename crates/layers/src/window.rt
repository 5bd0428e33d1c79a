ghost use Rattle.std.specs.Prelude.{◌≡◌};
ghost use Rattle.layers.specs.Layers.{opening, closing, window};
ghost use Rattle.sources.specs.Meant.{meant};
ghost use Rattle.layers.specs.Replies.{window_replies};

use sources::{Source, Vouching};

// The places of a source from `from` to `to`, numbered from 0. A `from` beyond the end counts as the end, and then `to` is brought between `from` and the end.
#[derive(Drop)]
pub struct Window<S> {
    below: S,
    from: u32,
    to: u32,
}

impl<S: Source> Window<S> {
    pub fn new(below: S, from: u32, to: u32) -> Self
        ensures holds { (result.below ≡ below) × (result.from ≡ from) × (result.to ≡ to) }
        ensures means { meant S.Kind.Kind (window_replies S.Source) result ≡ window S.Kind.Kind.costs from to (meant S.Kind.Kind S.Source below) }
    {
        Window { below, from, to }
    }

    // The first and the last place below.
    fn span(&self) -> (u32, u32)
        ensures { (result.0 ≡ opening (S.Source.last self.now.below) self.now.from) × (result.1 ≡ closing (S.Source.last self.now.below) self.now.from self.now.to) }
    {
        let end = self.below.end();
        let first = self.from.min(end);
        (first, self.to.min(end).max(first))
    }
}

impl<S: Source> Source for Window<S> {
    type Kind = S::Kind;

    ghost last = { (window_replies S.Source).last };

    ghost reply = { (window_replies S.Source).reply };

    fn end(&self) -> u32 {
        let (first, last) = self.span();
        last - first
    }

    fn cost(&self, x: u32, y: u32) -> Option<S::Kind> {
        let (from, to) = self.span();
        if x <= y && y <= to - from {
            self.below.cost(from + x, from + y)
        } else {
            None
        }
    }
}

impl<S: Vouching> Vouching for Window<S> {
    ghost vouched = { λ s. S.Vouching.vouched s.below };

    #[tactic(auto, using(crate::proofs::Layers::window_sound))]
    fn bound(&self) -> u64 {
        self.below.bound()
    }
}
