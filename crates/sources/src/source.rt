ghost use Rattle.std.specs.Prelude.{◌≡◌, ℕ, ◌≤◌, MatchOption};

use costs::Kind;

// A cost source: a scale with the places 0 to its last, and a reply for each class on it.
// No question changes a source, so the same question has the same reply.
pub trait Source {
    type Kind: Kind;

    // the last place
    ghost last: { Self → ℕ };

    // the value that stands for the cost of the class from x to y
    ghost reply: { Self → ℕ → ℕ → Self.Kind };

    fn end(&self) -> u32
        ensures { result ≡ last self.now };

    // The cost of the class from `x` to `y`, or nothing where that is no class of the scale.
    fn cost(&self, x: u32, y: u32) -> Option<Self::Kind>
        ensures { MatchOption result (x ≤ y → y ≤ last self.now → ⊥) (λ k. (x ≤ y) × (y ≤ last self.now) × (k ≡ reply self.now x y)) };
}
