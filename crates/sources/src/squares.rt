// Glebov's condition looked at square by square, and the first cost or square that fails.
ghost use Rattle.std.specs.Prelude.{◌≡◌, ℕ, ◌+◌, ◌^◌, ◌<◌, ◌≤◌, None};
ghost use Rattle.costs.specs.Limits.{largest};
ghost use Rattle.sources.specs.Meant.{meant};
ghost use Rattle.sources.specs.Scales.{Sized, Glebov};
ghost use Rattle.sources.specs.Squares.{FindsFirst, FindsFirstPair, holds, too_large, first_large, first_broken, Squares, SquaresDecide, FirstsAreFirst};

use crate::source::Source;
use costs::{Kind, LARGEST};

// For costs of size up to the largest, Glebov's condition holds exactly if all squares hold.
pub fn squares_decide<V: Kind>()
    ensures { SquaresDecide V.Kind.costs }
{}

// The first class or square that fails a test is bad, and none before it.
#[tactic(auto, using(crate::proofs::Firsts::first_is))]
pub fn firsts_are_first<V: Kind>()
    ensures { FirstsAreFirst V.Kind.costs }
{}

// The first `x` up to `y` for which the pair (x, y) is bad. The library has no lemma on `find` over a range with its end.
fn first_in_row<F: Fn(u32, u32) -> bool>(is_bad: &F, y: u32) -> Option<u32>
    requires { (x : ℕ) → x ≤ y → F.pre is_bad.now x y }
    ensures { FindsFirst (λ x. F.post is_bad.now x y) y result }
{
    for x in 0..=y {
        if is_bad(x, y) {
            return Some(x);
        }
    }
    None
}

// The first bad pair (x, y) with x ≤ y ≤ last: the smallest y, and then the smallest x.
fn first_pair<F: Fn(u32, u32) -> bool>(last: u32, is_bad: F) -> Option<(u32, u32)>
    requires { (x y : ℕ) → x ≤ y → y ≤ last → F.pre is_bad x y }
    ensures { FindsFirstPair (F.post is_bad) last result }
{
    for y in 0..=last {
        if let Some(x) = first_in_row(&is_bad, y) {
            return Some((x, y));
        }
    }
    None
}

// The cost of a class of the scale.
fn cost_of<S: Source>(source: &S, x: u32, y: u32) -> S::Kind
    requires { (x ≤ y) × (y ≤ S.Source.last source.now) }
    ensures { result ≡ S.Source.reply source.now x y }
{
    source.cost(x, y).unwrap()
}

// Is the cost from `x` to `y` above the largest?
fn is_too_large<S: Source>(source: &S, x: u32, y: u32) -> bool
    requires { (x ≤ y) × (y ≤ S.Source.last source.now) }
    ensures { result ≡ too_large S.Kind.Kind.costs (meant S.Kind.Kind S.Source source.now) x y }
{
    cost_of(source, x, y).size() > LARGEST
}

// The first class (x, y), the smallest y and then the smallest x, whose cost is too large.
pub fn first_too_large<S: Source>(source: &S) -> Option<(u32, u32)>
    ensures value { result ≡ first_large S.Kind.Kind.costs (meant S.Kind.Kind S.Source source.now) }
    ensures sized { result ≡ None → Sized S.Kind.Kind.costs (meant S.Kind.Kind S.Source source.now) largest }
{
    let (from, to) = first_pair(source.end(), |x, y| is_too_large(source, x, y))?;
    Some((from, to))
}

// Does the square (i, j) hold?
fn square_holds<S: Source>(source: &S, i: u32, j: u32) -> bool
    requires { (i < j) × (j < S.Source.last source.now) × (S.Source.last source.now < 2 ^ 32) }
    ensures { result ≡ holds S.Kind.Kind.costs (meant S.Kind.Kind S.Source source.now) i j }
{
    let inner = cost_of(source, i, j).plus(cost_of(source, i + 1, j + 1));
    let outer = cost_of(source, i + 1, j).plus(cost_of(source, i, j + 1));
    inner.at_most(outer)
}

// The first square (i, j), the smallest j and then the smallest i, that fails.
pub fn first_broken_square<S: Source>(source: &S) -> Option<(u32, u32)>
    ensures value { result ≡ first_broken S.Kind.Kind.costs (meant S.Kind.Kind S.Source source.now) }
    ensures squares { result ≡ None → Squares S.Kind.Kind.costs (meant S.Kind.Kind S.Source source.now) }
    ensures glebov { result ≡ None → Sized S.Kind.Kind.costs (meant S.Kind.Kind S.Source source.now) largest → Glebov S.Kind.Kind.costs (meant S.Kind.Kind S.Source source.now) }
{
    let last = source.end().checked_sub(1)?;
    let (i, j) = first_pair(last, |i, j| i < j && !square_holds(source, i, j))?;
    Some((i, j))
}
