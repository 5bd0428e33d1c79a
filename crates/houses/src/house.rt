// House counts: costs from the number of scans of each length.
ghost use Rattle.std.specs.Prelude.{◌≡◌, ℕ, pred, ◌<◌, ◌≤◌, List, [], ◌∷◌, length, IfOk, Err, MatchOption, MatchResult};
ghost use Rattle.houses.specs.Houses.{Good, Counts, bad, FirstBad, tape, house, house_bound};
ghost use Rattle.houses.specs.HouseLoads.{Loads};

use crate::house_fault::HouseFault;
use crate::prices::price;
use sources::{Source, Vouching};
use std::alloc::{AllocError, Global};
use std::marker::Model;

// The most counts that a list may have, and the most scans that a count may be.
const MOST_COUNTS: usize = 4097;

const MOST_SCANS: u32 = 200_000;

#[derive(Drop)]
pub struct HouseCounts {
    // the number of scans not longer than each place
    counts: Vec<u32>,
}

impl Model for HouseCounts {
    ghost Value = { List ℕ };

    ghost view = { λ h. h.counts.items };

    ghost invariant = { λ h. Counts h.counts.items };
}

impl HouseCounts {
    // The single count 0, with the last place 0.
    pub fn new(heap: Global) -> Result<HouseCounts, AllocError>
        ensures { IfOk result (λ h. h ≡ 0 ∷ []) }
    {
        let counts = Vec::from_slice(heap, &[0])?;
        Ok(HouseCounts { counts })
    }

    // Copies the list, or refuses it and leaves the counts as they were.
    pub fn load(&mut self, heap: Global, counts: &[u32]) -> Result<(), HouseFault>
        ensures { Loads counts.now self.old self.new result }
    {
        check_counts(counts)?;
        self.counts = Vec::from_slice(heap, counts)?;
        Ok(())
    }

    // The counts, the one of place 0 first.
    pub fn counts(&self) -> &[u32]
        ensures value { result.now ≡ self.now }
        ensures valid { Counts self.now }
    {
        &self.counts
    }

    // The tape that the class from `x` to `y` takes, or nothing where that is no class of the scale.
    fn tape(&self, x: u32, y: u32) -> Option<u32>
        ensures reply { MatchOption result (x ≤ y → y ≤ pred (length self.now) → ⊥) (λ t. (x ≤ y) × (y ≤ pred (length self.now)) × (t ≡ tape self.now x y)) }
        ensures valid { Counts self.now }
    {
        let up_to_y = *self.counts.get(y as usize)?;
        if x > y {
            return None;
        }
        let scans = up_to_y - self.counts[x as usize];
        Some(price(y)? * scans)
    }
}

// Finds why a list cannot be loaded.
fn check_counts(counts: &[u32]) -> Result<(), HouseFault>
    ensures { MatchResult result (λ _. Counts counts.now) (λ f. ((new : List ℕ) → Loads counts.now new new (Err f))) }
{
    if counts.is_empty() || counts.len() > MOST_COUNTS {
        return Err(HouseFault::Length);
    }
    match first_bad(counts) {
        Some(index) => Err(HouseFault::BadCount(index as u32)),
        None => Ok(()),
    }
}

// The first index whose count is bad.
fn first_bad(counts: &[u32]) -> Option<usize>
    ensures { MatchOption result (Good counts.now) (λ i. FirstBad counts.now i) }
{
    (0..counts.len()).find(|k| is_bad(counts, *k))
}

// Is the count at `k` below the one before it, or above the most?
fn is_bad(counts: &[u32], k: usize) -> bool
    requires { k < length counts.now }
    ensures { result ≡ bad counts.now k }
{
    counts[k] < counts[k.saturating_sub(1)] || counts[k] > MOST_SCANS
}

impl Source for HouseCounts {
    type Kind = i64;

    ghost last = { λ h. (house h).last };

    ghost reply = { λ h. (house h).cost };

    fn end(&self) -> u32 {
        self.counts.len() as u32 - 1
    }

    fn cost(&self, x: u32, y: u32) -> Option<i64> {
        self.tape(x, y).map(i64::from)
    }
}

impl Vouching for HouseCounts {
    ghost vouched = { λ h. house_bound h };

    #[tactic(auto, using(crate::proofs::HouseLaws::house_sound))]
    fn bound(&self) -> u64 {
        u64::from(self.tape(0, self.end()).unwrap())
    }
}
