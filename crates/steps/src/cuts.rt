// A job's own row of cuts.
ghost use Rattle.std.specs.Prelude.{◌≡◌, ◌<◌, ◌≤◌, [], ◌∷◌, ◌++◌, length, slice_set};
ghost use Rattle.plans.specs.Plans.{nth_cut};

use std::marker::Model;

// The first `used` of the row are the cuts. The others are 0, so that equal cuts are equal rows.
// No step asks for memory, and cuts are copied, so they lie in a row of their own.
#[derive(Clone, Copy)]
pub struct Cuts {
    row: [u32; 255],
    used: u32,
}

impl Model for Cuts {
    ghost use Rattle.std.specs.Prelude.{ℕ, List};

    ghost Value = { List ℕ };

    ghost use Rattle.steps.specs.Cuts.{in_use, IsPadded, padded, padded_ok};

    ghost view = { in_use };

    ghost invariant = { IsPadded };

    ghost inverse = { padded };

    ghost inverse_ok = { padded_ok };
}

impl Cuts {
    pub fn none() -> Cuts
        ensures { result ≡ [] }
    {
        Cuts {
            row: [0; 255],
            used: 0,
        }
    }

    pub fn count(&self) -> u32
        ensures value { result ≡ length self.now }
        ensures few { result ≤ 255 }
    {
        self.used
    }

    // The cuts, the first one first.
    pub fn places(&self) -> &[u32]
        ensures { result.now ≡ self.now }
    {
        &self.row[..self.count() as usize]
    }

    // The `k`-th cut, counted from 1.
    pub fn nth(&self, k: u32) -> Option<u32>
        ensures { result ≡ nth_cut self.now k }
    {
        let before = k.checked_sub(1)?;
        self.places().get(before as usize).copied()
    }

    // Adds a cut behind the others.
    pub(crate) fn push(&mut self, place: u32)
        requires { length self.old < 255 }
        ensures { self.new ≡ self.old ++ place ∷ [] }
    {
        let Cuts { row, used } = self;
        row[*used as usize] = place;
        *used += 1;
    }

    // Moves the cut at the index.
    pub(crate) fn set(&mut self, index: u32, place: u32)
        requires { index < length self.old }
        ensures { self.new ≡ slice_set self.old index place }
    {
        self.row[index as usize] = place;
    }
}
