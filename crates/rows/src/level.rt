// One level of the work that fills a row.
ghost use Rattle.std.specs.Prelude.{◌≡◌, ◌*◌, ◌<◌, ◌≤◌, length};

use crate::above::Above;
use sources::Source;

impl<S: Source> Above<'_, S> {
    ghost use Rattle.rows.specs.Filled.{kept_for, Room, MultiplesWorked, LevelWorked};

    // The place kept for the number `m`: for 0 the first place of the row above, and for a number past the places its last.
    fn kept_place(&self, places: &[u32], m: usize) -> u32
        ensures { result ≡ kept_for self.now.from self.now.to places.now m }
    {
        match m.checked_sub(1) {
            None => self.from,
            Some(index) => places.get(index).copied().unwrap_or(self.to),
        }
    }

    // Works the odd multiples of `d` among the numbers of a row behind this one, counted from 1, and returns the reads.
    // The cells are the caller's, so the places that were found lie apart.
    pub(crate) fn fill_level(&self, d: usize, places: &mut [u32], cells: &mut [S::Kind]) -> u64
        requires room { Room self.now places.old cells.old }
        requires step { (0 < d) × (d ≤ length cells.old) }
        requires worked { MultiplesWorked self.now (2 * d) places.old cells.old }
        ensures { LevelWorked self.now (length cells.old) d places.old places.new cells.new result }
    {
        let mut reads = 0;
        for i in (d - 1..cells.len()).step_by(2 * d) {
            let lo = self.kept_place(places, i + 1 - d);
            let hi = self.kept_place(places, i + 1 + d);
            let found = self.find_least(lo, hi, self.to + i as u32);
            places[i] = found.place;
            cells[i] = found.cost;
            reads += found.reads;
        }
        reads
    }
}
