// A whole row, from the row above it.
ghost use Rattle.std.specs.Prelude.{◌+◌, ◌-◌, ◌≤◌, map, length};

use crate::above::Above;
use crate::powers::{POWERS, power_count};
use sources::Source;

impl<S: Source> Above<'_, S> {
    ghost use Rattle.rows.specs.Rows.{row_of, scale_of};
    ghost use Rattle.rows.specs.Filled.{Room, Costed, Filled};

    // Fills the cells of a row behind this one, level by level, and returns the reads. What the places hold before is not read.
    fn fill_row(&self, places: &mut [u32], cells: &mut [S::Kind]) -> u64
        requires { Room self.now places.old cells.old }
        ensures { Costed (scale_of self.now) (row_of self.now) (self.now.to + length cells.old - 1) (map S.Kind.Kind.means cells.new) result }
    {
        let mut reads = 0;
        for n in (0..power_count(cells.len())).rev() {
            reads += self.fill_level(POWERS[n], places, cells);
        }
        reads
    }

    // Fills the row from the last place of this one to the place `c` with the first of the cells, and returns the reads.
    pub fn fill_behind(&self, c: u32, places: &mut [u32; 4097], cells: &mut [S::Kind]) -> u64
        requires { (self.now.to ≤ c) × (c ≤ S.Source.last self.now.source.now) × (c ≤ 4096) × (c - self.now.to + 1 ≤ length cells.old) }
        ensures { Filled S.Kind.Kind (scale_of self.now) (row_of self.now) c cells.old cells.new result }
    {
        let width = (c - self.to) as usize + 1;
        self.fill_row(&mut places[..width], &mut cells[..width])
    }
}
