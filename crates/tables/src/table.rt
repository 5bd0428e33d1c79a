ghost use Rattle.std.specs.Prelude.{◌≡◌, ◌≤◌, true, [], ◌∷◌, pos, IfOk, vec_len, MatchResult};
ghost use Rattle.tables.specs.declared.table.TableFault.TheVariants.{Memory};
ghost use Rattle.tables.specs.Tables.{longest_table, classes, entry_index, table, well_made, Refuses, fault_number};

use sources::Source;
use std::alloc::{AllocError, Global};

// The last place that a table may have.
const LONGEST_TABLE: u32 = 65_535;

// Why a list was refused.
#[derive(Clone, Copy, Debug, PartialEq, Eq)]
pub enum TableFault {
    // the last place is too large, or the list has not an entry for each class
    Length,
    // no memory for a copy of the list
    Memory,
}

impl TableFault {
    pub fn number(self) -> u32
        ensures { result ≡ fault_number self }
    {
        match self {
            TableFault::Length => 11,
            TableFault::Memory => 99,
        }
    }
}

impl From<AllocError> for TableFault {
    ghost from_gives = { λ _ f. f ≡ Memory };

    fn from(_: AllocError) -> TableFault {
        Self::Memory
    }
}

// A table of numbers: a last place, and an entry for each class from x to y.
#[derive(Drop)]
pub struct Table {
    entries: Vec<i32>,
    last: u32,
    ghost short: { last ≤ longest_table },
    ghost whole: { vec_len entries ≡ classes last },
}

// How many classes a scale up to `last` has.
fn count_classes(last: u32) -> usize
    requires { last ≤ longest_table }
    ensures { result ≡ classes last }
{
    let last = last as usize;
    (last + 1) * (last + 2) / 2
}

// Where the cost from `x` to `y` stands.
fn index_of(x: u32, y: u32) -> usize
    requires { (x ≤ y) × (y ≤ longest_table) }
    ensures { result ≡ entry_index x y }
{
    let y = y as usize;
    y * (y + 1) / 2 + x as usize
}

impl Table {
    // A table with the last place 0 and the entry 0.
    pub fn new(heap: Global) -> Result<Table, AllocError>
        ensures { IfOk result (λ t. (t.last ≡ 0) × (t.entries.items ≡ pos 0 ∷ [])) }
    {
        let entries = Vec::from_slice(heap, &[0])?;
        Ok(Table { entries, last: 0 })
    }

    // Copies a list of entries, or refuses it and leaves the table as it was.
    pub fn load(&mut self, heap: Global, last: u32, entries: &[i32]) -> Result<(), TableFault>
        ensures { MatchResult result (λ _. (well_made last entries.now ≡ true) × (self.new.last ≡ last) × (self.new.entries.items ≡ entries.now)) (λ f. Refuses f last entries.now × (self.new ≡ self.old)) }
    {
        if last > LONGEST_TABLE || entries.len() != count_classes(last) {
            return Err(TableFault::Length);
        }
        let entries = Vec::from_slice(heap, entries)?;
        *self = Table { entries, last };
        Ok(())
    }
}

impl Source for Table {
    type Kind = i64;

    ghost last = { λ t. (table t.last (t.entries.items)).last };

    ghost reply = { λ t. (table t.last (t.entries.items)).cost };

    fn end(&self) -> u32 {
        self.last
    }

    #[tactic(auto, using(crate::proofs::Tables::index_within))]
    fn cost(&self, x: u32, y: u32) -> Option<i64> {
        (x <= y && y <= self.last).then(|| i64::from(self.entries[index_of(x, y)]))
    }
}
