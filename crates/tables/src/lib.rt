// Tables: the cost source whose costs are written out in a list. For everybody who plans over a table.
#![tactic(auto)]

mod table;

pub use table::{Table, TableFault};
