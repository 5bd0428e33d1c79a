// The printer of class sheets: the line for each event, by the record of its call, and for a sheet that is turned down. For everybody who prints lines.
#![tactic(auto)]

mod lines;

pub use lines::{fault_line, line};
