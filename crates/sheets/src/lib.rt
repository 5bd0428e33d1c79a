// Class sheets: the events of a sheet performed over its counts, and the text that is printed for it. For everybody who answers sheets.
#![tactic(auto)]

mod answering;
mod fault;
mod performing;
#[cfg(test)]
mod tests;

pub use answering::answer;
pub use decoder::{Event, Sheet, SheetFault, decode};
pub use printer::{fault_line, line};
