// The planner's service: reads a class sheet from a stream or from memory, and writes the lines for it. For programs that answer sheets.
#![tactic(auto)]

mod serving;
mod streams;

pub use serving::{ServeFault, serve};
pub use streams::{LineWriter, SheetReader, Stream};
