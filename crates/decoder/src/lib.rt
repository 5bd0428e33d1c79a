// The decoder of class sheets: from the bytes of a file to its counts and events, or the place of its first fault. For everybody who reads sheets.
#![tactic(auto)]

mod decoding;
mod record;
mod sheet;

pub use decoding::decode;
pub use sheet::{Event, Sheet, SheetFault};
