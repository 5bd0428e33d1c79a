// What a class sheet holds, and why it can be turned down.
ghost use Rattle.std.specs.Prelude.{◌≡◌};
ghost use Rattle.decoder.specs.declared.sheet.SheetFault.TheVariants.{Memory};

use std::alloc::{AllocError, AllocFailed};

#[derive(Clone, Copy, Debug, PartialEq)]
pub enum Event {
    Open,
    Add,
    Drop,
    Reach(u16),
}

#[derive(Debug, Drop)]
pub struct Sheet {
    pub counts: Vec<u32>,
    pub events: Vec<Event>,
}

#[derive(Clone, Copy, Debug, PartialEq)]
pub enum SheetFault {
    // the bytes are no sheet; the place of the first fault
    Malformed(u32),
    // there is not memory enough for the sheet
    Memory,
}

impl From<AllocError> for SheetFault {
    ghost from_gives = { λ _ r. r ≡ Memory };

    fn from(_e: AllocError) -> SheetFault {
        SheetFault::Memory
    }
}

impl<T: Drop> From<AllocFailed<T>> for SheetFault {
    ghost from_gives = { λ _ r. r ≡ Memory };

    fn from(_e: AllocFailed<T>) -> SheetFault {
        SheetFault::Memory
    }
}
