// Why the events of a file are not performed.
ghost use Rattle.std.specs.Prelude.{◌≡◌};
ghost use Rattle.sheets.specs.Faults.{of_sheet, of_counts};
ghost use Rattle.sheets.specs.declared.fault.Fault.TheVariants.{Memory};

use decoder::SheetFault;
use houses::HouseFault;
use std::alloc::AllocError;

// The number of the fault that a file has that is no sheet.
const MALFORMED: u8 = 13;

#[derive(Clone, Copy)]
pub enum Fault {
    // the file is turned down; the number of its first fault, and its place or index
    TurnedDown { number: u8, place: u32 },
    Memory,
}

impl From<SheetFault> for Fault {
    ghost from_gives = { λ fault r. r ≡ of_sheet fault };

    fn from(fault: SheetFault) -> Fault {
        match fault {
            SheetFault::Malformed(place) => Fault::TurnedDown {
                number: MALFORMED,
                place,
            },
            SheetFault::Memory => Fault::Memory,
        }
    }
}

impl From<HouseFault> for Fault {
    ghost from_gives = { λ fault r. r ≡ of_counts fault };

    fn from(fault: HouseFault) -> Fault {
        match fault {
            HouseFault::Memory => Fault::Memory,
            _ => Fault::TurnedDown {
                number: fault.number(),
                place: fault.index(),
            },
        }
    }
}

impl From<AllocError> for Fault {
    ghost from_gives = { λ _ r. r ≡ Memory };

    fn from(_e: AllocError) -> Fault {
        Fault::Memory
    }
}
