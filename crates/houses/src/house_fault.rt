ghost use Rattle.std.specs.Prelude.{◌≡◌};
ghost use Rattle.houses.specs.HouseLoads.{fault_number, fault_index};
ghost use Rattle.houses.specs.declared.house_fault.HouseFault.TheVariants.{Memory};

use std::alloc::AllocError;

// Why a list is not loaded as house counts.
#[derive(Clone, Copy, PartialEq, Eq, Debug)]
pub enum HouseFault {
    // the list is empty or longer than 4,097
    Length,
    // the first index whose count falls or is above 200,000
    BadCount(u32),
    Memory,
}

impl HouseFault {
    pub fn number(self) -> u8
        ensures { result ≡ fault_number self }
    {
        match self {
            Self::Length => 11,
            Self::BadCount(_) => 12,
            Self::Memory => 99,
        }
    }

    // The index of the bad count, and 0 where the fault has none.
    pub fn index(self) -> u32
        ensures { result ≡ fault_index self }
    {
        match self {
            Self::BadCount(index) => index,
            Self::Length | Self::Memory => 0,
        }
    }
}

impl From<AllocError> for HouseFault {
    ghost from_gives = { λ _ r. r ≡ Memory };

    fn from(_e: AllocError) -> HouseFault {
        HouseFault::Memory
    }
}
