ghost use Rattle.std.specs.Prelude.{◌≡◌};
ghost use Rattle.calls.specs.Refusals.{refusal_number, refusal_pair};

// Why a call is refused. A refused call changes neither the job nor the cells that it was lent.
#[derive(Clone, Copy, PartialEq, Eq, Debug)]
pub enum Refusal {
    // the last place is above 4,096
    TooLong,
    // the first class (x, y), the smallest y and then the smallest x, whose cost has a size above the largest
    TooLarge((u32, u32)),
    // the first square (i, j), the smallest j and then the smallest i, that fails
    Broken((u32, u32)),
    // the source vouches for a bound above the largest cost
    BoundTooLarge,
    AlreadyOpen,
    NotOpen,
    // the job has 255 cuts
    Full,
    // the job has no cut to drop
    NoCut,
    // the end lies beyond that of the source
    Beyond,
    // fewer cells were lent than the call needs
    TooFewCells,
}

impl Refusal {
    pub fn number(self) -> u8
        ensures { result ≡ refusal_number self }
    {
        match self {
            Refusal::TooLong => 1,
            Refusal::TooLarge(_) => 2,
            Refusal::Broken(_) => 3,
            Refusal::BoundTooLarge => 4,
            Refusal::AlreadyOpen => 5,
            Refusal::NotOpen => 6,
            Refusal::Full => 7,
            Refusal::NoCut => 8,
            Refusal::Beyond => 9,
            Refusal::TooFewCells => 10,
        }
    }

    // The class or the square at which the opening failed.
    pub fn pair(self) -> Option<(u32, u32)>
        ensures { result ≡ refusal_pair self }
    {
        match self {
            Refusal::TooLarge(class) => Some(class),
            Refusal::Broken(square) => Some(square),
            _ => None,
        }
    }
}
