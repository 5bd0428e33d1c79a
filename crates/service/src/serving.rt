// From the bytes that are read to the lines that are written for them.
ghost use Rattle.std.specs.Prelude.{◌≡◌};
ghost use Rattle.service.specs.declared.serving.ServeFault.TheVariants.{Memory};
ghost use Rattle.service.specs.Served.{Outcome};

use crate::streams::{LineWriter, SheetReader};
use sheets::answer;
use std::alloc::{AllocError, Global};
use std::io;
use thiserror::Error;

// One byte more than a sheet may have, so that a file that is too long is seen to be.
const MOST_BYTES: usize = 32_769;

// Why the lines of a sheet were not written.
#[derive(Clone, Copy, Debug, Error)]
pub enum ServeFault {
    #[error("cannot read the sheet: {0}")]
    Reading(io::Error),
    #[error("not enough memory")]
    Memory,
    #[error("cannot write the lines: {0}")]
    Writing(io::Error),
}

impl From<AllocError> for ServeFault {
    ghost from_gives = { λ _ r. r ≡ Memory };

    fn from(_e: AllocError) -> ServeFault {
        ServeFault::Memory
    }
}

// Reads a sheet and writes the lines for it. Of a file that is too long only the front is read, and the lines are those for all of it.
pub fn serve<R: SheetReader, W: LineWriter>(
    heap: Global,
    reader: R,
    writer: &mut W,
) -> Result<(), ServeFault>
    ensures { Outcome (R.gives reader) W.took writer.old writer.new result }
{
    let bytes = reader
        .read_at_most(heap, MOST_BYTES)
        .map_err(ServeFault::Reading)?;
    let text = answer(heap, &bytes)?;
    writer
        .write_whole(text.as_bytes())
        .map_err(ServeFault::Writing)
}
