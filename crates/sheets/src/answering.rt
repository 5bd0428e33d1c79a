// From the bytes of a file to the text that is printed for it.
ghost use Rattle.std.specs.Prelude.{IfOk, MatchResult, string_bytes};
ghost use Rattle.sheets.specs.Faults.{Has};
ghost use Rattle.sheets.specs.Printed.{Prints};
ghost use Rattle.decoder.specs.Sheets.{sheet as meaning};

use crate::fault::Fault;
use crate::performing::perform;
use decoder::decode;
use houses::HouseCounts;
use printer::fault_line;
use std::alloc::{AllocError, Global};

// The text that is printed for the bytes of a file. There is none only for want of memory.
pub fn answer(heap: Global, bytes: &[u8]) -> Result<String, AllocError>
    ensures { IfOk result (λ text. Prints (meaning bytes.now) (string_bytes text)) }
{
    match event_lines(heap, bytes) {
        Ok(text) => Ok(text),
        Err(Fault::TurnedDown { number, place }) => fault_line(heap, number, place),
        Err(Fault::Memory) => Err(AllocError),
    }
}

// The lines of a sheet that is not turned down: its counts are loaded, and its events performed over them.
fn event_lines(heap: Global, bytes: &[u8]) -> Result<String, Fault>
    ensures { MatchResult result (λ text. Prints (meaning bytes.now) (string_bytes text)) (λ fault. Has (meaning bytes.now) fault) }
{
    let sheet = decode(heap, bytes)?;
    let mut counts = HouseCounts::new(heap)?;
    counts.load(heap, &sheet.counts)?;
    Ok(perform(heap, counts, &sheet.events)?)
}
