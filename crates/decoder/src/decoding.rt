// From the bytes of a file to a sheet. All bytes are checked before memory is asked for, so a file that is no sheet is always told apart.
ghost use Rattle.std.specs.Prelude.{◌≡◌, ◌≤◌, [], length, IfOk, Ok, Err, MatchResult, not};
ghost use Rattle.std.specs.List.{filter_map, sum_by, take_while};
ghost use Rattle.decoder.specs.Faults.{Answers};
ghost use Rattle.decoder.specs.Records.{width, is_count, count_of, event_of, records};
ghost use Rattle.decoder.specs.Sheets.{read, sheet, BeforeFault, Faultless};

use crate::record::{Record, Records};
use crate::sheet::{Event, Sheet, SheetFault};
use std::alloc::{AllocError, Global};

// The most bytes that a sheet may have.
const LIMIT: usize = 32_768;

// The sheet that the bytes hold.
pub fn decode(heap: Global, bytes: &[u8]) -> Result<Sheet, SheetFault>
    ensures { Answers result (sheet bytes.now) }
{
    check(bytes).map_err(SheetFault::Malformed)?;
    Ok(sheet_of(heap, bytes)?)
}

// Refuses bytes that are no sheet, with the place of their first fault.
fn check(bytes: &[u8]) -> Result<(), u32>
    ensures { MatchResult result (λ _. Faultless (sheet bytes.now)) (λ p. sheet bytes.now ≡ Err p) }
{
    let front = &bytes[..bytes.len().min(LIMIT)];
    let len = len_before_fault(front);
    if len < bytes.len() {
        return Err(len as u32);
    }
    Ok(())
}

// How many bytes stand before the first record that is unknown, cut, or a count behind an event.
fn len_before_fault(bytes: &[u8]) -> usize
    ensures { BeforeFault result (length bytes.now) (read [] [] 0 0 bytes.now) }
{
    let counts = len_of_counts(bytes);
    counts + len_of_events(&bytes[counts..])
}

// How many bytes the counts at the front take.
fn len_of_counts(bytes: &[u8]) -> usize
    ensures total { result ≡ sum_by width (take_while is_count (records 0 bytes.now)) }
    ensures within { result ≤ length bytes.now }
{
    Records(bytes)
        .take_while(|record| record.is_count())
        .map(|record| record.width())
        .sum()
}

// How many bytes the events at the front take.
fn len_of_events(bytes: &[u8]) -> usize
    ensures total { result ≡ sum_by width (take_while (λ r. not (is_count r)) (records 0 bytes.now)) }
    ensures within { result ≤ length bytes.now }
{
    Records(bytes)
        .take_while(|record| !record.is_count())
        .map(|record| record.width())
        .sum()
}

// The counts at the front, and the events among the records. The events are looked for behind those counts, so that no count is read again.
fn sheet_of(heap: Global, bytes: &[u8]) -> Result<Sheet, AllocError>
    ensures { IfOk result (λ s. (s.counts.items ≡ filter_map count_of (take_while is_count (records 0 bytes.now))) × (s.events.items ≡ filter_map event_of (records 0 bytes.now))) }
{
    let counts = leading_counts(heap, bytes)?;
    let counts_len = counts.len() * Record::Count(0).width();
    let events = events_of(heap, &bytes[counts_len..])?;
    Ok(Sheet { counts, events })
}

// The counts at the front.
fn leading_counts(heap: Global, bytes: &[u8]) -> Result<Vec<u32>, AllocError>
    ensures { IfOk result (λ v. v.items ≡ filter_map count_of (take_while is_count (records 0 bytes.now))) }
{
    Records(bytes)
        .take_while(|record| record.is_count())
        .filter_map(|record| record.count())
        .collect(heap)
}

// The events among the records.
fn events_of(heap: Global, bytes: &[u8]) -> Result<Vec<Event>, AllocError>
    ensures { IfOk result (λ v. v.items ≡ filter_map event_of (records 0 bytes.now)) }
{
    Records(bytes)
        .filter_map(|record| record.event())
        .collect(heap)
}
