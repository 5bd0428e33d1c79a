// The events of a sheet, performed one after another by one job over its counts.
ghost use Rattle.std.specs.Prelude.{◌≡◌, map, IfOk, string_bytes};
ghost use Rattle.costs.specs.contracts.number.I64Kind.TheImpl.{ghosts as plain};
ghost use Rattle.jobs.specs.Jobs.{recorded_of};
ghost use Rattle.sheets.specs.Printed.{call_of, lines, Performed};

use calls::Call;
use decoder::Event;
use houses::HouseCounts;
use jobs::{Job, Record};
use printer::line;
use std::alloc::{AllocError, Global};

// Enough cells for 255 cuts at the end 4,096.
const CELLS: usize = 4_351;

// The lines of the events.
pub fn perform(heap: Global, counts: HouseCounts, events: &[Event]) -> Result<String, AllocError>
    ensures { IfOk result (λ s. Performed counts events.now (string_bytes s)) }
{
    let calls = calls_of(heap, events)?;
    let mut cells = vec![in heap; 0i64; CELLS]?;
    let mut job = Job::new(counts);
    let records = job.run(heap, &calls, &mut cells)?;
    lines_text(heap, events, &records)
}

// The call of each event.
fn calls_of(heap: Global, events: &[Event]) -> Result<Vec<Call>, AllocError>
    ensures { IfOk result (λ v. v.items ≡ map call_of events.now) }
{
    events
        .iter()
        .map(|event| performing_call(*event))
        .collect(heap)
}

// The call that performs an event. Neither type is of this crate, so this is no `From`.
fn performing_call(event: Event) -> Call
    ensures { result ≡ call_of event }
{
    match event {
        Event::Open => Call::OpenVouched,
        Event::Add => Call::Add,
        Event::Drop => Call::Drop,
        Event::Reach(end) => Call::Reach(u32::from(end)),
    }
}

// The line of each event, by its record.
fn lines_text(heap: Global, events: &[Event], records: &[Record<i64>]) -> Result<String, AllocError>
    ensures { IfOk result (λ s. string_bytes s ≡ lines events.now (map (recorded_of plain) records.now)) }
{
    events
        .iter()
        .zip(records)
        .map(|(event, record)| line(heap, *event, record))
        .try_collect(heap)
}
