// The lines that are printed: one for each event, or one for a sheet that is turned down.
ghost use Rattle.std.specs.Prelude.{◌≡◌, map, IfOk, Some, string_bytes, decimal};
ghost use Rattle.costs.specs.contracts.number.I64Kind.TheImpl.{ghosts as plain};
ghost use Rattle.jobs.specs.Jobs.{recorded_of, moment_of};
ghost use Rattle.printer.specs.Lines.{spaced, mark, reads_field, done, told, faulted};

use calls::Answer;
use decoder::Event;
use jobs::{Moment, Record};
use std::alloc::{AllocError, Global};
use std::fmt;

// The line that is printed for an event, by the record of its call.
pub fn line(heap: Global, event: Event, record: &Record<i64>) -> Result<String, AllocError>
    ensures { IfOk result (λ s. string_bytes s ≡ told event (recorded_of plain «record».now)) }
{
    EventLine { event, record }.to_string(heap)
}

// The line that is printed for a sheet that is turned down.
pub fn fault_line(heap: Global, number: u8, place: u32) -> Result<String, AllocError>
    ensures { IfOk result (λ s. string_bytes s ≡ faulted number place) }
{
    FaultLine { number, place }.to_string(heap)
}

// The line of an event, by the record of its call.
#[derive(Drop)]
struct EventLine<'a> {
    event: Event,
    record: &'a Record<i64>,
}

impl fmt::Display for EventLine<'_> {
    ghost output = { λ l. Some (told l.event (recorded_of plain l.«record».now)) };

    fn fmt<W: fmt::Write>(&self, f: &mut fmt::Formatter<W>) -> fmt::Result {
        let EventLine { event, record } = *self;
        let done = |reads| DoneLine {
            event,
            reads,
            moment: &record.moment,
        };
        match record.answer {
            Err(refusal) => writeln!(f, "{} {}", Mark(event), refusal.number()),
            Ok(Answer::Accepted) => done(None).fmt(f),
            Ok(Answer::Counted(reads)) => done(Some(reads)).fmt(f),
            Ok(Answer::Looked(_)) => Ok(()),
        }
    }
}

// The line of an event that was done. A shut job has none.
#[derive(Drop)]
struct DoneLine<'a> {
    event: Event,
    reads: Option<u64>,
    moment: &'a Option<Moment<i64>>,
}

impl fmt::Display for DoneLine<'_> {
    ghost output = { λ d. Some (done d.event d.reads (moment_of plain d.moment.now)) };

    fn fmt<W: fmt::Write>(&self, f: &mut fmt::Formatter<W>) -> fmt::Result {
        let Some(Moment { end, cuts, total }) = self.moment else {
            return Ok(());
        };
        let mark = Mark(self.event);
        let reads = Reads(self.reads);
        let places = cuts.places();
        let used = places.len();
        let cuts = Spaced(places);
        writeln!(f, "{mark} 0 {end} {used} {total} {reads}{cuts}")
    }
}

// The line of a sheet that is turned down.
#[derive(Drop)]
struct FaultLine {
    number: u8,
    place: u32,
}

impl fmt::Display for FaultLine {
    ghost output = { λ l. Some (faulted l.number l.place) };

    fn fmt<W: fmt::Write>(&self, f: &mut fmt::Formatter<W>) -> fmt::Result {
        let FaultLine { number, place } = *self;
        writeln!(f, "SHEET {number} {place}")
    }
}

// The mark of an event, as a sheet has it.
#[derive(Drop)]
struct Mark(Event);

impl fmt::Display for Mark {
    ghost output = { λ m. Some (mark m.0) };

    fn fmt<W: fmt::Write>(&self, f: &mut fmt::Formatter<W>) -> fmt::Result {
        f.write_str(match self.0 {
            Event::Open => "OP",
            Event::Add => "AD",
            Event::Drop => "DR",
            Event::Reach(_) => "RE",
        })
    }
}

// The number of reads, or a dash.
#[derive(Drop)]
struct Reads(Option<u64>);

impl fmt::Display for Reads {
    ghost output = { λ r. Some (reads_field r.0) };

    fn fmt<W: fmt::Write>(&self, f: &mut fmt::Formatter<W>) -> fmt::Result {
        match self.0 {
            Some(count) => write!(f, "{count}"),
            None => write!(f, "-"),
        }
    }
}

// Numbers, each behind a space.
#[derive(Drop)]
struct Spaced<'a>(&'a [u32]);

impl fmt::Display for Spaced<'_> {
    ghost output = { λ s. Some (spaced (map decimal s.0.now)) };

    fn fmt<W: fmt::Write>(&self, f: &mut fmt::Formatter<W>) -> fmt::Result {
        for number in self.0 {
            write!(f, " {number}")?;
        }
        Ok(())
    }
}
