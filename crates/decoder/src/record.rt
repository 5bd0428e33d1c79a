// The records of a sheet: each a two-byte mark and what belongs to it.
ghost use Rattle.std.specs.Prelude.{◌≡◌, ◌+◌, length, drop, Some, None, MatchOption};
ghost use Rattle.std.specs.Iterator.{item_count, YieldsFirst};
ghost use Rattle.decoder.specs.Records.{front, width, count_of, event_of, is_count, records};

use crate::sheet::Event;

#[derive(Clone, Copy)]
pub enum Record {
    Count(u32),
    Event(Event),
}

impl Record {
    pub(crate) fn is_count(&self) -> bool
        ensures { result ≡ is_count self.now }
    {
        matches!(self, Record::Count(_))
    }

    pub(crate) fn count(self) -> Option<u32>
        ensures { result ≡ count_of self }
    {
        match self {
            Record::Count(count) => Some(count),
            Record::Event(_) => None,
        }
    }

    pub(crate) fn event(self) -> Option<Event>
        ensures { result ≡ event_of self }
    {
        match self {
            Record::Event(event) => Some(event),
            Record::Count(_) => None,
        }
    }

    // How many bytes it takes.
    pub(crate) fn width(self) -> usize
        ensures { result ≡ width self }
    {
        match self {
            Record::Count(_) => 6,
            Record::Event(Event::Reach(_)) => 4,
            Record::Event(_) => 2,
        }
    }
}

// The records that the bytes begin with, up to the first that is unknown or cut.
#[derive(Drop)]
pub struct Records<'a>(pub &'a [u8]);

impl Iterator for Records<'_> {
    type Item = Record;

    ghost next_gives = { YieldsFirst (λ s. records 0 s.0.now) };

    ghost remaining = { item_count (λ s. records 0 s.0.now) };

    fn next(&mut self) -> Option<Record> {
        let (record, rest) = first_record(self.0)?;
        self.0 = rest;
        Some(record)
    }
}

// The record that the bytes begin with, and the bytes behind it; nothing where the mark is unknown or the record is cut.
fn first_record(bytes: &[u8]) -> Option<(Record, &[u8])>
    ensures { MatchOption result (front bytes.now ≡ None) (λ x. (front bytes.now ≡ Some x.0) × (x.1.now ≡ drop (width x.0) bytes.now) × (length x.1.now + width x.0 ≡ length bytes.now)) }
{
    match bytes {
        [b'C', b'T', a, b, c, d, rest @ ..] => Some((
            Record::Count(u32::from_be_bytes([*a, *b, *c, *d])),
            rest,
        )),
        [b'O', b'P', rest @ ..] => Some((Record::Event(Event::Open), rest)),
        [b'A', b'D', rest @ ..] => Some((Record::Event(Event::Add), rest)),
        [b'D', b'R', rest @ ..] => Some((Record::Event(Event::Drop), rest)),
        [b'R', b'E', a, b, rest @ ..] => Some((
            Record::Event(Event::Reach(u16::from_be_bytes([*a, *b]))),
            rest,
        )),
        _ => None,
    }
}
