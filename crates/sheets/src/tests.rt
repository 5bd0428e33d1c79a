// Sheets at the edges of the format, and the text for them.
use crate::answering::answer;
use decoder::{Event, SheetFault, decode};
use std::alloc::{AllocError, Global};
use std::iter;
use std::process::Abort;
use std::test::Fail;

fn check_fault(rt: &impl Abort, heap: Global, bytes: &[u8], place: u32) {
    assert_eq!(rt;
        decode(heap, bytes).err(),
        Some(SheetFault::Malformed(place))
    );
}

// `record` so many times, and `more` behind it.
fn repeated(heap: Global, record: &[u8], times: usize, more: &[u8]) -> Result<Vec<u8>, AllocError> {
    iter::repeat_n(record, times)
        .flatten()
        .chain(more)
        .copied()
        .collect(heap)
}

#[test]
fn reads_counts_and_events(rt: HostRuntime) -> Result<(), Fail> {
    let bytes = b"CT\x00\x00\x00\x00CT\x00\x00\x00\x03CT\x00\x01\x02\x03OPADDRRE\x01\x02";
    let sheet = decode(rt.alloc(), bytes)?;
    assert_eq!(rt; sheet.counts.as_slice(), [0, 3, 0x0001_0203].as_slice());
    assert_eq!(rt;
        sheet.events.as_slice(),
        [Event::Open, Event::Add, Event::Drop, Event::Reach(258)].as_slice()
    );
    Ok(())
}

#[test]
fn reads_sheets_of_0_and_32768_bytes(rt: HostRuntime) -> Result<(), Fail> {
    let heap = rt.alloc();
    let empty = decode(heap, b"")?;
    assert!(rt; empty.counts.is_empty() && empty.events.is_empty());
    let full = decode(heap, &repeated(heap, b"OP", 16_384, b"")?)?;
    assert_eq!(rt; full.events.len(), 16_384);
    Ok(())
}

#[test]
fn refuses_longer_files(rt: HostRuntime) -> Result<(), Fail> {
    let heap = rt.alloc();
    check_fault(&rt, heap, &repeated(heap, b"OP", 16_384, b"O")?, 32_768);
    check_fault(&rt, heap, &repeated(heap, b"OP", 16_384, b"OP")?, 32_768);
    // the last record would end behind the limit
    check_fault(
        &rt,
        heap,
        &repeated(heap, b"CT\x00\x00\x00\x01", 5_461, b"RE\x00\x01")?,
        32_766,
    );
    Ok(())
}

#[test]
fn refuses_the_first_fault(rt: HostRuntime) {
    let heap = rt.alloc();
    check_fault(&rt, heap, b"OPAE", 2);
    check_fault(&rt, heap, b"OPA", 2);
    check_fault(&rt, heap, b"CT\x00\x00\x00", 0);
    check_fault(&rt, heap, b"OPRE\x00", 2);
    check_fault(&rt, heap, b"CT\x00\x00\x00\x00OPCT\x00\x00\x00\x00AD", 8);
    check_fault(&rt, heap, b"OPCT\x00\x00\x00\x00??", 2);
    check_fault(&rt, heap, b"OP??CT\x00\x00\x00\x00", 2);
}

fn check_answer(rt: &impl Abort, heap: Global, bytes: &[u8], text: &str) -> Result<(), Fail> {
    assert_eq!(rt; answer(heap, bytes)?.as_str(), text);
    Ok(())
}

#[test]
fn turns_bad_sheets_down(rt: HostRuntime) -> Result<(), Fail> {
    let heap = rt.alloc();
    check_answer(&rt, heap, b"OPAE", "SHEET 13 2\n")?;
    check_answer(&rt, heap, b"OP", "SHEET 11 0\n")?;
    check_answer(
        &rt,
        heap,
        b"CT\x00\x00\x00\x01CT\x00\x00\x00\x02CT\x00\x00\x00\x01OP",
        "SHEET 12 2\n",
    )?;
    // a record at fault goes before a bad count
    check_answer(&rt, heap, b"CT\xFF\x00\x00\x00??", "SHEET 13 6\n")
}

#[test]
fn refuses_events(rt: HostRuntime) -> Result<(), Fail> {
    let heap = rt.alloc();
    check_answer(&rt, heap, b"CT\x00\x00\x00\x07", "")?;
    check_answer(
        &rt,
        heap,
        b"CT\x00\x00\x00\x07ADOPOPDRRE\x00\x01",
        "AD 6\nOP 0 0 0 0 -\nOP 5\nDR 8\nRE 9\n",
    )
}

#[test]
fn performs_events(rt: HostRuntime) -> Result<(), Fail> {
    check_answer(
        &rt,
        rt.alloc(),
        b"CT\x00\x00\x00\x00CT\x00\x00\x00\x03CT\x00\x00\x00\x04CT\x00\x00\x00\x04CT\x00\x00\x00\x06OPADADADDRRE\x00\x03",
        "OP 0 4 0 30 -\nAD 0 4 1 21 10 1\nAD 0 4 2 19 15 1 2\nAD 0 4 3 19 18 0 1 2\nDR 0 4 2 19 26 1 2\nRE 0 3 2 9 21 1 2\n",
    )
}
