// Lists of calls, and the records of them.
use super::*;
use calls::{Answer, Call};
use jobs::Record;

// The number of a refusal, and 0 for any other answer.
fn number(record: &Record<i64>) -> u8 {
    record.answer.err().map_or(0, Refusal::number)
}

// The reads that a call answered, where it did.
fn reads(record: &Record<i64>) -> Option<u64> {
    match record.answer {
        Ok(Answer::Counted(reads)) => Some(reads),
        _ => None,
    }
}

// The end and the total right after a call, where the job was open.
fn moment(record: &Record<i64>) -> Option<(u32, i64)> {
    record
        .moment
        .as_ref()
        .map(|moment| (moment.end, moment.total))
}

#[test]
fn a_table_does_not_vouch(rt: HostRuntime) -> Result<(), Fail> {
    let heap = rt.alloc();
    let mut job = Job::new(table(heap, 0, &[7])?);
    let calls = [Call::OpenVouched, Call::OpenChecked, Call::Add];
    let records = job.run_checked(heap, &calls, &mut [0; 1])?;
    assert!(rt; records.len() == 3);
    assert_eq!(rt; number(&records[0]), 4);
    assert!(rt; moment(&records[0]).is_none());
    assert_eq!(rt; moment(&records[1]), Some((0, 7)));
    assert_eq!(rt;
        (reads(&records[2]), moment(&records[2])),
        (Some(2), Some((0, 14)))
    );
    Ok(())
}

#[test]
fn a_life_in_one_run(rt: HostRuntime) -> Result<(), Fail> {
    let heap = rt.alloc();
    let mut job = Job::new(house(heap, &[0, 3, 4, 4, 6])?);
    let calls = [Call::OpenVouched, Call::Add, Call::Drop, Call::Reach(3)];
    let records = job.run(heap, &calls, &mut [0; 9])?;
    assert!(rt; records.len() == 4);
    assert_eq!(rt; moment(&records[0]), Some((4, 30)));
    assert_eq!(rt; reads(&records[1]), Some(10));
    assert_eq!(rt; moment(&records[1]), Some((4, 21)));
    assert_eq!(rt; moment(&records[2]), Some((4, 30)));
    assert_eq!(rt; moment(&records[3]), Some((3, 16)));
    assert_eq!(rt; plan(&job), Some((3, 0, 16, [None; 3])));
    Ok(())
}

#[test]
fn the_length_goes_before_the_bound(rt: HostRuntime) -> Result<(), Fail> {
    let heap = rt.alloc();
    let entries = vec![in heap; 0; 8_398_851]?;
    let mut job = Job::new(table(heap, 4097, &entries)?);
    let calls = [Call::OpenVouched, Call::Look(1)];
    let records = job.run_checked(heap, &calls, &mut [0; 1])?;
    assert!(rt; records.len() == 2);
    assert_eq!(rt; number(&records[0]), 1);
    assert_eq!(rt; (number(&records[1]), moment(&records[1])), (0, None));
    Ok(())
}
