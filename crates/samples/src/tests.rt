// Lives of jobs, call by call: what the tests share.
use calls::Refusal;
use houses::HouseCounts;
use jobs::Job;
use sources::Source;
use std::alloc::Global;
use std::process::Abort;
use std::test::Fail;
use tables::Table;

mod layered;
mod limits;
mod lives;
mod runs;

fn house(heap: Global, counts: &[u32]) -> Result<HouseCounts, Fail> {
    let mut house = HouseCounts::new(heap)?;
    house.load(heap, counts)?;
    Ok(house)
}

fn table(heap: Global, last: u32, entries: &[i32]) -> Result<Table, Fail> {
    let mut table = Table::new(heap)?;
    table.load(heap, last, entries)?;
    Ok(table)
}

// An open job over the house counts 0, 3, 4, 4, 6.
fn opened(rt: &impl Abort, heap: Global) -> Result<Job<HouseCounts>, Fail> {
    let mut job = Job::new(house(heap, &[0, 3, 4, 4, 6])?);
    assert_eq!(rt; told(job.open_vouched()), Ok(()));
    Ok(job)
}

// A refusal by its number.
fn told<T>(res: Result<T, Refusal>) -> Result<T, u8> {
    res.map_err(Refusal::number)
}

// The number of a refusal and the places that it gives.
fn refused(res: Result<(), Refusal>) -> Option<(u8, u32, u32)> {
    let refusal = res.err()?;
    let (x, y) = refusal.pair()?;
    Some((refusal.number(), x, y))
}

// The end, the number of cuts, the total and the first three cuts of an open job.
fn plan<S: Source>(job: &Job<S>) -> Option<(u32, u32, S::Kind, [Option<u32>; 3])> {
    let view = job.look(1)?;
    let cuts = [view.cut, job.look(2)?.cut, job.look(3)?.cut];
    Some((view.end, view.count, view.total, cuts))
}
