// Jobs at the limits of costs, ends, cuts and bounds.
use super::*;
use layers::{Joined, Window};
use std::process::Abort;

// 4,097 house counts with the largest bound.
fn dearest(rt: &impl Abort, heap: Global) -> Result<HouseCounts, Fail> {
    let mut counts = vec![in heap; 200_000; 4097]?;
    assert!(rt; counts.len() == 4097);
    counts[0] = 0;
    house(heap, &counts)
}

#[test]
fn largest_costs(rt: HostRuntime) -> Result<(), Fail> {
    let heap = rt.alloc();
    let largest = table(heap, 1, &[1_000_000_000, -1_000_000_000, 0])?;
    let mut job = Job::new(largest);
    assert_eq!(rt; told(job.open_checked()), Ok(()));
    assert_eq!(rt; plan(&job), Some((1, 0, -1_000_000_000, [None; 3])));
    let above = table(heap, 1, &[0, 1_000_000_001, 1_000_000_001])?;
    assert_eq!(rt; refused(Job::new(above).open_checked()), Some((2, 0, 1)));
    let below = table(heap, 1, &[0, 0, -1_000_000_001])?;
    assert_eq!(rt; refused(Job::new(below).open_checked()), Some((2, 1, 1)));
    Ok(())
}

#[test]
fn furthest_end(rt: HostRuntime) -> Result<(), Fail> {
    let heap = rt.alloc();
    let entries = vec![in heap; 1; 8_398_851]?;
    let mut job = Job::new(table(heap, 4097, &entries)?);
    assert_eq!(rt; told(job.open_checked()), Err(1));
    let inner = Window::new(table(heap, 4097, &entries)?, 1, 4097);
    let mut job = Job::new(inner);
    assert_eq!(rt; told(job.open_checked()), Ok(()));
    assert_eq!(rt; plan(&job), Some((4096, 0, 1, [None; 3])));
    Ok(())
}

#[test]
fn most_counts(rt: HostRuntime) -> Result<(), Fail> {
    let heap = rt.alloc();
    let mut cells = vec![in heap; 0; 4097]?;
    let mut job = Job::new(dearest(&rt, heap)?);
    assert_eq!(rt; told(job.open_vouched()), Ok(()));
    assert_eq!(rt; plan(&job), Some((4096, 0, 921_600_000, [None; 3])));
    assert_eq!(rt; told(job.add_cut(&mut cells)), Ok(8194));
    assert_eq!(rt; plan(&job), Some((4096, 1, 400_000, [Some(1), None, None])));
    Ok(())
}

#[test]
fn bounds_above_the_largest(rt: HostRuntime) -> Result<(), Fail> {
    let heap = rt.alloc();
    let mut job = Job::new(Joined::new(dearest(&rt, heap)?, dearest(&rt, heap)?));
    assert_eq!(rt; told(job.open_vouched()), Err(4));
    assert!(rt; plan(&job).is_none());
    assert_eq!(rt; refused(job.open_checked()), Some((2, 0, 2223)));
    Ok(())
}

#[test]
fn most_cuts(rt: HostRuntime) -> Result<(), Fail> {
    let heap = rt.alloc();
    let mut job = opened(&rt, heap)?;
    let mut cells = vec![in heap; 0; 4351]?;
    for _ in 0..255 {
        assert!(rt; job.add_cut(&mut cells).is_ok());
    }
    assert_eq!(rt; told(job.add_cut(&mut cells)), Err(7));
    let view = job.look(255).ok_or("shut")?;
    assert_eq!(rt; (view.end, view.count, view.total), (4, 255, 19));
    assert_eq!(rt; view.cut, Some(2));
    Ok(())
}
