// Jobs over sources that stand on others.
use super::*;
use costs::Ranked;
use layers::{Joined, Paired, Turned, Window};
use sources::Vouching;

// Opens a job over the source, and adds a cut and then another.
fn grown<S: Vouching + Drop>(source: S, cells: &mut [S::Kind]) -> Result<Job<S>, u8> {
    let mut job = Job::new(source);
    told(job.open_vouched())?;
    told(job.add_cut(cells))?;
    told(job.add_cut(cells))?;
    Ok(job)
}

fn sample(heap: Global) -> Result<HouseCounts, Fail> {
    house(heap, &[0, 3, 4, 4, 6])
}

#[test]
fn joined(rt: HostRuntime) -> Result<(), Fail> {
    let heap = rt.alloc();
    let job = grown(Joined::new(sample(heap)?, sample(heap)?), &mut [0; 9])?;
    assert_eq!(rt; plan(&job), Some((4, 2, 38, [Some(1), Some(2), None])));
    Ok(())
}

#[test]
fn windows(rt: HostRuntime) -> Result<(), Fail> {
    let job = grown(Window::new(sample(rt.alloc())?, 0, 3), &mut [0; 9])?;
    assert_eq!(rt; plan(&job), Some((3, 2, 9, [Some(1), Some(2), None])));
    Ok(())
}

#[test]
fn turned(rt: HostRuntime) -> Result<(), Fail> {
    let job = grown(Turned::new(sample(rt.alloc())?), &mut [0; 9])?;
    assert_eq!(rt; plan(&job), Some((4, 2, 19, [Some(2), Some(3), None])));
    Ok(())
}

#[test]
fn paired(rt: HostRuntime) -> Result<(), Fail> {
    let heap = rt.alloc();
    let zero = Ranked {
        first: 0,
        second: 0,
    };
    let source = Paired::new(sample(heap)?, sample(heap)?);
    let job = grown(source, &mut [zero; 9])?;
    let total = Ranked {
        first: 19,
        second: 19,
    };
    assert_eq!(rt; plan(&job), Some((4, 2, total, [Some(1), Some(2), None])));
    Ok(())
}

#[test]
fn end_zero(rt: HostRuntime) -> Result<(), Fail> {
    let job = grown(house(rt.alloc(), &[7])?, &mut [5; 2])?;
    assert_eq!(rt; plan(&job), Some((0, 2, 0, [Some(0), Some(0), None])));
    Ok(())
}
