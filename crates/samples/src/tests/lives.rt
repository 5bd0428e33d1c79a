// Calls in every order on one job.
use super::*;

#[test]
fn a_shut_job_refuses(rt: HostRuntime) -> Result<(), Fail> {
    let mut job = Job::new(house(rt.alloc(), &[0, 3])?);
    let mut cells = [5; 9];
    assert_eq!(rt; told(job.add_cut(&mut cells)), Err(6));
    assert_eq!(rt; told(job.drop_cut(&mut cells)), Err(6));
    assert_eq!(rt; told(job.reach(0, &mut cells)), Err(6));
    assert!(rt; plan(&job).is_none());
    assert_eq!(rt; cells, [5; 9]);
    Ok(())
}

#[test]
fn an_open_job_refuses(rt: HostRuntime) -> Result<(), Fail> {
    let mut job = opened(&rt, rt.alloc())?;
    let mut cells = [5; 9];
    assert_eq!(rt; told(job.open_vouched()), Err(5));
    assert_eq!(rt; told(job.open_checked()), Err(5));
    assert_eq!(rt; told(job.drop_cut(&mut cells)), Err(8));
    assert_eq!(rt; told(job.reach(5, &mut cells)), Err(9));
    assert_eq!(rt; cells, [5; 9]);
    assert_eq!(rt; plan(&job), Some((4, 0, 30, [None; 3])));
    Ok(())
}

#[test]
fn a_step_needs_cells(rt: HostRuntime) -> Result<(), Fail> {
    let mut job = opened(&rt, rt.alloc())?;
    let mut few = [5; 5];
    let mut enough = [5; 6];
    assert_eq!(rt; told(job.add_cut(&mut few)), Ok(10));
    assert_eq!(rt; few, [0, 6, 12, 16, 30]);
    assert_eq!(rt; told(job.add_cut(&mut few)), Err(10));
    assert_eq!(rt; few, [0, 6, 12, 16, 30]);
    assert_eq!(rt; plan(&job), Some((4, 1, 21, [Some(1), None, None])));
    assert_eq!(rt; told(job.add_cut(&mut enough)), Ok(15));
    assert_eq!(rt; enough, [0, 6, 6, 9, 10, 21]);
    Ok(())
}

#[test]
fn drops_and_reaches_need_cells(rt: HostRuntime) -> Result<(), Fail> {
    let mut job = opened(&rt, rt.alloc())?;
    let mut cells = [5; 6];
    let mut none: [i64; 0] = [];
    assert_eq!(rt; told(job.add_cut(&mut cells)), Ok(10));
    assert_eq!(rt; told(job.add_cut(&mut cells)), Ok(15));
    assert_eq!(rt; told(job.drop_cut(&mut none)), Err(10));
    assert_eq!(rt; told(job.reach(4, &mut none)), Err(10));
    assert_eq!(rt; plan(&job), Some((4, 2, 19, [Some(1), Some(2), None])));
    Ok(())
}

#[test]
fn no_cuts_fill_no_cells(rt: HostRuntime) -> Result<(), Fail> {
    let mut job = opened(&rt, rt.alloc())?;
    let mut cells = [5; 5];
    assert_eq!(rt; told(job.add_cut(&mut cells)), Ok(10));
    assert_eq!(rt; told(job.drop_cut(&mut cells)), Ok(1));
    assert_eq!(rt; cells, [0, 6, 12, 16, 30]);
    assert_eq!(rt; told(job.reach(2, &mut cells)), Ok(1));
    assert_eq!(rt; cells, [0, 6, 12, 16, 30]);
    assert_eq!(rt; plan(&job), Some((2, 0, 12, [None; 3])));
    Ok(())
}

#[test]
fn down_and_up_again(rt: HostRuntime) -> Result<(), Fail> {
    let mut job = opened(&rt, rt.alloc())?;
    let mut cells = [5; 9];
    assert_eq!(rt; told(job.add_cut(&mut cells)), Ok(10));
    assert_eq!(rt; told(job.add_cut(&mut cells)), Ok(15));
    assert_eq!(rt; told(job.reach(0, &mut cells)), Ok(7));
    assert_eq!(rt; plan(&job), Some((0, 2, 0, [Some(0), Some(0), None])));
    assert_eq!(rt; told(job.reach(4, &mut cells)), Ok(26));
    assert_eq!(rt; plan(&job), Some((4, 2, 19, [Some(1), Some(2), None])));
    assert_eq!(rt; cells, [0, 6, 6, 9, 10, 21, 5, 5, 5]);
    Ok(())
}

#[test]
fn a_refused_opening_leaves_the_job_shut(rt: HostRuntime) -> Result<(), Fail> {
    let mut job = Job::new(table(rt.alloc(), 2, &[0, 3, 0, 5, 3, 0])?);
    assert_eq!(rt; refused(job.open_checked()), Some((3, 0, 1)));
    assert!(rt; plan(&job).is_none());
    assert_eq!(rt; told(job.add_cut(&mut [0; 9])), Err(6));
    Ok(())
}
