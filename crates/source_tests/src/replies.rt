// What tables, house counts, layers and squares reply.
use costs::{Kind, Ranked};
use houses::{HouseCounts, HouseFault, price};
use layers::{Joined, Paired, Turned, Window};
use sources::{Source, Vouching, first_broken_square, first_too_large};
use std::alloc::Global;
use std::process::Abort;
use std::test::Fail;
use tables::{Table, TableFault};

// A table with these entries.
fn filled(heap: Global, last: u32, entries: &[i32]) -> Result<Table, Fail> {
    let mut t = Table::new(heap)?;
    t.load(heap, last, entries)?;
    Ok(t)
}

// The source ends at `end`, and these are its costs from 0 to 0, from 0 to 1 and from 1 to 1.
fn answers<S: Source<Kind = i64>>(rt: &impl Abort, source: &S, end: u32, costs: [Option<i64>; 3]) {
    assert_eq!(rt; source.end(), end);
    assert_eq!(rt;
        [source.cost(0, 0), source.cost(0, 1), source.cost(1, 1)],
        costs
    );
}

#[test]
fn tables(rt: HostRuntime) -> Result<(), Fail> {
    let heap = rt.alloc();
    let mut t = Table::new(heap)?;
    answers(&rt, &t, 0, [Some(0), None, None]);
    t.load(heap, 1, &[i32::MIN, i32::MAX, -1])?;
    assert_eq!(rt; t.load(heap, 1, &[0, 0]), Err(TableFault::Length));
    assert_eq!(rt; t.load(heap, 65_536, &[]), Err(TableFault::Length));
    answers(
        &rt,
        &t,
        1,
        [Some(-2_147_483_648), Some(2_147_483_647), Some(-1)],
    );
    Ok(())
}

#[test]
fn windows(rt: HostRuntime) -> Result<(), Fail> {
    let t = filled(rt.alloc(), 2, &[10, 11, 12, 13, 14, 15])?;
    let inner = Window::new(t, 1, 2);
    answers(&rt, &inner, 1, [Some(12), Some(14), Some(15)]);
    let beyond = Window::new(inner, 7, 9);
    answers(&rt, &beyond, 0, [Some(15), None, None]);
    let t = filled(rt.alloc(), 1, &[10, 11, 12])?;
    answers(&rt, &Window::new(t, 1, 0), 0, [Some(12), None, None]);
    Ok(())
}

#[test]
fn two_sources(rt: HostRuntime) -> Result<(), Fail> {
    let heap = rt.alloc();
    let sums = Joined::new(
        filled(heap, 2, &[1, 2, 3, 4, 5, 6])?,
        filled(heap, 1, &[10, 20, 30])?,
    );
    answers(&rt, &sums, 1, [Some(11), Some(22), Some(33)]);
    let pairs = Paired::new(filled(heap, 1, &[1, 2, 2])?, filled(heap, 1, &[9, 8, 7])?);
    let high = pairs.cost(0, 1).ok_or("no class")?;
    let low = pairs.cost(1, 1).ok_or("no class")?;
    assert_eq!(rt;
        high,
        Ranked {
            first: 2,
            second: 8,
        }
    );
    assert!(rt; low.at_most(high) && !high.at_most(low));
    Ok(())
}

#[test]
fn turned_twice(rt: HostRuntime) -> Result<(), Fail> {
    let once = Turned::new(filled(rt.alloc(), 1, &[1, 2, 3])?);
    answers(&rt, &once, 1, [Some(3), Some(2), Some(1)]);
    answers(&rt, &Turned::new(once), 1, [Some(1), Some(2), Some(3)]);
    Ok(())
}

#[test]
fn squares(rt: HostRuntime) -> Result<(), Fail> {
    let heap = rt.alloc();
    assert_eq!(rt;
        first_broken_square(&filled(heap, 2, &[0, 3, 0, 5, 3, 0])?),
        Some((0, 1))
    );
    assert_eq!(rt;
        first_broken_square(&filled(heap, 2, &[0, 3, 0, 6, 3, 0])?),
        None
    );
    assert_eq!(rt;
        first_broken_square(&filled(heap, 2, &[0, 3, 1, 5, 3, 0])?),
        None
    );
    assert_eq!(rt;
        first_too_large(&filled(heap, 1, &[1_000_000_000, -1_000_000_000, 0])?),
        None
    );
    assert_eq!(rt;
        first_too_large(&filled(heap, 1, &[0, 0, 1_000_000_001])?),
        Some((1, 1))
    );
    Ok(())
}

#[test]
fn house_lengths(rt: HostRuntime) -> Result<(), Fail> {
    let heap = rt.alloc();
    let mut house = HouseCounts::new(heap)?;
    assert_eq!(rt;
        (house.end(), house.cost(0, 0), house.cost(0, 1)),
        (0, Some(0), None)
    );
    assert_eq!(rt; house.load(heap, &[]), Err(HouseFault::Length));
    assert_eq!(rt; house.load(heap, &[7]), Ok(()));
    let long = vec![in heap; 7; 4098]?;
    assert!(rt; long.len() == 4098);
    assert_eq!(rt; house.load(heap, &long), Err(HouseFault::Length));
    assert_eq!(rt; house.end(), 0);
    assert_eq!(rt; house.load(heap, &long[0..4097]), Ok(()));
    assert_eq!(rt;
        (house.end(), house.cost(0, 4096), house.bound()),
        (4096, Some(0), 0)
    );
    Ok(())
}

#[test]
fn house_counts(rt: HostRuntime) -> Result<(), Fail> {
    let heap = rt.alloc();
    let mut house = HouseCounts::new(heap)?;
    assert_eq!(rt; house.load(heap, &[0, 200_000]), Ok(()));
    assert_eq!(rt;
        house.load(heap, &[0, 200_001]),
        Err(HouseFault::BadCount(1))
    );
    assert_eq!(rt;
        house.load(heap, &[4, 5, 4, 200_001]),
        Err(HouseFault::BadCount(2))
    );
    assert_eq!(rt; (house.end(), house.cost(0, 1)), (1, Some(400_000)));
    assert_eq!(rt; house.load(heap, &[2, 3, 4, 4, 6]), Ok(()));
    assert_eq!(rt;
        (house.cost(0, 4), house.cost(1, 3), house.cost(3, 1)),
        (Some(20), Some(4), None)
    );
    assert_eq!(rt; house.bound(), 20);
    assert_eq!(rt;
        (price(0), price(8), price(9)),
        (Some(0), Some(9), Some(11))
    );
    assert_eq!(rt; (price(4096), price(4097)), (Some(4608), None));
    Ok(())
}
