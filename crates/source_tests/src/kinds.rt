// Costs at the ends of their ranges.
use costs::{Kind, Ranked};

fn rank(first: i64, second: i64) -> Ranked {
    Ranked { first, second }
}

#[test]
fn ranked_costs(rt: HostRuntime) {
    assert_eq!(rt; rank(2, 9).plus(rank(2, -4)), rank(4, 5));
    assert!(rt; rank(-1, 100).at_most(rank(0, -100)));
    assert!(rt; !rank(0, -100).at_most(rank(-1, 100)));
    assert!(rt; rank(1, 2).at_most(rank(1, 2)) && !rank(1, 3).at_most(rank(1, 2)));
    assert_eq!(rt; rank(-7, 5).size(), 7);
}

#[test]
fn ends_of_the_range(rt: HostRuntime) {
    assert_eq!(rt; i64::MAX.plus(1), i64::MAX);
    assert_eq!(rt; i64::MIN.plus(-1), i64::MIN);
    assert_eq!(rt; i64::MIN.size(), 9_223_372_036_854_775_808);
}
