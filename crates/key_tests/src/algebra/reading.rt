use crate::expecting::{expect_answer, expect_range};
use range_algebra::any::AnyRange;
use range_algebra::range::{
    AsRange, IntoRange, RangeFromExcluded, RangeFromExcludedTo, RangeFromExcludedToIncluded,
};
use std::ops::{Bound, RangeBounds};

fn between(first: i32, end: i32) -> AnyRange<i32> {
    AnyRange::new(Bound::Included(first), Bound::Excluded(end))
}

fn through(first: i32, last: i32) -> AnyRange<i32> {
    AnyRange::new(Bound::Included(first), Bound::Included(last))
}

fn from(first: i32) -> AnyRange<i32> {
    AnyRange::new(Bound::Included(first), Bound::Unbounded)
}

fn to(end: Bound<i32>) -> AnyRange<i32> {
    AnyRange::new(Bound::Unbounded, end)
}

#[test]
fn reads_ranges(rt: HostRuntime) {
    expect_range(&rt, "3..5", (3i32..5).into_range(), between(3, 5));
    expect_range(&rt, "3..=5", (3i32..=5).into_range(), through(3, 5));
    expect_range(&rt, "3..", (3i32..).into_range(), from(3));
    expect_range(&rt, "..5", (..5i32).into_range(), to(Bound::Excluded(5)));
    expect_range(&rt, "..=5", (..=5i32).into_range(), to(Bound::Included(5)));
}

#[test]
fn reads_excluded_starts(rt: HostRuntime) {
    let (above, below) = (RangeFromExcluded::new(3), RangeFromExcludedTo::new(3, 6));
    let closed = RangeFromExcludedToIncluded::new(3, 6);
    expect_answer(&rt, "3 in 3...6", below.contains(&3), false);
    expect_answer(&rt, "4 in 3...", above.contains(&4), true);
    expect_answer(&rt, "6 in 3...=6", closed.contains(&6), true);
    expect_range(&rt, "3...", above.into_range(), (4i32..).into_range());
    expect_range(&rt, "3...6", below.into_range(), (4i32..=5).into_range());
    expect_range(&rt, "3...=6", closed.into_range(), (4i32..=6).into_range());
}

/// Whether what is read as a range holds a key.
fn holds<R: AsRange<Item = i32>>(range: R, key: i32) -> bool {
    range.intersects(&key)
}

#[test]
fn reads_ranges_behind_references(rt: HostRuntime) {
    let range = through(3, 5);
    expect_answer(&rt, "5 in &(3..=5)", holds(&range, 5), true);
    expect_answer(&rt, "5 in &(3..5)", holds(&(3..5), 5), false);
    expect_answer(&rt, "5 in &&(3..)", holds(&&(3..), 5), true);
    expect_range(&rt, "&(3..=5)", (&range).into_range(), range);
}

#[test]
fn reads_keys(rt: HostRuntime) {
    expect_answer(&rt, "4 in 0..5", 4u8.intersects(&(0..5)), true);
    expect_range(&rt, "4", 4i32.into_range(), through(4, 4));
}

/// Whether these are the bounds of a range, as they were given.
fn has_bounds(range: AnyRange<i32>, first: Bound<i32>, end: Bound<i32>) -> bool {
    range.into_bounds() == (first, end)
}

#[test]
fn converts_ranges(rt: HostRuntime) {
    let full = AnyRange::new(Bound::Unbounded, Bound::Unbounded);
    expect_range(&rt, "..", (..).into(), full);
    expect_range(&rt, "3..5", (3..5).into(), (3..5).into_range());
    expect_range(&rt, "3..=5", (3..=5).into(), (3..=5).into_range());
    expect_range(&rt, "3..", (3..).into(), (3..).into_range());
    expect_range(&rt, "..5", (..5).into(), (..5).into_range());
    expect_range(&rt, "..=5", (..=5).into(), (..=5).into_range());
    assert!(rt; has_bounds((3..5).into(), Bound::Included(3), Bound::Excluded(5)));
}

#[test]
fn copies_ranges(rt: HostRuntime) {
    assert!(rt; AnyRange::<i32>::from(3..5) == Ok(between(3, 5)));
    let cloned: Result<_, _> = between(3, 5).clone();
    assert!(rt; cloned == Ok(between(3, 5)));
}
