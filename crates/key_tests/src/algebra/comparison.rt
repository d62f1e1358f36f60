use crate::expecting::expect_answer;
use range_algebra::any::AnyRange;
use range_algebra::ordering::{RangeOrdering, RangePartialOrd};
use range_algebra::range::{AsRange, RangeFromExcludedTo};
use std::hash::{DefaultHasher, Hash, Hasher};
use std::ops::Bound;

fn hash_of(range: &AnyRange<u8>) -> u64 {
    let mut state = DefaultHasher::new();
    range.hash(&mut state);
    state.finish()
}

/// Whether a range lies so to another.
fn lies<R: AsRange, S: AsRange<Item = R::Item>>(own: &R, other: &S, wanted: RangeOrdering) -> bool {
    own.range_partial_cmp(other) == Some(wanted)
}

#[test]
fn compares_ranges(rt: HostRuntime) {
    assert!(rt; lies(&(0i32..10), &(10..20), RangeOrdering::Before(true)));
    assert!(rt; lies(&(11i32..20), &(0..10), RangeOrdering::After(false)));
    assert!(rt;
        lies(
            &(0i32..10),
            &(0..=9),
            RangeOrdering::Intersecting(true, true)
        )
    );
}

#[test]
fn tells_how_ranges_lie(rt: HostRuntime) {
    expect_answer(
        &rt,
        "before",
        RangeOrdering::Before(true).is_before(false),
        true,
    );
    expect_answer(
        &rt,
        "apart",
        RangeOrdering::Before(true).is_before(true),
        false,
    );
    expect_answer(
        &rt,
        "after",
        RangeOrdering::After(false).is_after(true),
        true,
    );
    expect_answer(
        &rt,
        "touching",
        RangeOrdering::After(true).matches(true),
        true,
    );
}

fn full() -> AnyRange<u8> {
    (..).into()
}

fn told() -> AnyRange<u8> {
    (0..=255).into()
}

fn past() -> AnyRange<u8> {
    AnyRange::new(Bound::Excluded(255), Bound::Unbounded)
}

fn are_same(left: &AnyRange<u8>, right: &AnyRange<u8>) -> bool {
    left == right && hash_of(left) == hash_of(right)
}

#[test]
fn compares_by_position(rt: HostRuntime) {
    assert!(rt; are_same(&full(), &told()));
    assert!(rt; past().is_empty());
    // An unbounded end touches nothing, though the two bounds are neighbours.
    assert!(rt; lies(&full(), &past(), RangeOrdering::Before(false)));
}

#[test]
fn connects(rt: HostRuntime) {
    expect_answer(
        &rt,
        "0..10, 5..100",
        (0i32..10).connected_to(&(5..100)),
        true,
    );
    expect_answer(
        &rt,
        "0..10, 10..20",
        (0i32..10).connected_to(&(10..20)),
        true,
    );
    expect_answer(
        &rt,
        "10..20, 0..10",
        (10i32..20).connected_to(&(0..10)),
        true,
    );
    expect_answer(
        &rt,
        "0..10, 11..20",
        (0i32..10).connected_to(&(11..20)),
        false,
    );
    expect_answer(
        &rt,
        "11..20, 0..10",
        (11i32..20).connected_to(&(0..10)),
        false,
    );
}

#[test]
fn connects_to_excluded_starts(rt: HostRuntime) {
    let excluded = RangeFromExcludedTo::new(10, 20);
    expect_answer(&rt, "0..=10", (0i32..=10).connected_to(&excluded), true);
    expect_answer(&rt, "0..10", (0i32..10).connected_to(&excluded), false);
}

#[test]
fn intersects(rt: HostRuntime) {
    let a: AnyRange<char> = ('A'..='A').into();
    let b: AnyRange<char> = ('B'..='B').into();
    expect_answer(&rt, "0..10, 5..100", (0i32..10).intersects(&(5..100)), true);
    expect_answer(&rt, "A, A", a.intersects(&a), true);
    expect_answer(&rt, "A, B", a.intersects(&b), false);
}

#[test]
fn intersects_by_bounds_where_empty(rt: HostRuntime) {
    let empty: AnyRange<i32> = (8..3).into();
    expect_answer(&rt, "bounds", empty.intersects(&(5..10)), false);
    expect_answer(&rt, "trait", AsRange::intersects(&empty, &(5..10)), true);
    expect_answer(&rt, "before", empty.intersects(&(9..10)), false);
}
