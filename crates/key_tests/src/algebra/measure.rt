ghost use Rattle.range_algebra.specs.Range.{ClonesAreEqual};

use crate::expecting::expect_length;
use range_algebra::any::AnyRange;
use range_algebra::range::{IntoRange, RangeFromExcluded, RangeFromExcludedTo};
use range_keys::traits::{Bounded, PartialEnum};
use std::ops::Bound;

#[test]
fn counts_keys(rt: HostRuntime) {
    let from_ten: AnyRange<u8> = (10..).into();
    expect_length(&rt, "from ten", from_ten.len(), 246);
    assert!(rt; from_ten.bounded_len() == Some(246));
    let none = RangeFromExcludedTo::new(0i32, 0).into_range();
    expect_length(&rt, "none", none.len(), 0);
}

#[test]
fn counts_all_keys(rt: HostRuntime) {
    let all: AnyRange<char> = (..).into();
    expect_length(&rt, "all characters", all.len(), 1112064);
    let longest: AnyRange<u64> = (..).into();
    expect_length(&rt, "all numbers", longest.len(), 18446744073709551616);
}

/// Whether these are the first, the last and some key of a range, and its first and last in one.
fn has_ends<T: PartialEnum + Bounded + Copy>(
    range: &AnyRange<T>,
    ends: [Option<T>; 3],
    both: Option<(T, T)>,
) -> bool
    requires { ClonesAreEqual T.is_clone T.eq }
{
    let [first, last, picked] = ends;
    range.first() == Ok(first)
        && range.last() == Ok(last)
        && range.pick() == Ok(picked)
        && range.first_and_last() == Ok(both)
}

#[test]
fn names_the_ends(rt: HostRuntime) {
    let above = RangeFromExcluded::new(0u32).into_range();
    assert!(rt; above == AnyRange::new(Bound::Included(1), Bound::Unbounded));
    let ends = [Some(1), Some(4294967295), Some(1)];
    assert!(rt; has_ends(&above, ends, Some((1, 4294967295))));
    expect_length(&rt, "above", above.len(), 4294967295);
}

#[test]
fn names_no_ends_where_there_are_none(rt: HostRuntime) {
    let past = RangeFromExcluded::new(2147483647i32).into_range();
    assert!(rt; past.is_empty());
    assert!(rt; has_ends(&past, [None, None, None], None));
    expect_length(&rt, "past", past.len(), 0);
}

#[test]
fn takes_in_the_hole(rt: HostRuntime) {
    let mut range: AnyRange<i32> = (0..3).into();
    assert!(rt; range.add(&(8..10)) == Ok(()));
    expect_length(&rt, "the hull", range.len(), 10);
    let told = AnyRange::new(Bound::Included(5), Bound::Excluded(10));
    assert!(rt; range.intersection(&(5..20).into()) == Ok(told));
    assert!(rt; range.intersects(&(9..100)));
    assert!(rt; !range.intersects(&(10..100)));
}
