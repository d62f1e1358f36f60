//! The ends, neighbours and distances of each key type, how many keys it has, and a key as a range.

ghost use Rattle.range_algebra.specs.Numbers.{IsNumberOfKeys};
ghost use Rattle.range_algebra.specs.Range.{Holds};

use crate::expecting::{expect_answer, expect_length, expect_none};
use range_algebra::any::AnyRange;
use range_algebra::range::IntoRange;
use range_keys::inner::counted::{Counted, measure_counts_keys};
use range_keys::traits::{Bounded, Complete, MaybeBounded, Measure, PartialEnum};
use std::ops::Bound;
use std::process::Abort;

/// The first two keys of a type, and its last two.
#[derive(Drop)]
struct Ends<T> {
    first: T,
    second: T,
    last_but_one: T,
    last: T,
}

/// Whether two keys are neighbours, from either of them.
fn are_neighbours<T: PartialEnum + Copy>(key: T, next: T) -> bool {
    key.succ() == Some(next) && next.pred() == Some(key)
}

fn has_pred<T: PartialEnum>(key: &T) -> bool {
    key.pred().is_some()
}

fn has_succ<T: PartialEnum>(key: &T) -> bool {
    key.succ().is_some()
}

/// The neighbours that are not as the row says, if there are any.
fn wrong_neighbour<T: PartialEnum + Copy>(ends: &Ends<T>) -> Option<&'static str> {
    ends.first.known();
    if !are_neighbours(ends.first, ends.second) {
        Some("the first two keys")
    } else if !are_neighbours(ends.last_but_one, ends.last) {
        Some("the last two keys")
    } else if has_pred(&ends.first) {
        Some("before the first key")
    } else if has_succ(&ends.last) {
        Some("after the last key")
    } else {
        None
    }
}

/// The distance of two keys in order.
fn distance_between<T: Measure>(left: &T, right: &T) -> Option<u128> {
    if left.cmp(right).is_gt() {
        None
    } else {
        Some(left.distance(right))
    }
}

fn is_least<T: MaybeBounded + Copy>(key: T) -> bool {
    <T as MaybeBounded>::min() == Some(key)
}

fn is_greatest<T: MaybeBounded + Copy>(key: T) -> bool {
    <T as MaybeBounded>::max() == Some(key)
}

/// The end or the measure that is not the one that the row says, if there is one.
fn wrong_end<T: Measure + Complete + Copy>(ends: &Ends<T>, count: u128) -> Option<&'static str> {
    if !is_least(ends.first) {
        Some("the least key")
    } else if !is_greatest(ends.last) {
        Some("the greatest key")
    } else if distance_between(&ends.first, &ends.last) != count.checked_sub(1) {
        Some("the distance")
    } else if ends.last.len() != 1 {
        Some("the length")
    } else {
        None
    }
}

fn is_smallest<T: Bounded + Copy>(key: T) -> bool {
    <T as Bounded>::min() == key
}

fn is_largest<T: Bounded + Copy>(key: T) -> bool {
    <T as Bounded>::max() == key
}

fn expect_ends<T: Bounded + Counted + Copy>(
    rt: &impl Abort,
    place: &str,
    ends: &Ends<T>,
    count: u128,
) {
    expect_answer(rt, place, is_smallest(ends.first), true);
    expect_answer(rt, place, is_largest(ends.last), true);
    expect_none(rt, place, wrong_neighbour(ends));
    expect_none(rt, place, wrong_end(ends, count));
}

fn number_of_keys<T: Counted + Bounded>(range: &AnyRange<T>) -> u128
    ensures { IsNumberOfKeys T.order (Holds T.order range.now) result }
{
    measure_counts_keys::<T>();
    range.len()
}

/// Whether a key is read as the range from it to itself.
fn is_alone<T: IntoRange<Item = T> + Measure + Copy>(key: T) -> bool {
    key.into_range() == (key..=key).into_range()
}

/// The keys of a type are as many as are told, between these ends.
fn expect_told<T: Bounded + Counted + IntoRange<Item = T> + Copy>(
    rt: &impl Abort,
    place: &str,
    keys: [T; 4],
    count: u128,
) {
    let [first, second, last_but_one, last] = keys;
    let ends = Ends {
        first,
        second,
        last_but_one,
        last,
    };
    expect_ends(rt, place, &ends, count);
    let all: AnyRange<T> = AnyRange::new(Bound::Unbounded, Bound::Unbounded);
    expect_length(rt, place, number_of_keys(&all), count);
    expect_answer(rt, place, is_alone(second), true);
}

#[test]
fn tells_ends_neighbours_and_numbers(rt: HostRuntime) {
    expect_told(&rt, "u8", [0u8, 1, 254, 255], 256);
    expect_told(&rt, "u16", [0u16, 1, 65_534, 65_535], 65_536);
    let counts = [0u32, 1, 4_294_967_294, 4_294_967_295];
    expect_told(&rt, "u32", counts, 4_294_967_296);
    let numbers = [0u64, 1, u64::MAX - 1, u64::MAX];
    expect_told(&rt, "u64", numbers, 18_446_744_073_709_551_616);
    let sizes = [0usize, 1, usize::MAX - 1, usize::MAX];
    expect_told(&rt, "usize", sizes, 18_446_744_073_709_551_616);
    expect_told(&rt, "i8", [-128i8, -127, 126, 127], 256);
    expect_told(&rt, "i16", [-32_768i16, -32_767, 32_766, 32_767], 65_536);
    let integers = [i32::MIN, -2_147_483_647, 2_147_483_646, i32::MAX];
    expect_told(&rt, "i32", integers, 4_294_967_296);
    let long = [i64::MIN, i64::MIN + 1, i64::MAX - 1, i64::MAX];
    expect_told(&rt, "i64", long, 18_446_744_073_709_551_616);
    let characters = ['\0', '\u{1}', '\u{10FFFE}', '\u{10FFFF}'];
    expect_told(&rt, "char", characters, 1_112_064);
}

#[test]
fn characters_pass_over_surrogates(rt: HostRuntime) {
    assert!(rt; are_neighbours('\u{D7FF}', '\u{E000}'));
    assert!(rt; distance_between(&'\u{D7FF}', &'\u{E000}') == Some(1));
    assert!(rt; distance_between(&'a', &'\u{1F600}') == Some(128_512 - 97 - 2_048));
}
