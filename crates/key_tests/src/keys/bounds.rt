//! How bounds compare and hash.

use crate::expecting::{Row, expect_none, first_wrong};
use range_keys::bound::Directed::{End, Start};
use range_keys::bound::{AsBound, BoundOrd, BoundOrdering, BoundPartialOrd, Directed, Dist};
use range_keys::traits::PartialEnum;
use std::cmp::Ordering;
use std::hash::{DefaultHasher, Hash, Hasher};
use std::ops::Bound::{self, Excluded, Included, Unbounded};

/// Two bounds.
type Pair<T> = (Directed<Bound<T>>, Directed<Bound<T>>);

fn hash_of<T: Hash>(value: &T) -> u64 {
    let mut state = DefaultHasher::new();
    value.hash(&mut state);
    state.finish()
}

fn hash_alike<T: PartialEnum + Hash>(pair: &Pair<T>) -> bool {
    hash_of(&pair.0.as_ref()) == hash_of(&pair.1.as_ref())
}

/// What `cmp`, `cmp` of the two exchanged, `partial_cmp` and `==` answer.
type Answers = (Ordering, Ordering, Option<Ordering>, bool);

fn answers<T: PartialEnum>(pair: &Pair<T>) -> Answers {
    let (left, right) = (pair.0.as_ref(), pair.1.as_ref());
    (
        left.cmp(&right),
        right.cmp(&left),
        left.partial_cmp(&right),
        left == right,
    )
}

fn told(wanted: Ordering) -> Answers {
    (
        wanted,
        wanted.reverse(),
        Some(wanted),
        wanted == Ordering::Equal,
    )
}

/// Whether two bounds compare so, and hash alike where they are equal.
fn compare<T: PartialEnum + Hash>(pair: &Pair<T>, wanted: Ordering) -> bool {
    answers(pair) == told(wanted) && (wanted != Ordering::Equal || hash_alike(pair))
}

fn bound_at<T: From<u8>>(bound: &Bound<u8>) -> Bound<T> {
    match bound {
        Included(key) => Included(T::from(*key)),
        Excluded(key) => Excluded(T::from(*key)),
        Unbounded => Unbounded,
    }
}

/// The bound at the same key of another type.
fn at<T: From<u8>>(bound: &Directed<Bound<u8>>) -> Directed<Bound<T>> {
    match bound {
        Start(bound) => Start(bound_at(bound)),
        End(bound) => End(bound_at(bound)),
    }
}

/// The index of the first row that compares otherwise over these keys.
fn first_other<T: PartialEnum + Hash + From<u8>>(
    rows: &[Pair<u8>],
    wanted: Ordering,
) -> Option<usize> {
    for (place, row) in rows.iter().enumerate() {
        if !compare::<T>(&(at(&row.0), at(&row.1)), wanted) {
            return Some(place);
        }
    }
    None
}

/// The first of each row lies before the second.
static RISING: &[Pair<u8>] = &[
    (Start(Included(0)), Start(Included(1))),
    (Start(Included(0)), Start(Excluded(0))),
    (Start(Included(0)), End(Included(1))),
    (Start(Included(0)), End(Excluded(2))),
    (Start(Included(0)), End(Unbounded)),
    (Start(Excluded(0)), Start(Included(2))),
    (Start(Excluded(0)), Start(Excluded(1))),
    (Start(Excluded(0)), End(Included(2))),
    (Start(Excluded(0)), End(Excluded(3))),
    (Start(Excluded(0)), End(Unbounded)),
    (End(Included(0)), Start(Included(1))),
    (End(Included(0)), Start(Excluded(0))),
    (End(Included(0)), End(Included(1))),
    (End(Included(0)), End(Excluded(2))),
    (End(Included(0)), End(Unbounded)),
    (End(Excluded(1)), Start(Included(1))),
    (End(Excluded(1)), Start(Excluded(0))),
    (End(Excluded(1)), End(Included(1))),
    (End(Excluded(1)), End(Excluded(2))),
    (End(Excluded(0)), End(Unbounded)),
];

/// Without a least or a greatest key.
static ENDS: &[Pair<u8>] = &[
    (Start(Unbounded), Start(Included(0))),
    (Start(Unbounded), End(Included(0))),
    (Start(Unbounded), End(Excluded(0))),
    (Start(Unbounded), End(Unbounded)),
];

#[test]
fn bounds_compare_by_position(rt: HostRuntime) {
    expect_none(&rt, "u32", first_other::<u32>(RISING, Ordering::Less));
    expect_none(&rt, "i32", first_other::<i32>(RISING, Ordering::Less));
    expect_none(&rt, "ends of i32", first_other::<i32>(ENDS, Ordering::Less));
    assert!(rt; compare(&(Start(Excluded(i32::MIN)), End(Unbounded)), Ordering::Less));
}

static EQUAL: &[Pair<u8>] = &[
    (Start(Included(0)), Start(Included(0))),
    (Start(Included(1)), Start(Excluded(0))),
    (Start(Included(0)), End(Included(0))),
    (Start(Included(0)), End(Excluded(1))),
    (Start(Excluded(0)), Start(Excluded(0))),
    (Start(Excluded(0)), End(Included(1))),
    (Start(Excluded(0)), End(Excluded(2))),
    (Start(Unbounded), Start(Unbounded)),
    (End(Included(0)), End(Included(0))),
    (End(Included(0)), End(Excluded(1))),
    (End(Excluded(0)), End(Excluded(0))),
    (End(Unbounded), End(Unbounded)),
];

#[test]
fn equal_bounds_hash_alike(rt: HostRuntime) {
    expect_none(&rt, "i32", first_other::<i32>(EQUAL, Ordering::Equal));
    assert!(rt; compare(&(Start(Unbounded), Start(Included('\0'))), Ordering::Equal));
    assert!(rt;
        compare(
            &(End(Unbounded), End(Included('\u{10FFFF}'))),
            Ordering::Equal
        )
    );
}

/// Equal where the keys begin at 0.
static AT_ZERO: &[Pair<u8>] = &[
    (Start(Unbounded), Start(Included(0))),
    (Start(Unbounded), End(Included(0))),
];

static ROUND_ZERO: &[Pair<u8>] = &[
    (End(Excluded(0)), Start(Unbounded)),
    (Start(Unbounded), End(Unbounded)),
];

#[test]
fn unsigned_bounds_begin_at_zero(rt: HostRuntime) {
    expect_none(&rt, "at zero", first_other::<u32>(AT_ZERO, Ordering::Equal));
    expect_none(
        &rt,
        "round zero",
        first_other::<u32>(ROUND_ZERO, Ordering::Less),
    );
}

/// Two bounds, and how the first lies to the second.
struct Relation(Pair<u32>, BoundOrdering);

impl Row for Relation {
    fn holds(&self) -> bool {
        let (left, right) = (self.0.0.as_ref(), self.0.1.as_ref());
        left.bound_cmp(&right) == self.1 && left.bound_partial_cmp(&right) == Some(self.1)
    }
}

static RELATIONS: &[Relation] = &[
    Relation(
        (Start(Included(0)), Start(Excluded(0))),
        BoundOrdering::Excluded(true),
    ),
    Relation(
        (Start(Excluded(0)), Start(Included(0))),
        BoundOrdering::Included(false),
    ),
    Relation(
        (Start(Included(0)), Start(Included(2))),
        BoundOrdering::Excluded(false),
    ),
    Relation(
        (Start(Unbounded), Start(Excluded(0))),
        BoundOrdering::Excluded(true),
    ),
    Relation(
        (Start(Unbounded), End(Included(0))),
        BoundOrdering::Included(true),
    ),
    Relation(
        (End(Excluded(0)), Start(Included(0))),
        BoundOrdering::Excluded(true),
    ),
    Relation(
        (Start(Excluded(u32::MAX)), End(Unbounded)),
        BoundOrdering::Excluded(true),
    ),
    Relation(
        (End(Excluded(5)), End(Excluded(7))),
        BoundOrdering::Included(false),
    ),
    Relation(
        (End(Excluded(0)), Start(Excluded(0))),
        BoundOrdering::Excluded(false),
    ),
];

#[test]
fn bound_orderings_tell_sides_and_touching(rt: HostRuntime) {
    expect_none(&rt, "u32", first_wrong(RELATIONS));
}

#[test]
fn bytes_are_bounds(rt: HostRuntime) {
    let (start, end) = (Start(5u8), End(Included(&4u8)));
    assert!(rt; start.bound_cmp(&end) == BoundOrdering::Excluded(true));
    assert!(rt; start.value().bound() == Included(&5));
    assert!(rt; end.unwrap().bound() == Included(&4));
    assert!(rt; Dist::Zero != Dist::One);
}
