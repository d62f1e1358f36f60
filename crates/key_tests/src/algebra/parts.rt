use crate::expecting::{Row, expect_none, first_wrong};
use range_algebra::any::AnyRange;
use range_algebra::range::{AsRange, Difference, Product, ProductArg};
use std::ops::{Bound, Range};

type Ends = (i32, i32);

fn range(ends: Ends) -> AnyRange<i32> {
    AnyRange::new(Bound::Included(ends.0), Bound::Excluded(ends.1))
}

/// What is left of a range, as a row says it.
#[derive(Clone, Copy)]
enum Left {
    Before(Ends, bool),
    After(Ends, bool),
    Split(Ends, Ends),
    Empty,
}

fn is_range(part: AnyRange<&i32>, ends: Ends) -> bool {
    part.cloned() == Ok(range(ends))
}

fn is_split(difference: &Difference<&i32>, first: Ends, second: Ends) -> bool {
    match difference {
        Difference::Split(before, after) => is_range(*before, first) && is_range(*after, second),
        _ => false,
    }
}

fn is_before(difference: &Difference<&i32>, ends: Ends, met: bool) -> bool {
    match difference {
        Difference::Before(part, flag) => *flag == met && is_range(*part, ends),
        _ => false,
    }
}

fn is_after(difference: &Difference<&i32>, ends: Ends, met: bool) -> bool {
    match difference {
        Difference::After(part, flag) => *flag == met && is_range(*part, ends),
        _ => false,
    }
}

fn is_left(difference: &Difference<&i32>, left: Left) -> bool {
    match left {
        Left::Before(ends, met) => is_before(difference, ends, met),
        Left::After(ends, met) => is_after(difference, ends, met),
        Left::Split(first, second) => is_split(difference, first, second),
        Left::Empty => matches!(difference, Difference::Empty),
    }
}

/// Two ranges, and what is left of the first without the second.
struct Leaving(Ends, Ends, Left);

impl Row for Leaving {
    fn holds(&self) -> bool {
        let (own, other) = (self.0.0..self.0.1, self.1.0..self.1.1);
        is_left(&own.without(&other), self.2)
    }
}

static LEFT: &[Leaving] = &[
    Leaving((0, 5), (10, 20), Left::Before((0, 5), false)),
    Leaving((0, 15), (10, 20), Left::Before((0, 10), true)),
    Leaving((0, 10), (8, 3), Left::Before((0, 10), false)),
    Leaving((8, 3), (0, 2), Left::Empty),
    Leaving((3, 5), (0, 9), Left::Empty),
    Leaving((0, 20), (5, 10), Left::Split((0, 5), (10, 20))),
    Leaving((5, 20), (0, 10), Left::After((10, 20), true)),
];

#[test]
fn leaves_parts(rt: HostRuntime) {
    expect_none(&rt, "what is left", first_wrong(LEFT));
}

/// A part of a product, as a row says it.
#[derive(Clone, Copy)]
enum Part {
    Subject(Ends),
    Object(Ends),
}

/// The parts of a product, as a row says them.
type Parts = (Option<Part>, Option<Ends>, Option<Part>);

fn is_subject(part: &ProductArg<i32>, ends: Ends) -> bool {
    match part {
        ProductArg::Subject(own) => *own == range(ends),
        ProductArg::Object(_) => false,
    }
}

fn is_object(part: &ProductArg<i32>, ends: Ends) -> bool {
    match part {
        ProductArg::Subject(_) => false,
        ProductArg::Object(other) => *other == range(ends),
    }
}

fn is_part(part: &Option<ProductArg<i32>>, wanted: Option<Part>) -> bool {
    match (part, wanted) {
        (Some(part), Some(Part::Subject(ends))) => is_subject(part, ends),
        (Some(part), Some(Part::Object(ends))) => is_object(part, ends),
        (part, wanted) => part.is_none() && wanted.is_none(),
    }
}

fn is_shared(shared: &Option<AnyRange<i32>>, wanted: Option<Ends>) -> bool {
    match (shared, wanted) {
        (Some(shared), Some(ends)) => *shared == range(ends),
        (shared, wanted) => shared.is_none() && wanted.is_none(),
    }
}

fn is_product(product: &Product<i32>, wanted: &Parts) -> bool {
    is_part(&product.before, wanted.0)
        && is_shared(&product.intersection, wanted.1)
        && is_part(&product.after, wanted.2)
}

/// Two ranges, and their product.
struct Making(Ends, Ends, Parts);

impl Row for Making {
    fn holds(&self) -> bool {
        match range(self.0).product(&range(self.1)).cloned() {
            Ok(product) => is_product(&product, &self.2),
            Err(_) => false,
        }
    }
}

static PRODUCTS: &[Making] = &[
    Making(
        (0, 10),
        (5, 15),
        (
            Some(Part::Subject((0, 5))),
            Some((5, 10)),
            Some(Part::Object((10, 15))),
        ),
    ),
    Making(
        (0, 20),
        (5, 10),
        (
            Some(Part::Subject((0, 5))),
            Some((5, 10)),
            Some(Part::Subject((10, 20))),
        ),
    ),
    Making(
        (10, 20),
        (0, 5),
        (
            Some(Part::Object((0, 5))),
            None,
            Some(Part::Subject((10, 20))),
        ),
    ),
    Making((8, 3), (0, 5), (None, None, Some(Part::Object((0, 5))))),
    Making((8, 3), (5, 5), (None, None, None)),
];

#[test]
fn makes_products(rt: HostRuntime) {
    expect_none(&rt, "the products", first_wrong(PRODUCTS));
}

fn shared(own: Range<i32>, other: Range<i32>) -> bool {
    let shared = own.intersected_with(&other);
    !shared.ref_is_empty() && is_range(shared, (5, 10))
}

#[test]
fn refers_to_what_is_shared(rt: HostRuntime) {
    assert!(rt; shared(0..10, 5..15));
    assert!(rt; (0i32..10).intersected_with(&(20..30)).ref_is_empty());
}
