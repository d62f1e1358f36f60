//! Products of two ranges.

ghost use Rattle.btree_range_map.specs.Parts.{IsProduct};
ghost use Rattle.btree_range_map.specs.References.{product_of};

use crate::blind::Blind;
use crate::fraction::Fraction;
use btree_range_map::range::traits::MaybeBounded;
use btree_range_map::{AnyRange, AsRange, Measure, Product};

fn product<'a, K: Measure>(range: &'a AnyRange<K>, other: &'a AnyRange<K>) -> Product<&'a K>
    ensures { IsProduct K.order range.now other.now (product_of result) }
{
    range.product(other)
}

fn product_of_blind<'a>(
    range: &'a AnyRange<Blind<i32>>,
    other: &'a AnyRange<Blind<i32>>,
) -> Product<&'a Blind<i32>>
    ensures { IsProduct ⟦<Blind<i32> as MaybeBounded>⟧.order range.now other.now (product_of result) }
{
    product(range, other)
}

fn product_of_fractions<'a>(
    range: &'a AnyRange<Fraction>,
    other: &'a AnyRange<Fraction>,
) -> Product<&'a Fraction>
    ensures { IsProduct ⟦<Fraction as MaybeBounded>⟧.order range.now other.now (product_of result) }
{
    product(range, other)
}
