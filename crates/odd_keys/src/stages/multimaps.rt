//! Multimaps: a value that is added to the keys of a range.

ghost use Rattle.std.specs.Prelude.{OnOk, nat_eq};
ghost use Rattle.btree_range_map.specs.Holding.{box_items};
ghost use Rattle.btree_range_map.specs.Pairs.{HasPairsAlso};
ghost use Rattle.btree_range_map.specs.Range.{ClonesAreEqual};

use crate::fraction::Fraction;
use crate::only::Only;
use btree_range_map::generic::multimap::SetMut;
use btree_range_map::range::traits::MaybeBounded;
use btree_range_map::{AnyRange, MapError, Measure, RangeMultiMap};
use std::collections::BTreeSet;

type Pairs<K> = RangeMultiMap<K, BTreeSet<u8>>;

fn add<K: Measure + Clone>(
    pairs: &mut Pairs<K>,
    range: AnyRange<K>,
    value: u8,
) -> Result<(), MapError>
    requires { ClonesAreEqual K.is_clone K.eq }
    ensures { OnOk result (HasPairsAlso K.order ⟦<BTreeSet<u8> as SetMut<u8>>⟧.has nat_eq
        (box_items pairs.old) (box_items pairs.new) range value) }
{
    pairs.insert(range, value)
}

fn add_to_only(pairs: &mut Pairs<Only>, range: AnyRange<Only>, value: u8) -> Result<(), MapError>
    ensures { OnOk result (HasPairsAlso ⟦<Only as MaybeBounded>⟧.order
        ⟦<BTreeSet<u8> as SetMut<u8>>⟧.has nat_eq (box_items pairs.old) (box_items pairs.new)
        range value) }
{
    add(pairs, range, value)
}

fn add_to_fractions(
    pairs: &mut Pairs<Fraction>,
    range: AnyRange<Fraction>,
    value: u8,
) -> Result<(), MapError>
    ensures { OnOk result (HasPairsAlso ⟦<Fraction as MaybeBounded>⟧.order
        ⟦<BTreeSet<u8> as SetMut<u8>>⟧.has nat_eq (box_items pairs.old) (box_items pairs.new)
        range value) }
{
    add(pairs, range, value)
}
