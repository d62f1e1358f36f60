//! Sets: what is added, the gaps, and that no list with the same keys is shorter.

ghost use Rattle.std.specs.Prelude.{OnOk};
ghost use Rattle.btree_range_map.specs.FreeRanges.{AreGaps};
ghost use Rattle.btree_range_map.specs.Holding.{box_items};
ghost use Rattle.btree_range_map.specs.KeySets.{HoldsAlso, IsLeastCount};
ghost use Rattle.btree_range_map.specs.Range.{ClonesAreEqual};

use crate::blind::Blind;
use crate::fraction::Fraction;
use crate::half::Half;
use crate::only::Only;
use btree_range_map::generic::set::Gaps;
use btree_range_map::range::traits::{Complete, MaybeBounded};
use btree_range_map::storage::Item;
use btree_range_map::{AnyRange, DefaultSetContainer, MapError, Measure, RangeSet};

/// The gaps of a set in the default container.
type GapsOf<'a, K> = Gaps<'a, K, DefaultSetContainer<Item<AnyRange<K>, ()>>>;

fn add<K: Measure + Clone>(set: &mut RangeSet<K>, range: AnyRange<K>) -> Result<(), MapError>
    requires { ClonesAreEqual K.is_clone K.eq }
    ensures { OnOk result (HoldsAlso K.order (box_items set.old) (box_items set.new) range) }
{
    set.insert(range)
}

fn add_blind(set: &mut RangeSet<Blind<i32>>, range: AnyRange<Blind<i32>>) -> Result<(), MapError>
    ensures { OnOk result (HoldsAlso ⟦<Blind<i32> as MaybeBounded>⟧.order (box_items set.old)
        (box_items set.new) range) }
{
    add(set, range)
}

fn add_fractions(set: &mut RangeSet<Fraction>, range: AnyRange<Fraction>) -> Result<(), MapError>
    ensures { OnOk result (HoldsAlso ⟦<Fraction as MaybeBounded>⟧.order (box_items set.old)
        (box_items set.new) range) }
{
    add(set, range)
}

fn gaps_of<K: Measure>(set: &RangeSet<K>) -> GapsOf<'_, K>
    ensures { AreGaps K.order (box_items set.now) result }
{
    set.gaps()
}

fn gaps_of_blind(set: &RangeSet<Blind<i32>>) -> GapsOf<'_, Blind<i32>>
    ensures { AreGaps ⟦<Blind<i32> as MaybeBounded>⟧.order (box_items set.now) result }
{
    gaps_of(set)
}

fn gaps_of_halves(set: &RangeSet<Half>) -> GapsOf<'_, Half>
    ensures { AreGaps ⟦<Half as MaybeBounded>⟧.order (box_items set.now) result }
{
    gaps_of(set)
}

fn least_count<K: Complete + Measure>(set: &RangeSet<K>) -> usize
    ensures { IsLeastCount K.order (box_items set.now) result }
{
    set.range_count()
}

fn least_count_of_only(set: &RangeSet<Only>) -> usize
    ensures { IsLeastCount ⟦<Only as MaybeBounded>⟧.order (box_items set.now) result }
{
    least_count(set)
}

fn least_count_of_halves(set: &RangeSet<Half>) -> usize
    ensures { IsLeastCount ⟦<Half as MaybeBounded>⟧.order (box_items set.now) result }
{
    least_count(set)
}
