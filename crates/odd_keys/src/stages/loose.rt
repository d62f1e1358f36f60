//! Maps of values whose equality is loose.

ghost use Rattle.std.specs.Prelude.{OnOk};
ghost use Rattle.btree_range_map.specs.Bindings.{IsBoundAfter};
ghost use Rattle.btree_range_map.specs.Holding.{box_items};
ghost use Rattle.btree_range_map.specs.Range.{ClonesAreEqual};

use crate::blind::Blind;
use crate::half::Half;
use crate::loose::Loose;
use btree_range_map::range::traits::MaybeBounded;
use btree_range_map::{AnyRange, MapError, Measure, RangeMap};

fn bind<K: Measure + Clone>(
    map: &mut RangeMap<K, Loose>,
    range: AnyRange<K>,
    value: Loose,
) -> Result<(), MapError>
    requires { ClonesAreEqual K.is_clone K.eq }
    ensures { OnOk result (IsBoundAfter K.order ⟦<Loose as PartialEq>⟧.eq (box_items map.old)
        (box_items map.new) range value) }
{
    map.insert(range, value)
}

fn bind_blind(
    map: &mut RangeMap<Blind<i32>, Loose>,
    range: AnyRange<Blind<i32>>,
    value: Loose,
) -> Result<(), MapError>
    ensures { OnOk result (IsBoundAfter ⟦<Blind<i32> as MaybeBounded>⟧.order
        ⟦<Loose as PartialEq>⟧.eq (box_items map.old) (box_items map.new) range value) }
{
    bind(map, range, value)
}

fn bind_halves(
    map: &mut RangeMap<Half, Loose>,
    range: AnyRange<Half>,
    value: Loose,
) -> Result<(), MapError>
    ensures { OnOk result (IsBoundAfter ⟦<Half as MaybeBounded>⟧.order ⟦<Loose as PartialEq>⟧.eq
        (box_items map.old) (box_items map.new) range value) }
{
    bind(map, range, value)
}
