//! Counted calls: an insertion, and how many steps it takes at most.

ghost use Rattle.std.specs.Prelude.{OnOk, length, pos};
ghost use Rattle.std.specs.Ordering.{int_eq};
ghost use Rattle.btree_range_map.specs.Bindings.{IsBoundAfter};
ghost use Rattle.btree_range_map.specs.Costs.{TakesAsChange};
ghost use Rattle.btree_range_map.specs.Range.{ClonesAreEqual};

use crate::blind::Never;
use crate::half::Half;
use btree_range_map::generic::RangeMap;
use btree_range_map::range::traits::MaybeBounded;
use btree_range_map::storage::{Item, Steps, Storage};
use btree_range_map::{AnyRange, MapError, Measure};

fn bind<K: Measure + Clone, C: Storage<Item<AnyRange<K>, i64>>>(
    map: &mut RangeMap<K, i64, C>,
    range: AnyRange<K>,
    steps: &mut Steps,
) -> Result<(), MapError>
    requires { ClonesAreEqual K.is_clone K.eq }
    ensures bound { OnOk result
        (IsBoundAfter K.order int_eq (C.items map.old) (C.items map.new) range (pos 1)) }
    ensures most { OnOk result (TakesAsChange steps.old steps.new (C.most_asks map.old)
        (length (C.items map.old)) (length (C.items map.new))) }
{
    map.insert_counted(range, 1, steps)
}

fn bind_never<C: Storage<Item<AnyRange<Never>, i64>>>(
    map: &mut RangeMap<Never, i64, C>,
    range: AnyRange<Never>,
    steps: &mut Steps,
) -> Result<(), MapError>
    ensures bound { OnOk result (IsBoundAfter ⟦<Never as MaybeBounded>⟧.order int_eq
        (C.items map.old) (C.items map.new) range (pos 1)) }
    ensures most { OnOk result (TakesAsChange steps.old steps.new (C.most_asks map.old)
        (length (C.items map.old)) (length (C.items map.new))) }
{
    bind(map, range, steps)
}

fn bind_halves<C: Storage<Item<AnyRange<Half>, i64>>>(
    map: &mut RangeMap<Half, i64, C>,
    range: AnyRange<Half>,
    steps: &mut Steps,
) -> Result<(), MapError>
    ensures bound { OnOk result (IsBoundAfter ⟦<Half as MaybeBounded>⟧.order int_eq
        (C.items map.old) (C.items map.new) range (pos 1)) }
    ensures most { OnOk result (TakesAsChange steps.old steps.new (C.most_asks map.old)
        (length (C.items map.old)) (length (C.items map.new))) }
{
    bind(map, range, steps)
}
