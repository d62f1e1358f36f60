//! Ranges that are known to come after all others of a map.
ghost use Rattle.std.specs.Prelude.{◌≡◌, ◌+◌, ◌≤◌, ◌++◌, ◌∷◌, [], OnOk};
ghost use Rattle.range_runs.specs.Stored.{IsStored};

use crate::map::RangeMap;
use range_algebra::any::AnyRange;
use range_keys::traits::PartialEnum;
use range_store::storage::{Item, Storage};
use std::alloc::AllocError;

/// Reserves capacity for so many ranges more.
pub fn reserve<K: PartialEnum, V: Eq + Drop, C: Storage<Item<AnyRange<K>, V>>>(
    map: &mut RangeMap<K, V, C>,
    count: usize,
) -> Result<(), AllocError>
    ensures list { C.items map.new ≡ C.items map.old }
    ensures space { OnOk result (count ≤ C.room map.new) }
{
    map.stored.reserve(count)
}

/// Stores a range after all that are stored, with no search and no allocation.
pub fn append<K: PartialEnum, V: Eq + Drop, C: Storage<Item<AnyRange<K>, V>>>(
    map: &mut RangeMap<K, V, C>,
    range: AnyRange<K>,
    value: V,
)
    requires room { 1 ≤ C.room map.old }
    requires form { IsStored K.order V.eq
        (C.items map.old ++ record { key = range; value = value } ∷ []) }
    ensures list { C.items map.new ≡ C.items map.old ++ record { key = range; value = value } ∷ [] }
    ensures space { C.room map.old ≡ C.room map.new + 1 }
{
    let _position = map.stored.insert_at(None, Item { key: range, value });
}
