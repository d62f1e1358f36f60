//! Maps and multimaps that are written as JSON and read back, and what a caller proves of them.

ghost use Rattle.std.specs.Prelude.{◌≡◌, IsTrue, IfOk, IfErr};
ghost use Rattle.btree_range_map.specs.JsonError.TheVariants.{Memory};
ghost use Rattle.btree_range_map.specs.ListOrder.{same_list};
ghost use Rattle.btree_range_map.specs.Range.{ClonesAreEqual};
ghost use Rattle.btree_range_map.specs.ValueSets.{same_values};

use btree_range_map::generic::{RangeMap, RangeMultiMap};
use btree_range_map::json::{
    JsonError, ReadsBack, map_from_json, map_to_json, maps_are_read_back, multimap_from_json,
    multimap_to_json, multimaps_are_read_back,
};
use btree_range_map::storage::{Item, Storage};
use btree_range_map::{AnyRange, Measure};
use std::alloc::Global;
use std::collections::BTreeSet;

/// What the map is written as, read as a map.
///
/// That map equals the one that was written, and none is read only where an allocation fails.
pub fn read_back<
    K: ReadsBack + Measure + Clone,
    V: ReadsBack + Clone,
    C: Storage<Item<AnyRange<K>, V>>,
>(alloc: Global, map: &RangeMap<K, V, C>) -> Result<RangeMap<K, V, C>, JsonError>
    requires { ClonesAreEqual K.is_clone K.eq }
    ensures equal { IfOk result
        (λ read. IsTrue (same_list K.order V.eq (C.items read) (C.items map.now))) }
    ensures fails { IfErr result (λ e. e ≡ Memory) }
{
    maps_are_read_back::<K, V>();
    let _items = map.iter(); // whose contract says the form in which they are stored
    let written = map_to_json(alloc, map)?;
    map_from_json(alloc, &written)
}

/// What the multimap is written as, read as a multimap.
///
/// That multimap equals the one that was written, and none is read only where an allocation fails.
pub fn multimap_read_back<
    K: ReadsBack + Measure,
    V: ReadsBack + Ord + Clone,
    C: Storage<Item<AnyRange<K>, BTreeSet<V>>>,
>(
    alloc: Global,
    multimap: &RangeMultiMap<K, BTreeSet<V>, C>,
) -> Result<RangeMultiMap<K, BTreeSet<V>, C>, JsonError>
    ensures equal { IfOk result (λ read.
        IsTrue (same_list K.order (same_values V.eq) (C.items read) (C.items multimap.now))) }
    ensures fails { IfErr result (λ e. e ≡ Memory) }
{
    multimaps_are_read_back::<K, V>();
    let _items = multimap.iter(); // whose contract says the form in which they are stored
    let written = multimap_to_json(alloc, multimap)?;
    multimap_from_json(alloc, &written)
}
