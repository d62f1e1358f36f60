//! A map whose values are sets, and what its caller proves of their clones.

ghost use Rattle.btree_range_map.specs.Range.{ClonesAreEqual};

use btree_range_map::generic::RangeMap;
use btree_range_map::storage::{Item, Storage};
use btree_range_map::{AnyRange, IntoRange, MapError, Measure};
use std::collections::BTreeSet;

type Targets = BTreeSet<i32>;

/// Binds the key to the set. The call wants clones of values to equal them.
pub fn bind<K: Measure + Copy + IntoRange<Item = K>, C: Storage<Item<AnyRange<K>, Targets>>>(
    map: &mut RangeMap<K, Targets, C>,
    key: K,
    targets: Targets,
) -> Result<(), MapError>
    requires { ClonesAreEqual K.is_clone K.eq }
{
    map.insert(key, targets)
}
