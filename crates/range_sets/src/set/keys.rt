//! A set of the keys of a map, and a set as a map.
ghost use Rattle.std.specs.Prelude.{◌≡◌, IfOk, Ok};
ghost use Rattle.range_algebra.specs.Range.{ClonesAreEqual};
ghost use Rattle.range_set_extend.specs.KeySets.{HoldsKeysOf, IsCanonicalSet};

use super::RangeSet;
use range_algebra::any::AnyRange;
use range_keys::traits::PartialEnum;
use range_map::map::{MapError, RangeMap, UpdateError};
use range_store::storage::{Item, Storage};
use std::alloc::Global;

/// What each value becomes in a set.
fn no_value<V>(_value: &V) -> Result<(), MapError>
    ensures { result ≡ Ok tt }
{
    Ok(())
}

impl<T: PartialEnum, C: Storage<Item<AnyRange<T>, ()>>> RangeSet<T, C> {
    /// The set as a map without values, for calls that take a map. Allocates nothing.
    ///
    /// ```
    /// // of a map that binds 0..=5 to 1, and a set of the keys 4..9
    /// let both = map.restrict(set.as_map())?;
    /// assert!(rt; both.len() == 2); // 4..=5 is bound to 1
    /// ```
    pub fn as_map(&self) -> &RangeMap<T, (), C>
        ensures { C.items result.now ≡ C.items self.now }
    {
        &self.map
    }
}

impl<T: PartialEnum + Clone, C: Storage<Item<AnyRange<T>, ()>>> RangeSet<T, C> {
    /// A set of just the keys that the map binds, whatever its values.
    ///
    /// Ranges that touch are one. The map may be kept in another kind of container.
    ///
    /// Allocates a list of as many ranges as the map has and capacity for those that come of it,
    /// each at once, and a clone of each bound. Fails where an allocation does. Costs a step for
    /// each stored range, and no search.
    ///
    /// ```
    /// // of a map that binds 0..=5 to 1, and 6..=8 to 2
    /// let keys: RangeSet<i32> = RangeSet::keys_of(alloc, map)?;
    /// assert!(rt; keys.len() == 9); // 0..=8
    /// ```
    pub fn keys_of<V: Eq + Drop, D: Storage<Item<AnyRange<T>, V>>>(
        alloc: Global,
        map: &RangeMap<T, V, D>,
    ) -> Result<Self, MapError>
        requires { ClonesAreEqual T.is_clone T.eq }
        ensures held { IfOk result
            (λ keys. HoldsKeysOf T.order (D.items map.now) (C.items keys)) }
        ensures canonical { IfOk result (λ keys. IsCanonicalSet T.order (C.items keys)) }
    {
        match map.map_values(|value| no_value(value)) {
            Ok(map) => Ok(RangeSet { map, alloc }),
            Err(UpdateError::Closure(error)) => Err(error),
            Err(UpdateError::Memory) => Err(MapError::Memory),
        }
    }
}
