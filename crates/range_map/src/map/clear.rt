//! Taking everything out of a map.
ghost use Rattle.std.specs.Prelude.{◌≡◌, ◌+◌, ◌≤◌, [], length};

use crate::map::RangeMap;
use range_algebra::any::AnyRange;
use range_keys::traits::PartialEnum;
use range_store::storage::{Item, Storage};

impl<K: PartialEnum, V: Eq + Drop, C: Storage<Item<AnyRange<K>, V>>> RangeMap<K, V, C> {
    /// Unbinds every key, and keeps the capacity. Allocates nothing.
    ///
    /// There is room for as many more ranges as were stored. Costs a step for each of them.
    ///
    /// ```
    /// // of a map that binds 0..=5 to 1
    /// map.clear();
    /// assert!(rt; map.is_empty());
    /// ```
    pub fn clear(&mut self)
        ensures empty { C.items self.new ≡ [] }
        ensures space { C.room self.old + length (C.items self.old) ≤ C.room self.new }
    {
        while let Some(_last) = self.stored.pop_last() {}
    }
}
