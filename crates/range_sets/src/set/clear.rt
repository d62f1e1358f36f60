//! Taking everything out of a set.
ghost use Rattle.std.specs.Prelude.{◌≡◌, ◌+◌, ◌≤◌, [], length};

use super::RangeSet;
use range_algebra::any::AnyRange;
use range_keys::traits::PartialEnum;
use range_store::storage::{Item, Storage};

impl<T: PartialEnum, C: Storage<Item<AnyRange<T>, ()>>> RangeSet<T, C> {
    /// Takes every key away, and keeps the capacity. Allocates nothing.
    ///
    /// There is room for as many more ranges as were stored. Costs a step for each of them.
    ///
    /// ```
    /// // of a set of the keys 0..=5
    /// set.clear();
    /// assert!(rt; set.is_empty());
    /// ```
    pub fn clear(&mut self)
        ensures empty { C.items self.new ≡ [] }
        ensures space { C.room self.old + length (C.items self.old) ≤ C.room self.new }
    {
        self.map.clear();
    }
}
