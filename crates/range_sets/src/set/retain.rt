//! Keeping only such stored ranges as a closure says.
ghost use Rattle.std.specs.Prelude.{◌+◌, ◌≤◌, length};
ghost use Rattle.std.specs.Fn.{CalledAt};
ghost use Rattle.std.specs.List.Retain.{IsFiltered};
ghost use Rattle.range_reads.specs.FreeRanges.{item_ranges};
ghost use Rattle.range_map.specs.Together.{BindKeysOf};
ghost use Rattle.range_set_extend.specs.KeySets.{IsCanonicalSet};

use super::RangeSet;
use range_algebra::any::AnyRange;
use range_keys::traits::PartialEnum;
use range_store::storage::{Item, Storage};

impl<T: PartialEnum, C: Storage<Item<AnyRange<T>, ()>>> RangeSet<T, C> {
    /// Keeps the stored ranges for which the closure returns true, and takes the keys of all others
    /// away.
    ///
    /// The closure is asked once of each stored range, in ascending order. Those that it keeps
    /// stand as they were. Allocates nothing. Costs a step for each stored range, and changes nodes
    /// up to the tree's root for each that it takes out.
    ///
    /// ```
    /// // of a set of the keys 0..=5
    /// set.retain(|range| !range.contains(&3));
    /// assert!(rt; set.is_empty());
    /// ```
    pub fn retain<F: FnMut(&AnyRange<T>) -> bool>(&mut self, mut f: F)
        requires { F.IsAlwaysCallable f }
        ensures filtered { IsFiltered (CalledAt F.FnMut) f (item_ranges (C.items self.old))
            (item_ranges (C.items self.new)) }
        ensures kept { BindKeysOf T.order (C.items self.new) (C.items self.old) }
        ensures canonical { IsCanonicalSet T.order (C.items self.new) }
        ensures few { length (C.items self.new) ≤ length (C.items self.old) }
        ensures space { C.room self.old + length (C.items self.old)
            ≤ C.room self.new + length (C.items self.new) }
    {
        self.map.retain(move |range, _unit| f(range));
    }
}
