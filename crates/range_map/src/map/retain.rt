//! Keeping only such stored ranges as a closure says.
ghost use Rattle.std.specs.Prelude.{◌+◌, ◌≤◌, length};
ghost use Rattle.std.specs.List.Retain.{IsFiltered};
ghost use Rattle.range_map.specs.Retaining.{CalledAtItem, BindOnlyAsBefore};
ghost use Rattle.range_runs.specs.Canonical.{IsCanonical};

use crate::map::RangeMap;
use range_algebra::any::AnyRange;
use range_keys::traits::PartialEnum;
use range_store::storage::{Item, Storage};

/// What the closure returns for an item.
fn keeps<K, V, F: FnMut(&AnyRange<K>, &V) -> bool>(f: &mut F, item: &Item<AnyRange<K>, V>) -> bool
    requires { F.IsAlwaysCallable f.old }
    ensures called { CalledAtItem F.FnMut f.old item.now result f.new }
    ensures callable { F.IsAlwaysCallable f.new }
{
    f(&item.key, &item.value)
}

impl<K: PartialEnum, V: Eq + Drop, C: Storage<Item<AnyRange<K>, V>>> RangeMap<K, V, C> {
    /// Keeps the stored ranges for which the closure returns true, and unbinds the keys of all
    /// others.
    ///
    /// The closure is asked once of each stored range with its value, in ascending order. Those
    /// that it keeps stand as they were. Allocates nothing, and leaves room for as many ranges more as
    /// it takes out. Costs a step for each stored range, and changes nodes up to the tree's root for
    /// each that it takes out.
    ///
    /// ```
    /// // of a map that binds 0..=5 to 1
    /// map.retain(|_range, value| *value != 1);
    /// assert!(rt; map.is_empty());
    /// ```
    pub fn retain<F: FnMut(&AnyRange<K>, &V) -> bool>(&mut self, f: F)
        requires { F.IsAlwaysCallable f }
        ensures filtered { IsFiltered (CalledAtItem F.FnMut) f (C.items self.old)
            (C.items self.new) }
        ensures kept { BindOnlyAsBefore K.order V.eq (C.items self.old) (C.items self.new) }
        ensures canonical { IsCanonical K.order V.eq (C.items self.new) }
        ensures few { length (C.items self.new) ≤ length (C.items self.old) }
        ensures space { C.room self.old + length (C.items self.old)
            ≤ C.room self.new + length (C.items self.new) }
    {
        self.in_form();
        let mut f = f;
        let mut at = self.stored.first();
        while let Some(p) = at {
            if keeps(&mut f, self.stored.get(p)) {
                at = self.stored.next(p);
            } else {
                let (_removed, following) = self.stored.remove_at(p);
                at = following;
            }
        }
    }
}
