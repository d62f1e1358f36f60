//! A map cut in two at a key.
ghost use Rattle.std.specs.Prelude.{◌≡◌, ◌+◌, ◌≤◌, length, IfOk, IsOk, OnErr};
ghost use Rattle.std.specs.declared.ops.Bound.TheVariants.{Included, Unbounded};
ghost use Rattle.range_algebra.specs.Range.{ClonesAreEqual};
ghost use Rattle.range_bulk.specs.Splitting.{IsSplitAt};
ghost use Rattle.range_runs.specs.Canonical.{IsCanonical};
ghost use Rattle.range_runs.specs.Lookups.{MeetsSome};

use crate::map::RangeMap;
use range_algebra::any::AnyRange;
use range_bulk::append::move_all;
use range_bulk::split::divide;
use range_edit::error::MapError;
use range_keys::traits::PartialEnum;
use range_store::storage::{Item, Storage};
use std::marker::PhantomData;

impl<K: PartialEnum + Clone, V: Eq + Clone, C: Storage<Item<AnyRange<K>, V>>> RangeMap<K, V, C> {
    /// Moves what lies from the key on, the key with it, to a map of its own, which is returned.
    ///
    /// A stored range that holds the key is cut there, unless it starts there. Allocates what the
    /// new map needs, and a clone of the key and of the value of the range that is cut. After an
    /// error the map is as it was. Where no stored range holds or comes after the key, it allocates
    /// nothing and succeeds. Costs a step for each range that is moved, and one more; over a vector
    /// each step moves all that were moved before.
    ///
    /// ```
    /// // of a map that binds 0..=5 to 1
    /// let rest = map.split_off(4)?;
    /// assert!(rt; map.len() == 4 && rest.len() == 2); // 0..4, and 4..=5
    /// ```
    pub fn split_off(&mut self, key: K) -> Result<Self, MapError>
        requires keys { ClonesAreEqual K.is_clone K.eq }
        requires values { ClonesAreEqual V.is_clone V.eq }
        ensures split { IfOk result (λ rest. IsSplitAt K.order V.eq key (C.items self.old)
            (C.items self.new) (C.items rest)) }
        ensures canonical { IsCanonical K.order V.eq (C.items self.new) }
        ensures rest_canonical { IfOk result (λ rest. IsCanonical K.order V.eq (C.items rest)) }
        ensures few { IfOk result (λ rest. length (C.items self.new) + length (C.items rest)
            ≤ length (C.items self.old) + 1) }
        ensures succeeds { ¬ MeetsSome K.order (C.items self.old)
            (record { start = Included key; end = Unbounded }) → IsOk result }
        ensures refused { OnErr result (C.items self.new ≡ C.items self.old) }
    {
        self.in_form();
        let mut rest = C::new(self.alloc);
        match divide::<K, V, C>(&mut self.stored, &mut rest, key) {
            Ok(()) => Ok(RangeMap {
                stored: rest,
                alloc: self.alloc,
                item: PhantomData,
            }),
            Err(_error) => {
                move_all(&mut self.stored, &mut rest);
                Err(MapError::Memory)
            }
        }
    }
}
