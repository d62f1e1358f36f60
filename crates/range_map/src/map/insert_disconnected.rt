//! Binding a range that lies apart from all that is stored.
ghost use Rattle.std.specs.Prelude.{◌≡◌, ◌↔◌, ◌+◌, ◌≤◌, length, IsErrAnd, IfErr, OnOk, OnErr, IsOk};
ghost use Rattle.range_algebra.specs.Range.{IsEmptyRange};
ghost use Rattle.range_runs.specs.Bindings.{IsBoundAfter};
ghost use Rattle.range_runs.specs.Canonical.{IsCanonical};
ghost use Rattle.range_runs.specs.Lookups.{IsConnectedToSome, IsPutInto, MeetAlso};
ghost use Rattle.range_edit.specs.Apart.{IsConnectedError, handed_back};

use crate::map::RangeMap;
use range_algebra::any::AnyRange;
use range_algebra::inner;
use range_algebra::range::IntoRange;
use range_edit::apart::bind_apart;
use range_edit::error::NotInserted;
use range_keys::traits::{Measure, PartialEnum};
use range_store::storage::{Item, Steps, Storage};

impl<K: Measure, V: Eq + Drop, C: Storage<Item<AnyRange<K>, V>>> RangeMap<K, V, C> {
    /// Binds each key of a range that neither meets nor touches a stored one, whatever its value.
    ///
    /// The range is stored as it is given, and no other changes. An empty range changes nothing and
    /// allocates nothing. An error hands back the range and the value, and leaves the map as it
    /// was. Clones nothing; allocates where the container has no capacity for one more range. Costs
    /// one search and two comparisons more.
    ///
    /// ```
    /// assert!(rt; map.insert_disconnected(0..5, 1).is_ok());
    /// assert!(rt; map.insert_disconnected(5..9, 2).is_err()); // it touches 0..5
    /// ```
    pub fn insert_disconnected<R: IntoRange<Item = K>>(
        &mut self,
        range: R,
        value: V,
    ) -> Result<(), NotInserted<K, V>>
        ensures connected { IsErrAnd result IsConnectedError
            ↔ (¬ IsEmptyRange K.order (R.range range))
            × IsConnectedToSome K.order (C.items self.old) (R.range range) }
        ensures given { IfErr result (λ e. handed_back e ≡ (R.range range, value)) }
        ensures put { OnOk result
            (¬ IsEmptyRange K.order (R.range range)
            → IsPutInto (C.items self.old) (C.items self.new)
            (record { key = R.range range; value = value })) }
        ensures bound { OnOk result
            (IsBoundAfter K.order V.eq (C.items self.old) (C.items self.new) (R.range range)
            value) }
        ensures meets { OnOk result
            (¬ IsEmptyRange K.order (R.range range)
            → MeetAlso K.order (C.items self.old) (C.items self.new) (R.range range)) }
        ensures canonical { IsCanonical K.order V.eq (C.items self.new) }
        ensures few { length (C.items self.new) ≤ length (C.items self.old) + 1 }
        ensures refused { OnErr result (C.items self.new ≡ C.items self.old) }
        ensures succeeds { 1 ≤ C.room self.old
            → ¬ IsConnectedToSome K.order (C.items self.old) (R.range range) → IsOk result }
        ensures empty { IsEmptyRange K.order (R.range range) → IsOk result }
        ensures empty_unchanged { IsEmptyRange K.order (R.range range)
            → C.items self.new ≡ C.items self.old }
    {
        self.in_form();
        let range = range.into_range();
        inner::known(&range);
        if range.is_empty() {
            drop(range);
            return Ok(());
        }
        bind_apart::<K, V, C>(&mut self.stored, range, value)
    }
}
