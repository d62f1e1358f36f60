//! Binding the keys of a range where it meets no stored one.
ghost use Rattle.std.specs.Prelude.{◌≡◌, ◌↔◌, ◌≤◌, IsErrAnd, IfErr, OnOk, OnErr, IsOk};
ghost use Rattle.range_algebra.specs.Range.{IsEmptyRange};
ghost use Rattle.range_runs.specs.Bindings.{IsBoundAfter};
ghost use Rattle.range_edit.specs.Changes.{IsInserted};
ghost use Rattle.range_runs.specs.Canonical.{IsCanonical};
ghost use Rattle.range_runs.specs.Frames.{IsInsertionFrame};
ghost use Rattle.range_map.specs.Freeing.{IsOccupied, given_back};
ghost use Rattle.range_runs.specs.Lookups.{MeetsSome, MeetAlso};
ghost use Rattle.range_runs.specs.Stored.{IsStored};

use crate::map::RangeMap;
use range_algebra::any::AnyRange;
use range_algebra::inner;
use range_algebra::range::IntoRange;
use range_edit::append::{comes_last, put_apart};
use range_edit::free::bind_free;
use range_edit::reach::Ends;
use range_keys::traits::Measure;
use range_runs::window::find_window;
use range_store::storage::{Item, Steps, Storage};

/// Why a range was not inserted, with the range and the value that were given.
#[derive(Drop)]
pub enum NotFree<K, V> {
    /// The range meets a stored one.
    Occupied(AnyRange<K>, V),
    /// There was not enough memory.
    Memory(AnyRange<K>, V),
}

/// Binds each key of a nonempty range to the value where no stored range meets it.
fn bind_where_free<K: Measure, V: Eq + Drop, C: Storage<Item<AnyRange<K>, V>>>(
    stored: &mut C,
    range: AnyRange<K>,
    value: V,
) -> Result<(), NotFree<K, V>>
    requires stored { IsStored K.order V.eq (C.items stored.old) }
    requires nonempty { ¬ IsEmptyRange K.order range }
    ensures occupied { IsErrAnd result IsOccupied ↔ MeetsSome K.order (C.items stored.old) range }
    ensures given { IfErr result (λ e. given_back e ≡ (range, value)) }
    ensures ok { OnOk result
        (IsInserted K.order V.eq (C.items stored.old) (C.items stored.new) range value) }
    ensures refused { OnErr result (C.items stored.new ≡ C.items stored.old) }
    ensures succeeds { 1 ≤ C.room stored.old → ¬ MeetsSome K.order (C.items stored.old) range
        → IsOk result }
{
    if comes_last::<K, V, C>(stored, &range) {
        return match put_apart::<K, V, C>(stored, None, Item { key: range, value }) {
            Ok(()) => Ok(()),
            Err(refused) => {
                let Item { key, value } = refused.value;
                Err(NotFree::Memory(key, value))
            }
        };
    }
    let mut steps = Steps::new();
    let window = find_window::<K, V, C, AnyRange<K>>(stored, &range, &mut steps);
    if window.count > 0 {
        return Err(NotFree::Occupied(range, value));
    }
    let ends = Ends {
        window,
        first: None,
        last: None,
    };
    match bind_free::<K, V, C>(stored, &ends, Item { key: range, value }, &mut steps) {
        Ok(()) => Ok(()),
        Err(refused) => {
            let Item { key, value } = refused.value;
            Err(NotFree::Memory(key, value))
        }
    }
}

impl<K: Measure, V: Eq + Drop, C: Storage<Item<AnyRange<K>, V>>> RangeMap<K, V, C> {
    /// Binds each key of the range to the value where the range meets no stored one.
    ///
    /// It may touch stored ranges, and becomes one with those of an equal value, as with `insert`.
    /// An empty range changes nothing. An error hands back the range and the value, and leaves the
    /// map as it was. Clones nothing; allocates where the container has no capacity for one more
    /// range. Costs one search, and a step for each stored range that the range meets or touches;
    /// no search where it comes after all stored ones.
    ///
    /// ```
    /// assert!(rt; map.try_insert(0..5, 1).is_ok());
    /// assert!(rt; map.try_insert(5..9, 2).is_ok()); // it only touches 0..5
    /// assert!(rt; map.try_insert(8..12, 3).is_err()); // 5..9 is in the way
    /// ```
    pub fn try_insert<R: IntoRange<Item = K>>(
        &mut self,
        range: R,
        value: V,
    ) -> Result<(), NotFree<K, V>>
        ensures occupied { IsErrAnd result IsOccupied
            ↔ (¬ IsEmptyRange K.order (R.range range))
            × MeetsSome K.order (C.items self.old) (R.range range) }
        ensures given { IfErr result (λ e. given_back e ≡ (R.range range, value)) }
        ensures bound { OnOk result
            (IsBoundAfter K.order V.eq (C.items self.old) (C.items self.new) (R.range range)
            value) }
        ensures frame { OnOk result
            (¬ IsEmptyRange K.order (R.range range)
            → IsInsertionFrame K.order V.eq (C.items self.old) (C.items self.new) (R.range range)
            value) }
        ensures meets { OnOk result
            (¬ IsEmptyRange K.order (R.range range)
            → MeetAlso K.order (C.items self.old) (C.items self.new) (R.range range)) }
        ensures canonical { IsCanonical K.order V.eq (C.items self.new) }
        ensures refused { OnErr result (C.items self.new ≡ C.items self.old) }
        ensures succeeds { 1 ≤ C.room self.old
            → ¬ MeetsSome K.order (C.items self.old) (R.range range) → IsOk result }
        ensures empty { IsEmptyRange K.order (R.range range) → IsOk result }
        ensures empty_unchanged { IsEmptyRange K.order (R.range range)
            → C.items self.new ≡ C.items self.old }
    {
        self.in_form();
        let range = range.into_range();
        inner::known(&range);
        if range.is_empty() {
            drop(range);
            return Ok(());
        }
        bind_where_free::<K, V, C>(&mut self.stored, range, value)
    }
}
