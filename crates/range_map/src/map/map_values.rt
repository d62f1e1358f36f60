//! A map with a new value for each of its values.
ghost use Rattle.std.specs.Prelude.{◌≡◌, IfOk, Ok, Err};
ghost use Rattle.std.specs.Fn.{FnReturnsAt};
ghost use Rattle.range_algebra.specs.Clones.{IsRangeClone};
ghost use Rattle.range_algebra.specs.Range.{ClonesAreEqual, IsKeyRange};
ghost use Rattle.range_map.specs.MappedValues.{AnswersItem, AreFirstAnswered, AreMapped, IsAnsweredEach, MayBeAskedOfValues};
ghost use Rattle.range_merge.specs.Merged.{part_item};
ghost use Rattle.range_runs.specs.Canonical.{IsCanonical};
ghost use Rattle.range_runs.specs.declared.error.UpdateError.TheVariants.{Closure as ClosureError, Memory as MemoryError};

use crate::inner::build::map_of;
use crate::map::RangeMap;
use crate::map::parts::next_part;
use range_algebra::any::AnyRange;
use range_algebra::inner;
use range_bulk::append::push;
use range_keys::traits::PartialEnum;
use range_merge::merged::{Part, keys_of};
use range_runs::error::UpdateError;
use range_store::storage::{Item, Storage};

/// A clone of the range, with what the closure returns for the value.
fn answered<'a, K: PartialEnum + Clone, V, W: Drop, E: Drop, F: Fn(&V) -> Result<W, E>>(
    part: Part<'a, K, V>,
    f: &F,
) -> Result<Item<AnyRange<K>, W>, UpdateError<E>>
    requires { (shown : _) → shown.now ≡ (part_item part).value → F.pre f.now shown }
    ensures range { IfOk result
        (λ item. IsRangeClone K.is_clone (part_item part.entry).key item.key) }
    ensures known { IfOk result (λ item. IsKeyRange K.order item.key) }
    ensures value { IfOk result
        (λ item. FnReturnsAt F.Fn f.now (part_item part.entry).value (Ok item.value)) }
    ensures closure { (e : E) → result ≡ Err (ClosureError e)
        → FnReturnsAt F.Fn f.now (part_item part.entry).value (Err e) }
    ensures memory { result ≡ Err MemoryError
        → (answer : W) × FnReturnsAt F.Fn f.now (part_item part.entry).value (Ok answer) }
{
    match f(part.value) {
        Ok(value) => {
            let key = keys_of(part).cloned()?;
            inner::known(&key);
            Ok(Item { key, value })
        }
        Err(e) => Err(UpdateError::Closure(e)),
    }
}

/// A map of what the closure returns for all values.
fn answers_to<
    K: PartialEnum + Clone,
    V: Eq + Drop,
    W: Eq + Drop,
    E: Drop,
    C: Storage<Item<AnyRange<K>, V>>,
    D: Storage<Item<AnyRange<K>, W>>,
    F: Fn(&V) -> Result<W, E>,
>(map: &RangeMap<K, V, C>, f: &F) -> Result<RangeMap<K, W, D>, UpdateError<E>>
    requires keys { ClonesAreEqual K.is_clone K.eq }
    requires asked { MayBeAskedOfValues F.Fn f.now (C.items map.now) }
    ensures answers { IfOk result
        (λ new. IsAnsweredEach K.order F.Fn f.now W.eq (C.items map.now) (D.items new)) }
    ensures canonical { IfOk result (λ new. IsCanonical K.order W.eq (D.items new)) }
    ensures closure { (e : E) → result ≡ Err (ClosureError e)
        → AnswersItem F.Fn f.now (C.items map.now) (Err e) }
    ensures memory { result ≡ Err MemoryError
        → AreFirstAnswered F.Fn f.now (C.items map.now) }
{
    map.in_form();
    let mut answers = Vec::new(map.alloc);
    let mut items = map.iter();
    while let Some(part) = next_part(&mut items) {
        let item = answered(part, f)?;
        push(&mut answers, item, items.len())?;
    }
    Ok(map_of(map.alloc, answers)?)
}

impl<K: PartialEnum + Clone, V: Eq + Drop, C: Storage<Item<AnyRange<K>, V>>> RangeMap<K, V, C> {
    /// A map that binds each key of this map to what the closure returns for its value.
    ///
    /// The closure is called once for each stored range, in ascending order; an error that it
    /// returns ends the call. Ranges that touch and get equal values are kept as one. The two maps
    /// may be kept in two kinds of containers.
    ///
    /// Allocates a list of as many ranges as this map has and capacity for those that come of it,
    /// each at once, and a clone of each bound. Fails with `Memory` where an allocation does, and
    /// only once the closure returned no error for the first value. Costs a step for each stored
    /// range, and no search.
    ///
    /// ```
    /// // of a map that binds 0..=5 to 1, and 6..=8 to 2
    /// let halved = |value: &i64| -> Result<i64, u8> { Ok(*value / 2) };
    /// let halves: Result<RangeMap<i32, i64>, UpdateError<u8>> = map.map_values(halved);
    /// assert!(rt; halves.is_ok()); // it binds 0..=5 to 0, and 6..=8 to 1
    /// ```
    pub fn map_values<
        W: Eq + Drop,
        E: Drop,
        D: Storage<Item<AnyRange<K>, W>>,
        F: Fn(&V) -> Result<W, E>,
    >(&self, f: F) -> Result<RangeMap<K, W, D>, UpdateError<E>>
        requires keys { ClonesAreEqual K.is_clone K.eq }
        requires asked { MayBeAskedOfValues F.Fn f (C.items self.now) }
        ensures bound { IfOk result
            (λ new. AreMapped K.order F.Fn f W.eq (C.items self.now) (D.items new)) }
        ensures answers { IfOk result
            (λ new. IsAnsweredEach K.order F.Fn f W.eq (C.items self.now) (D.items new)) }
        ensures canonical { IfOk result (λ new. IsCanonical K.order W.eq (D.items new)) }
        ensures closure { (e : E) → result ≡ Err (ClosureError e)
            → AnswersItem F.Fn f (C.items self.now) (Err e) }
        ensures memory { result ≡ Err MemoryError
            → AreFirstAnswered F.Fn f (C.items self.now) }
    {
        self.in_form();
        let new = answers_to(self, &f)?;
        Ok(new)
    }
}
