//! Multimaps as JSON values.
ghost use Rattle.std.specs.Prelude.{◌≡◌, ◌⊎◌, Some, None, IfOk, OnOk, IfErr};
ghost use Rattle.std.specs.BTreeSet.{IsEmpty};
ghost use Rattle.serde_json.specs.View.{view};
ghost use Rattle.range_algebra.specs.Range.{IsEmptyRange, IsKeyRange};
ghost use Rattle.range_runs.specs.Bindings.{IsBoundAfter};
ghost use Rattle.range_runs.specs.Canonical.{IsCanonical};
ghost use Rattle.range_runs.specs.Frames.{IsInsertionFrame};
ghost use Rattle.range_runs.specs.Lookups.{MeetsSome, MeetAlso};
ghost use Rattle.range_multimaps.specs.Pairs.{HasNoEmptySet};
ghost use Rattle.range_json.specs.Shapes.{map_shape};
ghost use Rattle.range_json.specs.MapFaults.{IsElementRead, element_fault};
ghost use Rattle.range_json.specs.Values.{AreItemValues};
ghost use Rattle.range_json.specs.ValueSets.{values_shape, reads_some_values, same_values, IsValueSet, AreValuesRead};
ghost use Rattle.range_set_json.specs.MultimapFaults.{IsMultimapRead, IsMultimapFault};
ghost use Rattle.range_json.specs.declared.error.JsonError.TheVariants.{Memory, Meets};

use range_algebra::any::AnyRange;
use range_algebra::inner;
use range_json::inner::{element_from_json, elements_of_map, pair_to_json, versioned};
use range_json::json::{Json, JsonError, JsonTree};
use range_keys::traits::{Measure, PartialEnum};
use range_map::map::NotFree;
use range_multimaps::inner::insert_set;
use range_multimaps::multimap::{MaybeEmpty, RangeMultiMap};
use range_store::storage::{Item, Storage};
use serde_json::Value;
use std::alloc::{AllocError, Global};
use std::collections::BTreeSet;

/// The multimap as `map_to_json` writes a map, each set as the array of its values, in ascending
/// order. Allocates; fails where an allocation fails.
///
/// The keys of `0..5` with the values 3 and 7 are written as
/// `{"items":[[[{"Included":0},{"Excluded":5}],[3,7]]],"version":2}`.
pub fn multimap_to_json<
    K: Json + PartialEnum,
    V: Json + Ord + Clone,
    C: Storage<Item<AnyRange<K>, BTreeSet<V>>>,
>(alloc: Global, multimap: &RangeMultiMap<K, BTreeSet<V>, C>) -> Result<Value, AllocError>
    ensures written { IfOk result
        (λ v. view v ≡ map_shape K.shape (values_shape V.shape) (C.items multimap.now)) }
    ensures values { OnOk result
        (AreItemValues K.is_value (IsValueSet V.cmp V.is_value) (C.items multimap.now)) }
{
    let mut written = Vec::with_capacity(alloc, multimap.range_count())?;
    let mut items = multimap.iter();
    while let Some((range, set)) = items.next() {
        written.push(pair_to_json(alloc, range, set)?)?;
    }
    versioned(alloc, written)
}

/// The range and the nonempty set of the element at `index`.
fn element_with_values<K: Json, V: Json + Ord + Clone, J: JsonTree>(
    alloc: Global,
    value: &J,
    index: usize,
) -> Result<Item<AnyRange<K>, BTreeSet<V>>, JsonError>
    ensures read { IfOk result
        (IsElementRead K.is_read (AreValuesRead V.cmp V.is_read) (J.content value.now)) }
    ensures nonempty { IfOk result (λ x. ¬ IsEmpty x.value) }
    ensures sound { OnOk result
        (element_fault K.reads (reads_some_values V.reads) index (J.content value.now) ≡ None) }
    ensures fault { IfErr result
        (λ e. (e ≡ Memory)
        ⊎ (element_fault K.reads (reads_some_values V.reads) index (J.content value.now)
        ≡ Some e)) }
{
    let element = element_from_json::<K, BTreeSet<V>, J>(alloc, value, index)?;
    if element.value.is_empty() {
        return Err(JsonError::Value(index));
    }
    Ok(element)
}

/// Gives the keys of the element at `index` its values, where its range meets no stored one.
fn insert_values<K: Measure, S: MaybeEmpty, C: Storage<Item<AnyRange<K>, S>>>(
    multimap: &mut RangeMultiMap<K, S, C>,
    item: Item<AnyRange<K>, S>,
    index: usize,
) -> Result<(), JsonError>
    requires { ¬ S.is_void item.value }
    ensures known { IsKeyRange K.order item.key }
    ensures apart { OnOk result
        (¬ ((¬ IsEmptyRange K.order item.key)
        × MeetsSome K.order (C.items multimap.old) item.key)) }
    ensures bound { OnOk result
        (IsBoundAfter K.order S.eq (C.items multimap.old) (C.items multimap.new) item.key
        item.value) }
    ensures meets { OnOk result
        ((¬ IsEmptyRange K.order item.key)
        → MeetAlso K.order (C.items multimap.old) (C.items multimap.new) item.key) }
    ensures frame { OnOk result
        ((¬ IsEmptyRange K.order item.key)
        → IsInsertionFrame K.order S.eq (C.items multimap.old) (C.items multimap.new) item.key
        item.value) }
    ensures canonical { IsCanonical K.order S.eq (C.items multimap.new) }
    ensures empty_unchanged { IsEmptyRange K.order item.key
        → C.items multimap.new ≡ C.items multimap.old }
    ensures met { IfErr result
        (λ e. (e ≡ Memory)
        ⊎ ((e ≡ Meets index) × (¬ IsEmptyRange K.order item.key)
        × MeetsSome K.order (C.items multimap.old) item.key)) }
{
    let Item { key, value } = item;
    inner::known(&key);
    match insert_set(multimap, key, value) {
        Ok(()) => Ok(()),
        Err(NotFree::Occupied(_, _)) => Err(JsonError::Meets(index)),
        Err(NotFree::Memory(_, _)) => Err(JsonError::Memory),
    }
}

/// A multimap of the pairs that the elements of an array stand for: each key of an element's range
/// with each value in the array beside it.
///
/// Reads what `multimap_to_json` writes, and the bare array of its member `items`. The values may
/// stand in any order, and one may stand twice. Touching ranges of equal sets are kept as one, and
/// empty ranges pair nothing. Costs an insertion for each element.
///
/// # Errors
///
/// As those of `map_from_json`; `Value` where the value is no array of values, or an empty one.
pub fn multimap_from_json<
    K: Json + Measure,
    V: Json + Ord + Clone,
    C: Storage<Item<AnyRange<K>, BTreeSet<V>>>,
    J: JsonTree,
>(alloc: Global, value: &J) -> Result<RangeMultiMap<K, BTreeSet<V>, C>, JsonError>
    ensures read { IfOk result
        (λ map. IsMultimapRead K.order K.reads V.reads K.is_read V.is_read V.cmp V.eq
        (J.content value.now) (C.items map)) }
    ensures canonical { IfOk result (λ map. IsCanonical K.order (same_values V.eq) (C.items map)) }
    ensures nonempty { IfOk result (λ map. HasNoEmptySet IsEmpty (C.items map)) }
    ensures fault { IfErr result
        (λ e. (e ≡ Memory)
        ⊎ IsMultimapFault K.order K.reads V.reads K.is_read V.is_read V.cmp (J.content value.now) e) }
{
    let elements = elements_of_map(value)?;
    let mut multimap = RangeMultiMap::new(alloc);
    for (index, element) in elements.iter().enumerate() {
        let item = element_with_values(alloc, element, index)?;
        insert_values(&mut multimap, item, index)?;
    }
    // For the proof: `iter` promises the form of the list.
    drop(multimap.iter());
    Ok(multimap)
}
