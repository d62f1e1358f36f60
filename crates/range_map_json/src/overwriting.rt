//! Maps as JSON values of which the last element counts.
ghost use Rattle.std.specs.Prelude.{◌≡◌, ◌⊎◌, Some, None, IfOk, OnOk, IfErr};
ghost use Rattle.range_algebra.specs.Range.{ClonesAreEqual, IsEmptyRange, IsKeyRange};
ghost use Rattle.range_runs.specs.Bindings.{IsBoundAfter};
ghost use Rattle.range_runs.specs.Canonical.{IsCanonical};
ghost use Rattle.range_runs.specs.Frames.{IsInsertionFrame};
ghost use Rattle.range_map_json.specs.Overwriting.{overwriting_fault, IsMapOverwritten};
ghost use Rattle.range_json.specs.declared.error.JsonError.TheVariants.{Memory};

use range_algebra::any::AnyRange;
use range_algebra::inner;
use range_json::inner::{element_from_json, elements_of_map};
use range_json::json::{Json, JsonError, JsonTree};
use range_keys::traits::Measure;
use range_map::map::{MapError, RangeMap};
use range_store::storage::{Item, Storage};
use std::alloc::Global;

/// Binds the keys of an element, whether or not they are bound.
fn overwrite_element<K: Measure + Clone, V: Eq + Clone, C: Storage<Item<AnyRange<K>, V>>>(
    map: &mut RangeMap<K, V, C>,
    item: Item<AnyRange<K>, V>,
) -> Result<(), MapError>
    requires keys { ClonesAreEqual K.is_clone K.eq }
    requires values { ClonesAreEqual V.is_clone V.eq }
    ensures known { IsKeyRange K.order item.key }
    ensures bound { OnOk result
        (IsBoundAfter K.order V.eq (C.items map.old) (C.items map.new) item.key item.value) }
    ensures frame { OnOk result
        ((¬ IsEmptyRange K.order item.key)
        → IsInsertionFrame K.order V.eq (C.items map.old) (C.items map.new) item.key
        item.value) }
    ensures canonical { IsCanonical K.order V.eq (C.items map.new) }
{
    let Item { key, value } = item;
    inner::known(&key);
    map.insert(key, value)
}

/// A map that binds each key to the value beside the last range in the array that holds it.
///
/// Reads what `map_from_json` reads, and also elements whose ranges meet: a later one overwrites
/// the earlier ones, as `extend` of a map does. So blocks within blocks can be loaded, the outer
/// ones first. Costs an insertion for each element.
///
/// ```
/// let text = r#"[[[{"Included":0},{"Excluded":9}],1],[[{"Included":3},{"Excluded":5}],2]]"#;
/// let map = nested(rt.alloc(), text)?; // by `map_from_json_overwriting`
/// assert!(rt; map.get(2) == Some(&1) && map.get(3) == Some(&2) && map.get(5) == Some(&1));
/// ```
///
/// # Errors
///
/// As those of `map_from_json`, but that no element is at fault for what it meets.
pub fn map_from_json_overwriting<
    K: Json + Measure + Clone,
    V: Json + Eq + Clone,
    C: Storage<Item<AnyRange<K>, V>>,
    J: JsonTree,
>(alloc: Global, value: &J) -> Result<RangeMap<K, V, C>, JsonError>
    requires keys { ClonesAreEqual K.is_clone K.eq }
    requires values { ClonesAreEqual V.is_clone V.eq }
    ensures read { IfOk result
        (λ map. IsMapOverwritten K.order K.is_read V.is_read V.eq (J.content value.now) (C.items map)) }
    ensures canonical { IfOk result (λ map. IsCanonical K.order V.eq (C.items map)) }
    ensures sound { OnOk result (overwriting_fault K.reads V.reads (J.content value.now) ≡ None) }
    ensures fault { IfErr result
        (λ e. (e ≡ Memory)
        ⊎ (overwriting_fault K.reads V.reads (J.content value.now) ≡ Some e)) }
{
    let elements = elements_of_map(value)?;
    let mut map = RangeMap::new(alloc);
    for (index, element) in elements.iter().enumerate() {
        let item = element_from_json(alloc, element, index)?;
        overwrite_element(&mut map, item)?;
    }
    Ok(map)
}
