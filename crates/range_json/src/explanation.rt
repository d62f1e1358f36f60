//! What an error says of the JSON value that was not read.
ghost use Rattle.std.specs.Prelude.{◌≡◌, ℕ, IfSome, IsSome};
ghost use Rattle.serde_json.specs.View.{view};
ghost use Rattle.range_json.specs.MapFaults.{HasOneReading, IsMapFault};
ghost use Rattle.range_json.specs.Meetings.{IsFirstMetBy, MayMeetEarlier};
ghost use Rattle.range_json.specs.ValueSets.{reads_some_values, AreValuesRead};
ghost use Rattle.range_json.specs.declared.error.JsonError.TheVariants.{Meets};

use crate::array::elements_of_array;
use crate::bound::bound_from_json;
use crate::error::JsonError;
use crate::found::Found;
use crate::json::Json;
use crate::meeting::met_earlier;
use crate::range::pair;
use crate::version::elements_of_map;
use json_trees::JsonTree;
use range_keys::traits::Measure;
use serde_json::Value;
use std::collections::BTreeSet;
use std::fmt;

/// An error with what was expected, what was found and which earlier element is met. Shown, it is
/// one sentence.
#[derive(Clone, Copy, Debug, Drop, PartialEq, Eq)]
pub struct Explanation {
    /// What is explained.
    pub error: JsonError,
    /// The index of the first earlier element that is met.
    pub earlier: Option<usize>,
    // what a key or a value had to be
    expected: &'static str,
    found: Found,
}

impl fmt::Display for Explanation {
    fn fmt<W: fmt::Write>(&self, f: &mut fmt::Formatter<W>) -> fmt::Result {
        let Explanation {
            error,
            expected,
            found,
            earlier,
        } = self;
        match (error, earlier) {
            (JsonError::Memory, _) => write!(f, "{error}"),
            (JsonError::Key(index), _) => {
                write!(
                    f,
                    "element {index}: expected {expected} as the key of a bound, found {found}"
                )
            }
            (JsonError::Value(index), _) => {
                write!(
                    f,
                    "element {index}: expected {expected} as what the range is bound to, found {found}"
                )
            }
            (JsonError::Meets(index), Some(earlier)) => {
                write!(
                    f,
                    "element {index}: the range {found} meets that of element {earlier}"
                )
            }
            (JsonError::Meets(index), None) => {
                write!(
                    f,
                    "element {index}: the range {found} meets that of an earlier element"
                )
            }
            _ => write!(f, "{error}, found {found}"),
        }
    }
}

/// The bound of a range that was not read: the start, unless it is read.
fn faulty_bound<K: Json>(range: &Value) -> Option<&Value> {
    let alloc = *range.as_array()?.allocator();
    let (start, end) = pair(range)?;
    match bound_from_json::<K, Value>(alloc, start, 0) {
        Ok(_) => Some(end),
        Err(_) => Some(start),
    }
}

/// What an error of a range is found at.
fn place_in_range<'a, K: Json>(error: &JsonError, range: &'a Value) -> Option<&'a Value> {
    match error {
        JsonError::NotBound(_) => faulty_bound::<K>(range),
        JsonError::Key(_) => {
            let (_name, key) = faulty_bound::<K>(range)?.only_member()?;
            Some(key)
        }
        _ => Some(range),
    }
}

/// The element at fault.
fn element_at<'a>(error: &JsonError, elements: &'a [Value]) -> Option<&'a Value> {
    match error {
        JsonError::NotPair(index)
        | JsonError::NotRange(index)
        | JsonError::NotBound(index)
        | JsonError::Key(index)
        | JsonError::Value(index)
        | JsonError::Meets(index) => elements.get(*index),
        _ => None,
    }
}

/// What an error of a set is found at.
fn place_in_set<'a, K: Json>(error: &JsonError, set: &'a Value) -> Option<&'a Value> {
    place_in_range::<K>(error, element_at(error, set.as_array()?.as_slice())?)
}

/// What an error of a map is found at.
fn place_in_map<'a, K: Json>(error: &JsonError, map: &'a Value) -> Option<&'a Value> {
    if *error == JsonError::NotArray {
        return map.get("items");
    }
    let element = element_at(error, elements_of_map(map).ok()?)?;
    match (error, pair(element)) {
        (JsonError::Value(_), Some((_range, value))) => Some(value),
        (_, Some((range, _value))) => place_in_range::<K>(error, range),
        (_, None) => Some(element),
    }
}

impl JsonError {
    fn explained(&self, expected: &'static str, place: Option<&Value>, whole: &Value) -> Explanation
        ensures { result.error ≡ self.now }
    {
        Explanation {
            error: *self,
            expected,
            found: Found::of(place.unwrap_or(whole)),
            earlier: None,
        }
    }

    /// What an error of a map found whose values have to be such.
    fn explained_element<K: Json + Measure>(&self, values: &'static str, map: &Value) -> Explanation
        ensures error { result.error ≡ self.now }
        ensures earlier { IfSome result.earlier
            (λ j. (i : ℕ) → self.now ≡ Meets i → HasOneReading K.order K.is_read
            → IsFirstMetBy K.order K.is_read (view map.now) i j) }
        ensures found { (i : ℕ) → self.now ≡ Meets i → K.reads_in_place
            → HasOneReading K.order K.is_read
            → MayMeetEarlier K.order K.is_read K.reads (view map.now) i
            → IsSome result.earlier }
    {
        let place = place_in_map::<K>(self, map);
        match *self {
            JsonError::Value(_) => self.explained(values, place, map),
            JsonError::Meets(index) => Explanation {
                earlier: met_earlier::<K>(map, index),
                ..self.explained(K::name(), place, map)
            },
            _ => self.explained(K::name(), place, map),
        }
    }

    /// What this error of `range_from_json` found in the JSON value that it was given.
    pub fn explained_range<K: Json>(&self, value: &Value) -> Explanation
        ensures { result.error ≡ self.now }
    {
        self.explained(K::name(), place_in_range::<K>(self, value), value)
    }

    /// What this error of `set_from_json` found in the JSON value that it was given.
    pub fn explained_set<K: Json>(&self, value: &Value) -> Explanation
        ensures { result.error ≡ self.now }
    {
        self.explained(K::name(), place_in_set::<K>(self, value), value)
    }

    /// What this error of `map_from_json` or `map_from_json_overwriting` found in the JSON value that
    /// it was given.
    ///
    /// Allocates nothing, unless keys are read that do. Where their memory runs out, it does not say
    /// which earlier element is met.
    ///
    /// ```
    /// let told = JsonError::Meets(1).explained_map::<i32, i64>(&value); // by `map_from_json`
    /// let text = r#"element 1: the range [{"Included":5},"Unbounded"] meets that of element 0"#;
    /// assert!(rt; format!(in rt.alloc(); "{told}")?.as_str() == text);
    /// ```
    pub fn explained_map<K: Json + Measure, V: Json>(&self, value: &Value) -> Explanation
        ensures error { result.error ≡ self.now }
        ensures earlier { IfSome result.earlier
            (λ j. (i : ℕ) → self.now ≡ Meets i → HasOneReading K.order K.is_read
            → IsFirstMetBy K.order K.is_read (view value.now) i j) }
        ensures found { (i : ℕ) → self.now ≡ Meets i → K.reads_in_place
            → HasOneReading K.order K.is_read
            → IsMapFault K.order K.reads V.reads K.is_read V.is_read (view value.now) (Meets i)
            → IsSome result.earlier }
    {
        self.explained_element::<K>(V::name(), value)
    }

    /// What this error of `multimap_from_json` found in the JSON value that it was given.
    pub fn explained_multimap<K: Json + Measure, V: Json + Ord>(&self, value: &Value) -> Explanation
        ensures error { result.error ≡ self.now }
        ensures earlier { IfSome result.earlier
            (λ j. (i : ℕ) → self.now ≡ Meets i → HasOneReading K.order K.is_read
            → IsFirstMetBy K.order K.is_read (view value.now) i j) }
        ensures found { (i : ℕ) → self.now ≡ Meets i → K.reads_in_place
            → HasOneReading K.order K.is_read
            → IsMapFault K.order K.reads (reads_some_values V.reads) K.is_read
            (AreValuesRead V.cmp V.is_read) (view value.now) (Meets i) → IsSome result.earlier }
    {
        let explanation = self.explained_element::<K>(BTreeSet::<V>::name(), value);
        match (self, place_in_map::<K>(self, value)) {
            (JsonError::Value(_), Some(place)) if elements_of_array(place) == Ok(&[]) =>
                Explanation {
                    expected: "an array of values that is not empty",
                    ..explanation
                },
            _ => explanation,
        }
    }
}
