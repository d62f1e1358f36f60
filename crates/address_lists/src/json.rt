//! A list as JSON: an object with the set of its addresses of either family.

ghost use Rattle.std.specs.Prelude.{◌≡◌, ◌≢◌, ◌↔◌, ◌++◌, ◌<◌, ◌^◌, ℕ, List, Err, Some, IfErr, IfOk, IfSome, IsTrue, MatchOption, Ok, OnOk, false, map, option_map, string_bytes, true};
ghost use Rattle.std.specs.List.{AllByRecursion};
ghost use Rattle.serde_json.specs.Read.{read};
ghost use Rattle.serde_json.specs.View.{view};
ghost use Rattle.btree_range_map.specs.Faults.{IsSetRead};
ghost use Rattle.btree_range_map.specs.Holding.{box_items};
ghost use Rattle.btree_range_map.specs.KeySets.{HoldsKey};
ghost use Rattle.btree_range_map.specs.Range.{ClonesAreEqual};
ghost use Rattle.address_prefixes.specs.Runs.{AreRuns, IsSpan};
ghost use Rattle.address_lists.specs.Json.{AreInOrder, IsDocument, IsFirstReversed, IsInOrder, IsJsonReason, IsListRead, IsListShape, IsListText, IsMemberRead, IsMemberReason, IsOrderReason, IsReversed, IsReversedValue, IsSetReason, IsValueReason, bound_key, list_shape, runs_shape, span_shape};
ghost use Rattle.address_lists.specs.declared.read.ListError.TheVariants.{Unread};

use crate::addresses::{Addresses, empty_set};
use crate::print::FamilyAddress;
use crate::read::ListError;
use address_sets::{Address, AddressSet, Ipv4, Ipv6, Runs, runs_of};
use address_text::{Family, place_in};
use btree_range_map::AnyRange;
use btree_range_map::json::{Json, JsonError, range_from_json, range_to_json, set_from_json};
use line_program::read::LineRead;
use serde_json::{Map, Value};
use std::alloc::{AllocError, Global};
use std::fmt;
use std::ops::Bound;

/// Why a JSON text was not read as a list.
#[derive(Clone, Copy, PartialEq, Eq, Debug)]
pub enum JsonFault {
    /// The text is no JSON.
    Text {
        /// The number of the line where the reader of JSON sees this, from 1.
        line: usize,
        /// The number of the byte in the line.
        column: usize,
    },
    /// The value is no object with a member `IPv4` or `IPv6`.
    Members,
    /// The member of this family is no set of its addresses.
    Set(Family, JsonError),
    /// A range in the set of this family begins above its end: the element of this index, from 0.
    Reversed(Family, usize),
}

impl fmt::Display for JsonFault {
    fn fmt<W: fmt::Write>(&self, f: &mut fmt::Formatter<W>) -> fmt::Result {
        match self {
            JsonFault::Text { line, column } => {
                write!(f, "line {line}, column {column}: expected JSON")
            }
            JsonFault::Members => write!(f, "expected an object with a member IPv4 or IPv6"),
            JsonFault::Set(Family::V4, fault) => write!(f, "IPv4: {fault}"),
            JsonFault::Set(Family::V6, fault) => write!(f, "IPv6: {fault}"),
            JsonFault::Reversed(Family::V4, place) => {
                write!(f, "IPv4: element {place}: the range begins above its end")
            }
            JsonFault::Reversed(Family::V6, place) => {
                write!(f, "IPv6: element {place}: the range begins above its end")
            }
        }
    }
}

/// The value of the addresses from the first to the last.
fn span_value<A: Address + Json>(alloc: Global, ends: (u128, u128)) -> Result<Value, AllocError>
    requires first { ends.0 < 2 ^ A.WIDTH }
    requires last { ends.1 < 2 ^ A.WIDTH }
    ensures { IfOk result (λ value. view value ≡ span_shape A.shape A.at ends) }
{
    let (first, last) = ends;
    let range = AnyRange {
        start: Bound::Included(A::at(first)),
        end: Bound::Included(A::at(last)),
    };
    range_to_json(alloc, &range)
}

fn runs_value<'a, A: Address + Json + 'a>(
    alloc: Global,
    mut runs: Runs<'a, A>,
) -> Result<Value, AllocError>
    requires { AllByRecursion (IsSpan A.WIDTH) runs }
    ensures { IfOk result (λ value. view value ≡ runs_shape A.shape A.at runs.entry) }
{
    let mut written = Vec::new(alloc);
    while let Some(ends) = runs.next() {
        written.push(span_value::<A>(alloc, ends)?)?;
    }
    Ok(Value::Array(written))
}

/// The set of one family as a JSON value.
fn set_value<A: Address + Json>(alloc: Global, set: &AddressSet<A>) -> Result<Value, AllocError>
    ensures { IfOk result (λ value. (runs : List (ℕ × ℕ))
        × AreRuns (λ n. HoldsKey A.order (box_items set.now) (A.at n)) (2 ^ A.WIDTH) runs
        × (view value ≡ runs_shape A.shape A.at runs)) }
{
    runs_value(alloc, runs_of(set))
}

/// The object with the sets of both families.
fn list_value(alloc: Global, v4: Value, v6: Value) -> Result<Value, AllocError>
    ensures { IfOk result (λ value. view value ≡ list_shape (view v4) (view v6)) }
{
    let mut members = Map::new(alloc);
    serde_json::put(&mut members, alloc, "IPv4", v4)?;
    serde_json::put(&mut members, alloc, "IPv6", v6)?;
    Ok(Value::Object(members))
}

/// The list as a JSON value. Allocates; fails where an allocation fails.
///
/// Two lists with the same addresses have the same value: of each family the array of its ranges,
/// each as wide as it goes, ascending, with its first and its last address.
pub fn list_to_json(alloc: Global, list: &Addresses) -> Result<Value, AllocError>
    ensures { IfOk result (λ value. IsListShape list.now (view value)) }
{
    let v4 = set_value(alloc, &list.v4)?;
    let v6 = set_value(alloc, &list.v6)?;
    list_value(alloc, v4, v6)
}

/// The text of the list as JSON, the same for all lists with its addresses. Allocates; fails where
/// an allocation fails.
///
/// ```
/// // of a list of the addresses 10.0.0.0 to 10.0.0.5
/// let text = list_to_text(rt.alloc(), &list)?;
/// let v4 = r#"[[{"Included":"10.0.0.0"},{"Included":"10.0.0.5"}]]"#;
/// assert!(rt; text == format!(in rt.alloc(); "{{\"IPv4\":{v4},\"IPv6\":[]}}")?);
/// ```
pub fn list_to_text(alloc: Global, list: &Addresses) -> Result<String, AllocError>
    ensures { IfOk result (λ text. IsListText list.now (string_bytes text)) }
{
    list_to_json(alloc, list)?.to_string(alloc)
}

/// The address at which a bound stands.
fn bound_key<A: Copy>(bound: &Bound<A>) -> Option<A>
    ensures { result ≡ bound_key bound.now }
{
    match bound {
        Bound::Included(address) | Bound::Excluded(address) => Some(*address),
        Bound::Unbounded => None,
    }
}

/// Whether a range begins above its end.
fn is_reversed<A: Address>(range: &AnyRange<A>) -> bool
    ensures { IsTrue result ↔ IsReversed A.number range.now }
{
    match (bound_key(&range.start), bound_key(&range.end)) {
        (Some(first), Some(last)) => last.number() < first.number(),
        _ => false,
    }
}

/// Whether a JSON value is a range that begins above its end.
fn is_reversed_value<A: Address + Json>(alloc: Global, value: &Value) -> Result<bool, AllocError>
    ensures reversed { result ≡ Ok true → IsReversedValue A.is_read A.number (view value.now) }
    ensures in_order { result ≡ Ok false
        → IsInOrder A.is_read A.number A.reads (view value.now) }
{
    match range_from_json::<A, _>(alloc, value) {
        Ok(range) => Ok(is_reversed(&range)),
        Err(JsonError::Memory) => Err(AllocError),
        Err(_) => Ok(false),
    }
}

/// The index of the first range that begins above its end.
fn reversed_at<A: Address + Json>(
    alloc: Global,
    elements: &[Value],
) -> Result<Option<usize>, AllocError>
    ensures { IfOk result (λ found. MatchOption found
        (AllByRecursion (IsInOrder A.is_read A.number A.reads) (map view elements.now))
        (IsFirstReversed A.is_read A.number A.reads (map view elements.now))) }
{
    for (index, element) in elements.iter().enumerate() {
        if is_reversed_value::<A>(alloc, element)? {
            return Ok(Some(index));
        }
    }
    Ok(None)
}

/// Refuses a set in which a range begins above its end.
fn check_order<A: FamilyAddress + Json>(alloc: Global, value: &Value) -> Result<(), ListError>
    ensures fine { OnOk result (AreInOrder A.is_read A.number A.reads (view value.now)) }
    ensures fault { IfErr result
        (IsOrderReason A.is_read A.number A.reads A.its_family (view value.now)) }
{
    let Some(elements) = value.as_array() else {
        return Ok(());
    };
    match reversed_at::<A>(alloc, elements.as_slice()) {
        Ok(None) => Ok(()),
        Ok(Some(place)) => Err(ListError::Json(JsonFault::Reversed(A::family(), place))),
        Err(_) => Err(ListError::Memory),
    }
}

/// The set of one family that a JSON value is, whatever the order of a range's ends.
fn any_set_of<A: FamilyAddress + Json>(
    alloc: Global,
    value: &Value,
) -> Result<AddressSet<A>, ListError>
    requires { ClonesAreEqual A.is_clone A.eq }
    ensures read { IfOk result
        (λ set. IsSetRead A.is_read A.order (view value.now) (box_items set)) }
    ensures fault { IfErr result (IsSetReason A.its_family A.reads (view value.now)) }
{
    match set_from_json(alloc, value) {
        Ok(set) => Ok(set),
        Err(JsonError::Memory) => Err(ListError::Memory),
        Err(fault) => Err(ListError::Json(JsonFault::Set(A::family(), fault))),
    }
}

/// The set of one family that a JSON value is.
fn set_of<A: FamilyAddress + Json>(alloc: Global, value: &Value) -> Result<AddressSet<A>, ListError>
    requires { ClonesAreEqual A.is_clone A.eq }
    ensures read { IfOk result (λ set. IsMemberRead A.is_read A.number A.reads A.order
        (Some (view value.now)) (box_items set)) }
    ensures fault { IfErr result
        (IsMemberReason A.its_family A.is_read A.number A.reads (Some (view value.now))) }
{
    let set = any_set_of(alloc, value)?;
    check_order::<A>(alloc, value)?;
    Ok(set)
}

/// The set of one family: of no member, no addresses.
fn member_set<A: FamilyAddress + Json>(
    alloc: Global,
    member: Option<&Value>,
) -> Result<AddressSet<A>, ListError>
    requires { ClonesAreEqual A.is_clone A.eq }
    ensures read { IfOk result (λ set. IsMemberRead A.is_read A.number A.reads A.order
        (option_map (λ v. view v.now) member.entry) (box_items set)) }
    ensures fault { IfErr result (IsMemberReason A.its_family A.is_read A.number A.reads
        (option_map (λ v. view v.now) member.entry)) }
{
    match member {
        Some(value) => set_of(alloc, value),
        None => Ok(empty_set(alloc)),
    }
}

/// The list that a JSON value is. A family that has no member has no addresses.
pub fn list_from_json(alloc: Global, value: &Value) -> Result<Addresses, ListError>
    ensures read { IfOk result (IsListRead (view value.now)) }
    ensures fault { IfErr result (IsValueReason (view value.now)) }
{
    let v4 = value.get("IPv4");
    let v6 = value.get("IPv6");
    if v4.is_none() && v6.is_none() {
        return Err(ListError::Json(JsonFault::Members));
    }
    let v4 = member_set::<Ipv4>(alloc, v4)?;
    let v6 = member_set::<Ipv6>(alloc, v6)?;
    Ok(Addresses { v4, v6 })
}

/// The JSON value of a text.
fn value_of(alloc: Global, text: &[u8]) -> Result<Value, ListError>
    ensures read { IfOk result (λ value. read text.now ≡ Some (view value)) }
    ensures fault { IfErr result (IsJsonReason text.now) }
    ensures in_memory { IfErr result (λ error. error ≢ Unread) }
{
    match Value::from_slice(alloc, text) {
        Ok(value) => Ok(value),
        Err(error) if error.is_memory() => Err(ListError::Memory),
        Err(error) => {
            let (line, column) = place_in(text, error.line(), error.column());
            Err(ListError::Json(JsonFault::Text { line, column }))
        }
    }
}

/// Reads a list that is JSON, of which this text is read already, to its end.
pub(crate) fn read_json_after<R: LineRead>(
    alloc: Global,
    mut text: Vec<u8>,
    input: &mut R,
) -> Result<Addresses, ListError>
    ensures read { IfOk result (λ list. IfSome (R.remaining input.old)
        (λ bytes. IsDocument (text.items ++ bytes) list)) }
    ensures fault { IfErr result (λ error. IfSome (R.remaining input.old)
        (λ bytes. IsJsonReason (text.items ++ bytes) error)) }
    ensures unread { result ≡ Err Unread → R.fails }
{
    if let Err(error) = input.read_rest(&mut text) {
        return Err(ListError::from(error));
    }
    let value = value_of(alloc, text.as_slice())?;
    list_from_json(alloc, &value)
}

/// Reads a list that is JSON, to its end. The text and its value are held in memory.
///
/// # Errors
///
/// `Json` with the fault of the text, or of the first set that has one. `Unread` where a read of
/// the input failed, and nowhere else.
pub fn read_json<R: LineRead>(alloc: Global, input: &mut R) -> Result<Addresses, ListError>
    ensures read { IfOk result (λ list. IfSome (R.remaining input.old)
        (λ bytes. IsDocument bytes list)) }
    ensures fault { IfErr result (λ error. IfSome (R.remaining input.old)
        (λ bytes. IsJsonReason bytes error)) }
    ensures unread { result ≡ Err Unread → R.fails }
{
    read_json_after(alloc, Vec::new(alloc), input)
}
