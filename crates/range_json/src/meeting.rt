//! Which earlier element of a map is met by one that is not read.
ghost use Rattle.std.specs.Prelude.{◌≡◌, ◌↔◌, IsTrue, IfSome, IsSome};
ghost use Rattle.serde_json.specs.View.{view};
ghost use Rattle.std.specs.List.{AllByRecursion};
ghost use Rattle.range_algebra.specs.Intervals.{Any};
ghost use Rattle.range_json.specs.MapFaults.{HasOneReading, MeetNonempty};
ghost use Rattle.range_json.specs.Meetings.{all_views, HasSoundRange, IsFirstMeeting, IsFirstMetBy, IsRangeOf, MayMeet, MayMeetEarlier};

use crate::json::Json;
use crate::range::{element_range, pair};
use crate::version::elements_of_map;
use range_algebra::any::AnyRange;
use range_keys::traits::Measure;
use serde_json::Value;

/// Whether both ranges are nonempty and meet.
fn meet<K: Measure>(range: &AnyRange<K>, other: &AnyRange<K>) -> bool
    ensures { IsTrue result ↔ MeetNonempty K.order range.now other.now }
{
    if range.is_empty() {
        return false;
    }
    if other.is_empty() {
        return false;
    }
    range.intersects(other)
}

/// The range of an element that was read before. `None` where a key allocates and that fails.
fn range_again<K: Json>(element: &Value) -> Option<AnyRange<K>>
    ensures read { IfSome result (IsRangeOf K.is_read (view element.now)) }
    ensures found { K.reads_in_place → HasSoundRange K.reads (view element.now) → IsSome result }
{
    let alloc = *element.as_array()?.allocator();
    let (range, _value) = pair(element)?;
    element_range(alloc, range, 0).ok()
}

/// The index of the first of the elements that the other element meets.
fn first_met<K: Json + Measure>(earlier: &[Value], element: &Value) -> Option<usize>
    ensures first { IfSome result
        (λ j. HasOneReading K.order K.is_read
        → IsFirstMeeting K.order K.is_read (all_views earlier.now) (view element.now) j) }
    ensures found { K.reads_in_place → HasOneReading K.order K.is_read
        → AllByRecursion (HasSoundRange K.reads) (all_views earlier.now)
        → HasSoundRange K.reads (view element.now)
        → Any (λ e. MayMeet K.order K.is_read e (view element.now)) (all_views earlier.now)
        → IsSome result }
{
    let range = range_again::<K>(element)?;
    for (index, other) in earlier.iter().enumerate() {
        if meet(&range_again(other)?, &range) {
            return Some(index);
        }
    }
    None
}

/// The index of the first element of a map that is met by the one at `index`.
pub(crate) fn met_earlier<K: Json + Measure>(whole: &Value, index: usize) -> Option<usize>
    ensures first { IfSome result
        (λ j. HasOneReading K.order K.is_read
        → IsFirstMetBy K.order K.is_read (view whole.now) index j) }
    ensures found { K.reads_in_place → HasOneReading K.order K.is_read
        → MayMeetEarlier K.order K.is_read K.reads (view whole.now) index → IsSome result }
{
    let Ok(elements) = elements_of_map(whole) else {
        return None;
    };
    if index >= elements.len() {
        return None;
    }
    first_met::<K>(&elements[..index], &elements[index])
}
