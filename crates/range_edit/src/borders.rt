//! What a range that is bound leaves or joins on each side.
ghost use Rattle.std.specs.Prelude.{◌≡◌, ◌≤◌, IfOk, IsOk};
ghost use Rattle.range_keys.specs.Position.{bound_of, start_position};
ghost use Rattle.range_algebra.specs.Compared.{starts_at_end};
ghost use Rattle.range_algebra.specs.Range.{ClonesAreEqual};
ghost use Rattle.range_store.specs.Counting.{AddsSteps};
ghost use Rattle.range_runs.specs.Clones.{ClonesNeverFail};
ghost use Rattle.range_runs.specs.Window.{IsWindowOf};
ghost use Rattle.range_edit.specs.Reach.{AreApart, AreEndsOf};
ghost use Rattle.range_edit.specs.Borders.{seam_border, run_length, IsSeamAt, IsJoinedBefore, IsJoinedAfter};
ghost use Rattle.range_edit.specs.Plans.{JoinsBefore, JoinsAfter};

use crate::reach::{Ends, item_count};
use range_algebra::any::AnyRange;
use range_algebra::inner;
use range_algebra::inner::starts_at_end;
use range_keys::traits::PartialEnum;
use range_runs::bounds::cut_bound;
use range_runs::window::Window;
use range_store::inner::cursor::Cursor;
use range_store::storage::{Item, Steps, Storage};
use std::alloc::AllocError;
use std::ops::{Bound, RangeBounds};

/// What becomes of an item at one side of a range.
#[derive(Drop)]
pub enum Border<K, P: Copy> {
    /// Nothing stands there that the range cuts or joins.
    Plain,
    /// The item is shortened to this bound.
    Cut(P, Bound<K>),
    /// The item becomes one with the range.
    Joined(P),
}

/// What a range leaves or joins on both sides, and the items that are replaced.
#[derive(Drop)]
pub struct Sides<K, P: Copy> {
    pub left: Border<K, P>,
    pub right: Border<K, P>,
    pub run: Cursor<P>,
}

/// The stored items that become one with what comes to stand in a range: before it and after it.
#[derive(Drop)]
pub struct Joins<P: Copy> {
    pub before: Option<P>,
    pub after: Option<P>,
}

/// Whether the first range touches the second. A step.
#[inline(always)]
fn touches<K: PartialEnum>(first: &AnyRange<K>, second: &AnyRange<K>, steps: &mut Steps) -> bool
    ensures touching { result
        ≡ starts_at_end K.order first.now.end (start_position K.order second.now.start) }
    ensures counted { AddsSteps steps.old steps.new 1 1 }
{
    steps.tick();
    starts_at_end(first.end_bound(), second.start_bound())
}

/// The item just before a window, if the range touches it and has an equal value.
#[inline(always)]
pub fn joined_before<K: PartialEnum, V: Eq + Drop, C: Storage<Item<AnyRange<K>, V>>>(
    stored: &C,
    window: &Window<C::Position>,
    range: &AnyRange<K>,
    value: &V,
    steps: &mut Steps,
) -> Option<C::Position>
    requires { IsWindowOf K.order V.eq C.is_good C.rank C.items stored.now range.now window.now }
    ensures joined { IsJoinedBefore K.order V.eq C.is_good C.rank C.items stored.now range.now
        value.now window.now result }
    ensures counted { AddsSteps steps.old steps.new 0 1 }
{
    match window.before {
        None => None,
        Some(before) => {
            let item = stored.get(before);
            let touching = touches(&item.key, range, steps);
            if touching && item.value == *value {
                Some(before)
            } else {
                None
            }
        }
    }
}

/// The item just after a window, if the range touches it and has an equal value.
#[inline(always)]
pub fn joined_after<K: PartialEnum, V: Eq + Drop, C: Storage<Item<AnyRange<K>, V>>>(
    stored: &C,
    window: &Window<C::Position>,
    range: &AnyRange<K>,
    value: &V,
    steps: &mut Steps,
) -> Option<C::Position>
    requires { IsWindowOf K.order V.eq C.is_good C.rank C.items stored.now range.now window.now }
    ensures joined { IsJoinedAfter K.order V.eq C.is_good C.rank C.items stored.now range.now
        value.now window.now result }
    ensures counted { AddsSteps steps.old steps.new 0 1 }
{
    match window.after {
        None => None,
        Some(after) => {
            let item = stored.get(after);
            let touching = touches(range, &item.key, steps);
            if touching && *value == item.value {
                Some(after)
            } else {
                None
            }
        }
    }
}

/// The item that becomes one with a range where it starts, if the range is bound to the value. It
/// is the one that reaches out of it there, or else the one that it touches.
#[inline(always)]
pub fn joins_before<K: PartialEnum, V: Eq + Drop, C: Storage<Item<AnyRange<K>, V>>>(
    stored: &C,
    ends: &Ends<C::Position>,
    range: &AnyRange<K>,
    value: &V,
    steps: &mut Steps,
) -> Option<C::Position>
    requires { AreEndsOf K.order V.eq C.is_good C.rank C.items stored.now range.now ends.now }
    ensures joins { JoinsBefore K.order V.eq C.is_good C.rank C.items stored.now range.now value.now
        ends.now result }
    ensures counted { AddsSteps steps.old steps.new 0 1 }
{
    match ends.first {
        Some(first) => {
            if stored.get(first).value == *value {
                Some(first)
            } else {
                None
            }
        }
        None => joined_before::<K, V, C>(stored, &ends.window, range, value, steps),
    }
}

/// The item that becomes one with a range where it ends, if the range is bound to the value.
#[inline(always)]
pub fn joins_after<K: PartialEnum, V: Eq + Drop, C: Storage<Item<AnyRange<K>, V>>>(
    stored: &C,
    ends: &Ends<C::Position>,
    range: &AnyRange<K>,
    value: &V,
    steps: &mut Steps,
) -> Option<C::Position>
    requires { AreEndsOf K.order V.eq C.is_good C.rank C.items stored.now range.now ends.now }
    ensures joins { JoinsAfter K.order V.eq C.is_good C.rank C.items stored.now range.now value.now
        ends.now result }
    ensures counted { AddsSteps steps.old steps.new 0 1 }
{
    match ends.last {
        Some(last) => {
            if stored.get(last).value == *value {
                Some(last)
            } else {
                None
            }
        }
        None => joined_after::<K, V, C>(stored, &ends.window, range, value, steps),
    }
}

/// What becomes of the item that joins a range on one side, or else of the one that reaches out of
/// it, which is cut at the bound.
pub fn seam<K: Drop, P: Copy>(
    joined: Option<P>,
    reaching: Option<P>,
    bound: Bound<K>,
) -> Border<K, P>
    ensures { result ≡ seam_border joined reaching bound }
{
    match (joined, reaching) {
        (Some(p), _) => Border::Joined(p),
        (None, Some(p)) => Border::Cut(p, bound),
        (None, None) => Border::Plain,
    }
}

/// The same at a bound of the range that is cloned, where an item is cut there.
pub fn seam_at<K: PartialEnum + Clone, P: Copy>(
    joined: Option<P>,
    reaching: Option<P>,
    bound: Bound<&K>,
) -> Result<Border<K, P>, AllocError>
    requires { ClonesAreEqual K.is_clone K.eq }
    ensures seam { IfOk result (IsSeamAt K.order joined reaching (bound_of bound.entry)) }
    ensures succeeds { ClonesNeverFail K.is_infallible → IsOk result }
{
    inner::known_bound(bound);
    match (joined, reaching) {
        (Some(p), _) => Ok(Border::Joined(p)),
        (None, Some(p)) => {
            let cut = cut_bound(bound)?;
            Ok(Border::Cut(p, cut))
        }
        (None, None) => Ok(Border::Plain),
    }
}

/// How many items are replaced: those that join, and those that lie within the range.
pub fn run_length<P: Copy>(ends: &Ends<P>, joins: &Joins<P>) -> usize
    requires apart { AreApart ends.now }
    requires fits { run_length ends.now joins.now ≤ usize.MAX }
    ensures { result ≡ run_length ends.now joins.now }
{
    let inner = ends.window.count - (item_count(&ends.first) + item_count(&ends.last));
    item_count(&joins.before) + inner + item_count(&joins.after)
}
