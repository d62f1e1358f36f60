//! Which of the items that a range meets reach out of it.
ghost use Rattle.std.specs.Prelude.{◌≡◌, ◌+◌, ◌≤◌, length};
ghost use Rattle.std.specs.Option.{ForSome};
ghost use Rattle.range_store.specs.Counting.{AddsSteps};
ghost use Rattle.range_store.specs.ListRanks.{rank_or_len};
ghost use Rattle.range_runs.specs.Window.{option_items, IsWindowOf};
ghost use Rattle.range_edit.specs.Borders.{IsRunStart};
ghost use Rattle.range_edit.specs.Reach.{IsFirstReaching, IsLastReaching, IsReachOf, window_of};

use crate::cut::{ends_after, starts_before};
use range_algebra::any::AnyRange;
use range_algebra::range::AsRange;
use range_keys::traits::{Measure, PartialEnum};
use range_runs::window::Window;
use range_store::storage::{Item, Steps, Storage};

/// How the items that a range meets reach out of it.
#[derive(Drop)]
pub enum Reach<P: Copy> {
    /// The one item of the window, at the position, reaches out on both sides.
    Surrounded(Window<P>, P),
    /// No item reaches out on both sides.
    Apart(Ends<P>),
}

/// The items that a range meets where none of them surrounds it.
#[derive(Drop)]
pub struct Ends<P: Copy> {
    pub window: Window<P>,
    /// The first one, if it starts before the range.
    pub first: Option<P>,
    /// The last one, if it ends after the range.
    pub last: Option<P>,
}

/// The first item that the range meets, if it starts before the range. A step, if there is one.
pub fn reaching_before<
    K: Measure,
    V: Eq + Drop,
    C: Storage<Item<AnyRange<K>, V>>,
    R: AsRange<Item = K>,
>(stored: &C, window: &Window<C::Position>, range: &R, steps: &mut Steps) -> Option<C::Position>
    requires window { IsWindowOf K.order V.eq C.is_good C.rank C.items stored.now
        (R.range range.now) window.now }
    ensures reaching { IsFirstReaching K.order C.is_good C.rank C.items stored.now
        (R.range range.now) window.now result }
    ensures counted { AddsSteps steps.old steps.new 0 1 }
{
    if window.count == 0 {
        return None;
    }
    match window.from {
        Some(first) => {
            steps.tick();
            if starts_before(&stored.get(first).key, range) {
                Some(first)
            } else {
                None
            }
        }
        None => None,
    }
}

/// The last item that the range meets, if it ends after the range. A step, if there is one.
pub fn reaching_after<
    K: Measure,
    V: Eq + Drop,
    C: Storage<Item<AnyRange<K>, V>>,
    R: AsRange<Item = K>,
>(stored: &C, window: &Window<C::Position>, range: &R, steps: &mut Steps) -> Option<C::Position>
    requires window { IsWindowOf K.order V.eq C.is_good C.rank C.items stored.now
        (R.range range.now) window.now }
    ensures reaching { IsLastReaching K.order C.is_good C.rank C.items stored.now
        (R.range range.now) window.now result }
    ensures counted { AddsSteps steps.old steps.new 0 1 }
{
    match window.last {
        Some(last) => {
            steps.tick();
            if ends_after(&stored.get(last).key, range) {
                Some(last)
            } else {
                None
            }
        }
        None => None,
    }
}

/// How the items of a window reach out of its range. A step for each side.
#[inline(always)]
pub fn reaching<K: Measure, V: Eq + Drop, C: Storage<Item<AnyRange<K>, V>>, R: AsRange<Item = K>>(
    stored: &C,
    window: Window<C::Position>,
    range: &R,
    steps: &mut Steps,
) -> Reach<C::Position>
    requires { IsWindowOf K.order V.eq C.is_good C.rank C.items stored.now (R.range range.now)
        window }
    ensures reach { IsReachOf K.order V.eq C.is_good C.rank C.items stored.now (R.range range.now)
        result }
    ensures window { window_of result ≡ window }
    ensures counted { AddsSteps steps.old steps.new 0 2 }
{
    let first = reaching_before::<K, V, C, R>(stored, &window, range, steps);
    let last = reaching_after::<K, V, C, R>(stored, &window, range, steps);
    if let (1, Some(first), Some(_)) = (window.count, first, last) {
        return Reach::Surrounded(window, first);
    }
    Reach::Apart(Ends {
        window,
        first,
        last,
    })
}

/// The first item that is replaced: the one that joins, or else the first one that does not reach
/// out before the range.
pub fn run_start<K: PartialEnum, V: Eq + Drop, C: Storage<Item<AnyRange<K>, V>>>(
    stored: &C,
    ends: &Ends<C::Position>,
    joined: Option<C::Position>,
) -> Option<C::Position>
    requires from { ForSome ends.now.window.from (C.is_good stored.now) }
    requires first { ForSome ends.now.first
        (λ p. C.is_good stored.now p
        × (C.rank stored.now p
        ≡ rank_or_len (C.rank stored.now) (length (C.items stored.now)) ends.now.window.from)) }
    ensures { IsRunStart (C.is_good stored.now) (C.rank stored.now) (length (C.items stored.now))
        (rank_or_len (C.rank stored.now) (length (C.items stored.now)) ends.now.window.from)
        ends.now.first joined result }
{
    match (joined, ends.first) {
        (Some(p), _) => Some(p),
        (None, Some(p)) => stored.next(p),
        (None, None) => ends.window.from,
    }
}

/// How many items an option names.
pub fn item_count<T>(item: &Option<T>) -> usize
    ensures { result ≡ length (option_items item.now) }
{
    match item {
        Some(_) => 1,
        None => 0,
    }
}
