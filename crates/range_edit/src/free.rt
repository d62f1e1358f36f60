//! Storing an item, with the item handed back where there is no memory: at a position, between its
//! neighbours, or in place of others.
ghost use Rattle.std.specs.Prelude.{◌≡◌, ◌+◌, ◌-◌, ◌*◌, ◌≤◌, length, insert, None, OnOk, OnErr, IfErr, IsOk};
ghost use Rattle.std.specs.Option.{ForSome};
ghost use Rattle.range_store.specs.Counting.{AddsSteps};
ghost use Rattle.range_store.specs.ListRanks.{rank_or_len};
ghost use Rattle.range_edit.specs.Borders.{IsSeamAt};
ghost use Rattle.range_edit.specs.Reach.{AreEndsOf};
ghost use Rattle.range_edit.specs.Plans.{JoinsBefore, JoinsAfter};
ghost use Rattle.range_edit.specs.Changes.{IsInserted};

use crate::borders::{Border, Joins, Sides, joins_after, joins_before, run_length, seam};
use crate::reach::{Ends, run_start};
use crate::splice::change;
use range_algebra::any::AnyRange;
use range_keys::traits::PartialEnum;
use range_store::inner::cursor::Cursor;
use range_store::storage::{Item, Steps, Storage};
use std::alloc::AllocFailed;
use std::ops::Bound;

/// Stores an item before the one at a position, or after all others. Hands it back where there is no
/// memory.
pub fn put<T, C: Storage<T>>(
    stored: &mut C,
    before: Option<C::Position>,
    item: T,
) -> Result<(), AllocFailed<T>>
    requires { ForSome before (C.is_good stored.old) }
    ensures put { OnOk result
        (C.items stored.new
        ≡ insert (C.items stored.old)
        (rank_or_len (C.rank stored.old) (length (C.items stored.old)) before) item) }
    ensures given { IfErr result (λ e. e.value ≡ item) }
    ensures refused { OnErr result (C.items stored.new ≡ C.items stored.old) }
    ensures succeeds { 1 ≤ C.room stored.old → IsOk result }
{
    match stored.reserve(1) {
        Ok(()) => {
            let _position = stored.insert_at(before, item);
            Ok(())
        }
        Err(_) => Err(AllocFailed { value: item }),
    }
}

/// Stores an item between those beside its range, which meets no stored range and joins none. Hands
/// it back where there is no memory.
fn put_between<K: PartialEnum, V: Eq + Drop, C: Storage<Item<AnyRange<K>, V>>>(
    stored: &mut C,
    ends: &Ends<C::Position>,
    item: Item<AnyRange<K>, V>,
) -> Result<(), AllocFailed<Item<AnyRange<K>, V>>>
    requires ends { AreEndsOf K.order V.eq C.is_good C.rank C.items stored.old item.key ends.now }
    requires none { ends.now.window.count ≡ 0 }
    requires before { JoinsBefore K.order V.eq C.is_good C.rank C.items stored.old item.key
        item.value ends.now None }
    requires after { JoinsAfter K.order V.eq C.is_good C.rank C.items stored.old item.key item.value
        ends.now None }
    ensures ok { OnOk result
        (IsInserted K.order V.eq (C.items stored.old) (C.items stored.new) item.key item.value) }
    ensures few { OnOk result (length (C.items stored.new) ≤ length (C.items stored.old) + 2) }
    ensures given { IfErr result (λ e. e.value ≡ item) }
    ensures refused { OnErr result (C.items stored.new ≡ C.items stored.old) }
    ensures succeeds { 1 ≤ C.room stored.old → IsOk result }
{
    put::<Item<AnyRange<K>, V>, C>(stored, ends.window.from, item)
}

/// How much capacity to spare one item needs that replaces a run.
fn growth(count: usize) -> usize
    ensures { result ≡ 1 - count }
{
    if count == 0 { 1 } else { 0 }
}

/// Stores an item with the bounds of those that it joins, in place of the items of a window.
/// Hands it back where there is no memory.
pub fn put_merged<K: PartialEnum, V: Eq + Drop, C: Storage<Item<AnyRange<K>, V>>>(
    stored: &mut C,
    ends: &Ends<C::Position>,
    joins: &Joins<C::Position>,
    left: Border<K, C::Position>,
    right: Border<K, C::Position>,
    item: Item<AnyRange<K>, V>,
) -> Result<(), AllocFailed<Item<AnyRange<K>, V>>>
    requires ends { AreEndsOf K.order V.eq C.is_good C.rank C.items stored.old item.key ends.now }
    requires before { JoinsBefore K.order V.eq C.is_good C.rank C.items stored.old item.key
        item.value ends.now joins.now.before }
    requires after { JoinsAfter K.order V.eq C.is_good C.rank C.items stored.old item.key item.value
        ends.now joins.now.after }
    requires left { IsSeamAt K.order joins.now.before ends.now.first item.key.start left }
    requires right { IsSeamAt K.order joins.now.after ends.now.last item.key.end right }
    ensures ok { OnOk result
        (IsInserted K.order V.eq (C.items stored.old) (C.items stored.new) item.key item.value) }
    ensures few { OnOk result
        (2 * length (C.items stored.new) + ends.now.window.count
        ≤ 2 * length (C.items stored.old) + 4) }
    ensures given { IfErr result (λ e. e.value ≡ item) }
    ensures refused { OnErr result (C.items stored.new ≡ C.items stored.old) }
    ensures succeeds { 1 ≤ C.room stored.old → IsOk result }
{
    let run = Cursor {
        at: run_start::<K, V, C>(stored, ends, joins.before),
        left: run_length(ends, joins),
    };
    match stored.reserve(growth(run.left)) {
        Ok(()) => {
            change::<K, V, C>(stored, Sides { left, right, run }, Some(item));
            Ok(())
        }
        Err(_) => Err(AllocFailed { value: item }),
    }
}

/// Binds the range of an item, which meets no stored one, to its value. Hands the item back where
/// there is no memory.
#[inline(always)]
pub fn bind_free<K: PartialEnum, V: Eq + Drop, C: Storage<Item<AnyRange<K>, V>>>(
    stored: &mut C,
    ends: &Ends<C::Position>,
    item: Item<AnyRange<K>, V>,
    steps: &mut Steps,
) -> Result<(), AllocFailed<Item<AnyRange<K>, V>>>
    requires ends { AreEndsOf K.order V.eq C.is_good C.rank C.items stored.old item.key ends.now }
    requires none { ends.now.window.count ≡ 0 }
    ensures ok { OnOk result
        (IsInserted K.order V.eq (C.items stored.old) (C.items stored.new) item.key item.value) }
    ensures few { OnOk result (length (C.items stored.new) ≤ length (C.items stored.old) + 2) }
    ensures counted { AddsSteps steps.old steps.new 0 2 }
    ensures given { IfErr result (λ e. e.value ≡ item) }
    ensures refused { OnErr result (C.items stored.new ≡ C.items stored.old) }
    ensures succeeds { 1 ≤ C.room stored.old → IsOk result }
{
    let before = joins_before::<K, V, C>(stored, ends, &item.key, &item.value, steps);
    let after = joins_after::<K, V, C>(stored, ends, &item.key, &item.value, steps);
    if before.is_none() && after.is_none() {
        return put_between::<K, V, C>(stored, ends, item);
    }
    let left = seam(before, None, Bound::Unbounded);
    let right = seam(after, None, Bound::Unbounded);
    put_merged::<K, V, C>(stored, ends, &Joins { before, after }, left, right, item)
}
