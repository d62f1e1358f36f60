//! A list of stored ranges cut in two at a key.
ghost use Rattle.std.specs.List.{AllByRecursion as Every};
ghost use Rattle.std.specs.Prelude.{◌≡◌, ◌≤◌, ◌++◌, ◌∷◌, [], length, List, IfOk, IsOk, OnOk, OnErr, IsTrue, ◌↔◌};
ghost use Rattle.std.specs.declared.ops.Bound.TheVariants.{Included, Excluded, Unbounded};
ghost use Rattle.range_keys.specs.Position.{position_cmp, start_position};
ghost use Rattle.range_algebra.specs.Clones.{SameBound};
ghost use Rattle.range_algebra.specs.Intervals.{Le, Lt};
ghost use Rattle.range_algebra.specs.Range.{ClonesAreEqual, IsBoundOfKey};
ghost use Rattle.range_bulk.specs.Splitting.{IsStoredSplit};
ghost use Rattle.range_runs.specs.Edits.{with_start};
ghost use Rattle.range_runs.specs.Lookups.{MeetsSome};
ghost use Rattle.range_runs.specs.Stored.{IsStored, item_lower, item_upper};

use range_algebra::any::AnyRange;
use range_algebra::inner;
use range_keys::bound::Directed;
use range_keys::traits::PartialEnum;
use range_runs::bounds::cut_bound;
use range_store::storage::{Item, Storage};
use std::alloc::AllocError;
use std::ops::{Bound, RangeBounds};

/// Whether the range starts before the key.
fn starts_before<K: PartialEnum>(range: &AnyRange<K>, key: &K) -> bool
    ensures { IsTrue result ↔ Lt (position_cmp K.order.cmp) (start_position K.order range.now.start)
        (start_position K.order (Included key.now)) }
{
    Directed::Start(range.start_bound()) < Directed::Start(Bound::Included(key))
}

/// Moves the items that start at or after the key, from the last on, to the front of others.
fn move_back<K: PartialEnum, V: Eq + Drop, C: Storage<Item<AnyRange<K>, V>>>(
    stored: &mut C,
    others: &mut C,
    key: &K,
) -> Result<(), AllocError>
    requires { C.items others.old ≡ [] }
    ensures list { C.items stored.new ++ C.items others.new ≡ C.items stored.old }
    ensures room { length (C.items others.new) ≤ C.room stored.new }
    ensures from { Every (λ i. Le (position_cmp K.order.cmp)
        (start_position K.order (Included key.now)) (item_lower K.order i)) (C.items others.new) }
    ensures below { OnOk result ((front : List (Item (AnyRange K) V)) (last : Item (AnyRange K) V)
        → C.items stored.new ≡ front ++ last ∷ []
        → Lt (position_cmp K.order.cmp) (item_lower K.order last)
        (start_position K.order (Included key.now))) }
    ensures succeeds { Every (λ i. Lt (position_cmp K.order.cmp) (item_lower K.order i)
        (start_position K.order (Included key.now))) (C.items stored.old) → IsOk result }
{
    while let Some(last) = stored.pop_last() {
        if starts_before(&last.key, key) {
            let _position = stored.insert_at(None, last);
            return Ok(());
        }
        if others.reserve(1).is_err() {
            let _position = stored.insert_at(None, last);
            return Err(AllocError);
        }
        let first = others.first();
        let _position = others.insert_at(first, last);
    }
    Ok(())
}

/// The part of an item that ends at a bound, with a value of its own, and the part that starts at
/// another.
fn parts<K: PartialEnum, V>(
    item: Item<AnyRange<K>, V>,
    end: Bound<K>,
    value: V,
    start: Bound<K>,
) -> (Item<AnyRange<K>, V>, Item<AnyRange<K>, V>)
    ensures front { result.0 ≡ record {
      key = record { start = item.key.start; end = end };
      value = value;
    } }
    ensures back { result.1 ≡ with_start item start }
{
    let (range, own) = item.into_pair();
    let front = AnyRange {
        start: range.start,
        end,
    };
    let back = AnyRange {
        start,
        end: range.end,
    };
    (
        Item { key: front, value },
        Item {
            key: back,
            value: own,
        },
    )
}

/// Makes room for one more item, and clones what the part of an item below a key needs: the bound
/// at which it ends, and its value.
fn prepare<K: PartialEnum + Clone, V: Eq + Clone, C: Storage<Item<AnyRange<K>, V>>>(
    others: &mut C,
    item: &Item<AnyRange<K>, V>,
    key: &K,
) -> Result<(Bound<K>, V), AllocError>
    requires keys { ClonesAreEqual K.is_clone K.eq }
    requires values { ClonesAreEqual V.is_clone V.eq }
    ensures end { IfOk result
        (λ parts. IsBoundOfKey K.order parts.0 × SameBound K.order (Excluded key.now) parts.0) }
    ensures value { IfOk result (λ parts. IsTrue (V.eq item.now.value parts.1)) }
    ensures list { C.items others.new ≡ C.items others.old }
    ensures room { OnOk result (1 ≤ C.room others.new) }
{
    others.reserve(1)?;
    let end = cut_bound(Bound::Included(key))?;
    let value = item.value.clone()?;
    Ok((end, value))
}

/// Cuts the last item where it holds the key, and moves its upper part to the front of others.
fn cut_last<K: PartialEnum + Clone, V: Eq + Clone, C: Storage<Item<AnyRange<K>, V>>>(
    stored: &mut C,
    others: &mut C,
    key: K,
) -> Result<(), AllocError>
    requires keys { ClonesAreEqual K.is_clone K.eq }
    requires values { ClonesAreEqual V.is_clone V.eq }
    requires key { K.order.is_key key }
    requires stored { IsStored K.order V.eq (C.items stored.old ++ C.items others.old) }
    requires room { length (C.items others.old) ≤ C.room stored.old }
    requires from { Every (λ i. Le (position_cmp K.order.cmp)
        (start_position K.order (Included key)) (item_lower K.order i)) (C.items others.old) }
    requires below { (front : List (Item (AnyRange K) V)) (last : Item (AnyRange K) V)
        → C.items stored.old ≡ front ++ last ∷ []
        → Lt (position_cmp K.order.cmp) (item_lower K.order last)
        (start_position K.order (Included key)) }
    ensures divided { OnOk result (IsStoredSplit K.order V.eq key
        (C.items stored.old ++ C.items others.old) (C.items stored.new) (C.items others.new)) }
    ensures list { OnErr result (C.items stored.new ++ C.items others.new
        ≡ C.items stored.old ++ C.items others.old) }
    ensures room { OnErr result (length (C.items others.new) ≤ C.room stored.new) }
    ensures succeeds { Every (λ i. Le (position_cmp K.order.cmp) (item_upper K.order i)
        (start_position K.order (Included key))) (C.items stored.old) → IsOk result }
{
    let Some(last) = stored.pop_last() else {
        return Ok(());
    };
    inner::known(&last.key);
    if !inner::holds(&last.key, &key) {
        let _position = stored.insert_at(None, last);
        return Ok(());
    }
    match prepare::<K, V, C>(others, &last, &key) {
        Ok((end, value)) => {
            let (front, back) = parts(last, end, value, Bound::Included(key));
            let _front = stored.insert_at(None, front);
            let first = others.first();
            let _back = others.insert_at(first, back);
            Ok(())
        }
        Err(error) => {
            let _position = stored.insert_at(None, last);
            Err(error)
        }
    }
}

/// Moves what lies from the key on to others, of which there are none before.
pub fn divide<K: PartialEnum + Clone, V: Eq + Clone, C: Storage<Item<AnyRange<K>, V>>>(
    stored: &mut C,
    others: &mut C,
    key: K,
) -> Result<(), AllocError>
    requires keys { ClonesAreEqual K.is_clone K.eq }
    requires values { ClonesAreEqual V.is_clone V.eq }
    requires stored { IsStored K.order V.eq (C.items stored.old) }
    requires empty { C.items others.old ≡ [] }
    ensures divided { OnOk result (IsStoredSplit K.order V.eq key (C.items stored.old)
        (C.items stored.new) (C.items others.new)) }
    ensures list { OnErr result
        (C.items stored.new ++ C.items others.new ≡ C.items stored.old) }
    ensures room { OnErr result (length (C.items others.new) ≤ C.room stored.new) }
    ensures succeeds { ¬ MeetsSome K.order (C.items stored.old)
        (record { start = Included key; end = Unbounded }) → IsOk result }
{
    key.known();
    move_back::<K, V, C>(stored, others, &key)?;
    cut_last::<K, V, C>(stored, others, key)
}
