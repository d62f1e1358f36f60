//! One list of stored ranges moved to the end of another.
ghost use Rattle.std.specs.Prelude.{◌≡◌, ◌+◌, ◌≤◌, ◌++◌, ◌∷◌, [], length, false, IsTrue, OnOk};
ghost use Rattle.range_bulk.specs.Appending.{IsApartFromLast, IsOneWithLast, appended, are_one, as_one, joined};
ghost use Rattle.range_bulk.specs.declared.append.NotAppended.TheVariants.{Memory};

use range_algebra::any::AnyRange;
use range_algebra::inner::starts_at_end;
use range_keys::traits::PartialEnum;
use range_runs::answers::end_last_at;
use range_store::storage::{Item, Storage};
use std::alloc::AllocError;
use std::ops::RangeBounds;
use thiserror::Error;

/// Why the ranges of a map were not moved to the end of another.
#[derive(Debug, Drop, Clone, Copy, PartialEq, Eq, Error)]
pub enum NotAppended {
    /// Some range of the other map does not lie after all ranges of the one.
    #[error("a range does not lie after all ranges of the map")]
    OutOfOrder,
    /// There was not enough memory.
    #[error("out of memory")]
    Memory,
}

impl From<AllocError> for NotAppended {
    ghost from_gives = { λ _ e. e ≡ Memory };

    fn from(_error: AllocError) -> NotAppended {
        NotAppended::Memory
    }
}

/// Whether two items are stored as one: their ranges touch, and their values are equal.
fn are_one<K: PartialEnum, V: Eq>(
    first: &Item<AnyRange<K>, V>,
    second: &Item<AnyRange<K>, V>,
) -> bool
    ensures { result ≡ are_one K.order V.eq first.now second.now }
{
    starts_at_end(first.key.end_bound(), second.key.start_bound()) && first.value == second.value
}

/// One item from the start of the first to the end of the second, with the value of the first.
fn joined<K: PartialEnum, V: Drop>(
    first: Item<AnyRange<K>, V>,
    second: Item<AnyRange<K>, V>,
) -> Item<AnyRange<K>, V>
    ensures { result ≡ joined first second }
{
    let (front, value) = first.into_pair();
    let (back, _value) = second.into_pair();
    Item {
        key: AnyRange {
            start: front.start,
            end: back.end,
        },
        value,
    }
}

/// Puts two items after all others, or one in their place where they are to be one.
fn put_last<K: PartialEnum, V: Eq + Drop, C: Storage<Item<AnyRange<K>, V>>>(
    stored: &mut C,
    first: Item<AnyRange<K>, V>,
    second: Item<AnyRange<K>, V>,
)
    requires { 2 ≤ C.room stored.old }
    ensures list { C.items stored.new ≡ C.items stored.old ++ as_one K.order V.eq first second }
    ensures room { C.room stored.old ≤ C.room stored.new + 2 }
{
    if are_one(&first, &second) {
        let _position = stored.insert_at(None, joined(first, second));
    } else {
        let _first = stored.insert_at(None, first);
        let _second = stored.insert_at(None, second);
    }
}

/// Moves the first of the other items after the last, or makes the two one where they are to be
/// one.
pub fn move_first<
    K: PartialEnum,
    V: Eq + Drop,
    C: Storage<Item<AnyRange<K>, V>>,
    D: Storage<Item<AnyRange<K>, V>>,
>(stored: &mut C, others: &mut D)
    requires { length (D.items others.old) ≤ C.room stored.old }
    ensures list { C.items stored.new ++ D.items others.new
        ≡ appended K.order V.eq (C.items stored.old) (D.items others.old) }
    ensures room { length (D.items others.new) ≤ C.room stored.new }
{
    let Some(last) = stored.pop_last() else {
        return;
    };
    match others.pop_first() {
        Some(first) => put_last::<K, V, C>(stored, last, first),
        None => {
            let _position = stored.insert_at(None, last);
        }
    }
}

/// Moves all other items, in order, after those that are stored.
pub fn move_all<T, C: Storage<T>, D: Storage<T>>(stored: &mut C, others: &mut D)
    requires { length (D.items others.old) ≤ C.room stored.old }
    ensures list { C.items stored.new ≡ C.items stored.old ++ D.items others.old }
    ensures empty { D.items others.new ≡ [] }
{
    while let Some(item) = others.pop_first() {
        let _position = stored.insert_at(None, item);
    }
}

/// Whether an item is stored as one with the last of a list.
fn is_one_with_last<K: PartialEnum, V: Eq + Drop>(
    items: &Vec<Item<AnyRange<K>, V>>,
    item: &Item<AnyRange<K>, V>,
) -> bool
    ensures one { IsTrue result → IsOneWithLast K.order V.eq items.now.items item.now }
    ensures apart { result ≡ false → IsApartFromLast K.order V.eq items.now.items item.now }
{
    match items.last() {
        Some(last) => are_one(last, item),
        None => false,
    }
}

/// Puts an item after the others of a list, or makes it one with the last of them where they are to
/// be one. A list that has no capacity for the item gets it for so many more.
pub fn push<K: PartialEnum, V: Eq + Drop>(
    items: &mut Vec<Item<AnyRange<K>, V>>,
    item: Item<AnyRange<K>, V>,
    more: usize,
) -> Result<(), AllocError>
    ensures { OnOk result
        (items.new.items ≡ appended K.order V.eq items.old.items (item ∷ [])) }
{
    if is_one_with_last(items, &item) {
        let (range, _value) = item.into_pair();
        end_last_at(items, range.end);
        return Ok(());
    }
    items.reserve(more.saturating_add(1))?;
    items.push(item)?;
    Ok(())
}
