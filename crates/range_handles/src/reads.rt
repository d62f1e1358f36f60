//! What is asked of a map of ranges, and of a set as the map of its keys to nothing.
ghost use Rattle.std.specs.Prelude.{◌<◌, ◌≤◌, ◌≡◌, ◌⊎◌, List, [], ◌∷◌, ◌++◌, Option, Some, length, map, nat_eq, take, drop, reverse};
ghost use Rattle.std.specs.List.{AllZip};
ghost use Rattle.btree_range_map.specs.AnyRange.{AnyRange};
ghost use Rattle.btree_range_map.specs.Bindings.{Binds, IsBound, IsItemFor};
ghost use Rattle.btree_range_map.specs.Holding.{box_items};
ghost use Rattle.btree_range_map.specs.Item.{Item};
ghost use Rattle.btree_range_map.specs.Lookups.{BindsKeyOf};
ghost use Rattle.btree_range_map.specs.Numbers.{IsNumberOfKeys};
ghost use Rattle.btree_range_map.specs.Overlapping.{AreOverlapping};
ghost use Rattle.btree_range_map.specs.PieceLists.{AreGapsWithin};
ghost use Rattle.btree_range_map.specs.Pieces.{ArePieces};
ghost use Rattle.btree_range_map.specs.Range.{IsEmptyRange};
ghost use Rattle.range_ffi.specs.Bindings.{binding_value};
ghost use Rattle.range_ffi.specs.Flags.{number_of, from_key, upto_key, said_range};

use crate::batch::{fill, fill_one, fill_onward, from, upto, within};
use crate::key::Key;
use btree_range_map::range::traits::{Bounded, Counted, measure_counts_keys};
use btree_range_map::{AnyRange, RangeMap};
use range_ffi::bounds::{Binding, Length};
use range_ffi::items::Shown;
use range_ffi::status::{DONE, NO_ROOM, NONE, answer};
use range_map::inner::onward::onward_from;

/// Writes the stored range that holds the key, with its value.
pub fn get<K: Key, V: Eq + Drop, E: Shown<K, V>>(
    stored: &RangeMap<K, V>,
    key: K,
    entry: &mut E,
) -> u32
    ensures found { result ≡ DONE
        → IsItemFor K.order (box_items stored.now) key (E.said entry.new) }
    ensures bound { result ≡ DONE
        → Binds K.order V.eq (box_items stored.now) key (Some (E.said entry.new).value) }
    ensures free { result ≡ NONE → ¬ IsBound K.order (box_items stored.now) key }
    ensures unwritten { result ≡ NONE → entry.new ≡ entry.old }
    ensures answer { (result ≡ DONE) ⊎ (result ≡ NONE) }
{
    match stored.get_key_value(key) {
        Some((range, value)) => {
            *entry = E::of_item(range, value);
            DONE
        }
        None => NONE,
    }
}

/// Whether the key is bound.
pub fn contains<K: Key, V: Eq + Drop>(stored: &RangeMap<K, V>, key: K) -> u32
    ensures yes { result ≡ DONE → IsBound K.order (box_items stored.now) key }
    ensures no { result ≡ NONE → ¬ IsBound K.order (box_items stored.now) key }
    ensures answer { (result ≡ DONE) ⊎ (result ≡ NONE) }
{
    answer(stored.contains_key(key))
}

/// Whether some key of the range is bound.
pub fn intersects<K: Key, V: Eq + Drop>(stored: &RangeMap<K, V>, range: AnyRange<K>) -> u32
    ensures yes { result ≡ DONE
        → BindsKeyOf K.order (box_items stored.now) range }
    ensures no { result ≡ NONE
        → ¬ BindsKeyOf K.order (box_items stored.now) range }
    ensures answer { (result ≡ DONE) ⊎ (result ≡ NONE) }
{
    answer(stored.intersects(range))
}

/// Writes how many keys are bound.
pub fn len<K: Counted + Bounded, V: Eq + Drop>(stored: &RangeMap<K, V>, length: &mut Length) -> u32
    ensures counted { IsNumberOfKeys K.order (IsBound K.order (box_items stored.now))
        (number_of length.new) }
    ensures done { result ≡ DONE }
{
    measure_counts_keys::<K>();
    *length = Length::of(stored.len());
    DONE
}

/// Writes the first stored range, with its value.
pub fn first<K: Key, V: Eq + Drop, E: Shown<K, V>>(stored: &RangeMap<K, V>, entry: &mut E) -> u32
    ensures first { result ≡ DONE → (rest : List (Item (AnyRange K) V))
        × (box_items stored.now ≡ E.said entry.new ∷ rest) }
    ensures none { result ≡ NONE → box_items stored.now ≡ [] }
    ensures unwritten { result ≡ NONE → entry.new ≡ entry.old }
    ensures answer { (result ≡ DONE) ⊎ (result ≡ NONE) }
{
    match stored.first_range_value() {
        Some((range, value)) => {
            *entry = E::of_item(range, value);
            DONE
        }
        None => NONE,
    }
}

/// Writes the last stored range, with its value.
pub fn last<K: Key, V: Eq + Drop, E: Shown<K, V>>(stored: &RangeMap<K, V>, entry: &mut E) -> u32
    ensures last { result ≡ DONE → (front : List (Item (AnyRange K) V))
        × (box_items stored.now ≡ front ++ E.said entry.new ∷ []) }
    ensures none { result ≡ NONE → box_items stored.now ≡ [] }
    ensures unwritten { result ≡ NONE → entry.new ≡ entry.old }
    ensures answer { (result ≡ DONE) ⊎ (result ≡ NONE) }
{
    match stored.last_range_value() {
        Some((range, value)) => {
            *entry = E::of_item(range, value);
            DONE
        }
        None => NONE,
    }
}

/// Writes the first stored range that ends at the key or after it, with its value.
pub fn next<K: Key, V: Eq + Drop, E: Shown<K, V>>(
    stored: &RangeMap<K, V>,
    key: K,
    entry: &mut E,
) -> u32
    ensures next { result ≡ DONE → (rest : List (Item (AnyRange K) V))
        × AreOverlapping K.order (box_items stored.now) (from_key key)
        (E.said entry.new ∷ rest) }
    ensures none { result ≡ NONE
        → AreOverlapping K.order (box_items stored.now) (from_key key) [] }
    ensures unwritten { result ≡ NONE → entry.new ≡ entry.old }
    ensures answer { (result ≡ DONE) ⊎ (result ≡ NONE) }
{
    fill_one(&mut from(stored, key), entry)
}

/// Writes the last stored range that starts at the key or before it, with its value.
pub fn previous<K: Key, V: Eq + Drop, E: Shown<K, V>>(
    stored: &RangeMap<K, V>,
    key: K,
    entry: &mut E,
) -> u32
    ensures previous { result ≡ DONE → (front : List (Item (AnyRange K) V))
        × AreOverlapping K.order (box_items stored.now) (upto_key key)
        (front ++ E.said entry.new ∷ []) }
    ensures none { result ≡ NONE
        → AreOverlapping K.order (box_items stored.now) (upto_key key) [] }
    ensures unwritten { result ≡ NONE → entry.new ≡ entry.old }
    ensures answer { (result ≡ DONE) ⊎ (result ≡ NONE) }
{
    fill_one(&mut upto(stored, key), entry)
}

/// Writes the stored ranges from the first that ends at the key or after it on, in ascending
/// order, as many as the array takes, and how many.
///
/// Fewer than the array takes are written where there are no more. What lies behind them in the
/// array stays as it was.
pub fn read<K: Key, V: Eq + Drop, E: Shown<K, V>>(
    stored: &RangeMap<K, V>,
    key: K,
    entries: &mut [E],
    count: &mut usize,
) -> u32
    ensures read { (rest : List (Item (AnyRange K) V))
        × AreOverlapping K.order (box_items stored.now) (from_key key)
        (map E.said (take count.new entries.new) ++ rest)
        × (count.new < length entries.old → rest ≡ []) }
    ensures within { count.new ≤ length entries.old }
    ensures behind { drop count.new entries.new ≡ drop count.new entries.old }
    ensures done { result ≡ DONE }
{
    let mut items = onward_from(stored, key);
    *count = fill_onward(&mut items, entries);
    DONE
}

/// Writes the stored ranges from the last that starts at the key or before it on, in descending
/// order, as many as the array takes, and how many.
///
/// Fewer than the array takes are written where there are no more. What lies behind them in the
/// array stays as it was.
pub fn read_back<K: Key, V: Eq + Drop, E: Shown<K, V>>(
    stored: &RangeMap<K, V>,
    key: K,
    entries: &mut [E],
    count: &mut usize,
) -> u32
    ensures read { (rest : List (Item (AnyRange K) V))
        × AreOverlapping K.order (box_items stored.now) (upto_key key)
        (rest ++ reverse (map E.said (take count.new entries.new)))
        × (count.new < length entries.old → rest ≡ []) }
    ensures within { count.new ≤ length entries.old }
    ensures behind { drop count.new entries.new ≡ drop count.new entries.old }
    ensures done { result ≡ DONE }
{
    let mut items = upto(stored, key);
    *count = fill(&mut items, entries);
    DONE
}

/// Writes the stored ranges that meet the range, in ascending order, as many as the array takes,
/// and how many.
///
/// Fewer than the array takes are written where there are no more. What lies behind them in the
/// array stays as it was.
pub fn overlapping<K: Key, V: Eq + Drop, E: Shown<K, V>>(
    stored: &RangeMap<K, V>,
    range: AnyRange<K>,
    entries: &mut [E],
    count: &mut usize,
) -> u32
    ensures read { ¬ IsEmptyRange K.order range → (rest : List (Item (AnyRange K) V))
        × AreOverlapping K.order (box_items stored.now) range
        (map E.said (take count.new entries.new) ++ rest)
        × (count.new < length entries.old → rest ≡ []) }
    ensures empty { IsEmptyRange K.order range → count.new ≡ 0 }
    ensures within { count.new ≤ length entries.old }
    ensures behind { drop count.new entries.new ≡ drop count.new entries.old }
    ensures done { result ≡ DONE }
{
    let mut items = within(stored, range);
    *count = fill(&mut items, entries);
    DONE
}

/// Writes the parts of the range that hold no bound key, in ascending order, as many as the array
/// takes, and how many.
///
/// Fewer than the array takes are written where there are no more. What lies behind them in the
/// array stays as it was.
pub fn gaps<K: Key, V: Eq + Drop, E: Shown<K, ()>>(
    stored: &RangeMap<K, V>,
    range: AnyRange<K>,
    ranges: &mut [E],
    count: &mut usize,
) -> u32
    ensures gaps { (rest : List (AnyRange K))
        × AreGapsWithin K.order (box_items stored.now) range
        (map (said_range E.said) (take count.new ranges.new) ++ rest)
        × (count.new < length ranges.old → rest ≡ []) }
    ensures within { count.new ≤ length ranges.old }
    ensures behind { drop count.new ranges.new ≡ drop count.new ranges.old }
    ensures done { result ≡ DONE }
{
    let mut gaps = stored.gaps_within(&range);
    *count = fill(&mut gaps, ranges);
    DONE
}

/// Writes the parts of the range, in ascending order, each as wide as it goes, with what it is bound
/// to, as many as the array takes, and how many.
///
/// Fewer than the array takes are written where there are no more. What lies behind them in the
/// array stays as it was.
pub fn pieces<K: Key, V: Eq + Copy + Drop, E: Shown<K, Option<V>>>(
    stored: &RangeMap<K, V>,
    range: AnyRange<K>,
    pieces: &mut [E],
    count: &mut usize,
) -> u32
    ensures pieces { (rest : List (Item (AnyRange K) (Option V)))
        × ArePieces K.order (box_items stored.now) range
        (map E.said (take count.new pieces.new) ++ rest)
        × (count.new < length pieces.old → rest ≡ []) }
    ensures within { count.new ≤ length pieces.old }
    ensures behind { drop count.new pieces.new ≡ drop count.new pieces.old }
    ensures done { result ≡ DONE }
{
    let mut parts = stored.pieces(&range);
    *count = fill(&mut parts, pieces);
    DONE
}

/// Writes what each key is bound to in its place in the other array, unless that is the shorter one.
///
/// What lies behind them in the array stays as it was. Costs a search for each key.
pub fn get_many<K: Key>(stored: &RangeMap<K, u64>, keys: &[K], bindings: &mut [Binding]) -> u32
    ensures bound { result ≡ DONE
        → AllZip (λ key b. Binds K.order nat_eq (box_items stored.now) key (binding_value b))
        keys.now (take (length keys.now) bindings.new) }
    ensures room { result ≡ NO_ROOM → length bindings.old < length keys.now }
    ensures behind { drop (length keys.now) bindings.new ≡ drop (length keys.now) bindings.old }
    ensures unwritten { result ≡ NO_ROOM → bindings.new ≡ bindings.old }
    ensures answer { (result ≡ DONE) ⊎ (result ≡ NO_ROOM) }
{
    if bindings.len() < keys.len() {
        return NO_ROOM;
    }
    bind_each(stored, keys, bindings);
    DONE
}

fn bind_each<K: Key>(stored: &RangeMap<K, u64>, keys: &[K], bindings: &mut [Binding])
    requires { length keys.now ≤ length bindings.old }
    ensures bound { AllZip (λ key b. Binds K.order nat_eq (box_items stored.now) key (binding_value b))
        keys.now (take (length keys.now) bindings.new) }
    ensures behind { drop (length keys.now) bindings.new ≡ drop (length keys.now) bindings.old }
{
    let mut count = 0;
    while count < keys.len() {
        bindings[count] = Binding::of(stored.get(keys[count]).copied());
        count += 1;
    }
}
