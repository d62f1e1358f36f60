//! A relation between keys and values, kept as ranges with the sets of their values.
ghost use Rattle.std.specs.Prelude.{◌≡◌, ◌↔◌, [], length, IsTrue, IsNone, IfSome};
ghost use Rattle.std.specs.Option.{option_copied};
ghost use Rattle.range_keys.specs.Order.{IsComplete};
ghost use Rattle.range_runs.specs.Bindings.{Binds, IsLeastCount};
ghost use Rattle.range_runs.specs.Canonical.{IsCanonical};
ghost use Rattle.range_multimaps.specs.Pairs.{HasNoEmptySet, HasPair, AreValuesAt, IsUnpaired};

mod algebra;
mod change;
mod clone;
mod compare;
pub(crate) mod disjoint;
mod iter;
mod laws;
mod text;

pub use self::iter::IntoIter;
pub use self::laws::{last_call_decides_pairs, stored_sets_have_all_values};
pub use crate::members::{MaybeEmpty, SetAlgebra, SetMut};
use range_algebra::any::AnyRange;
use range_keys::traits::PartialEnum;
use range_map::map::{self, RangeMap, stored_lists_bind_once};
use range_store::storage::{Item, Storage};
use std::alloc::Global;
use std::marker::Model;

/// The stored ranges that are left, each with its set, in order, from both ends.
pub type Iter<'a, K, S, C> = map::Iter<'a, K, S, C>;

/// A relation between keys and values: each key has a set of values.
///
/// It stores nonempty ranges in order, each with the set of the values that all its keys have; no
/// set is empty, and ranges that touch have sets that differ. Over complete keys no shorter list
/// says the same. `S` is the type of sets, as std's `BTreeSet<V>` or `HashSet<V>`. A contract sees
/// the container, and its items as `C.items`.
///
/// ```
/// // of a multimap that has no key
/// classes.insert('0'..='9', 1)?; // digits
/// classes.insert('a'..='z', 2)?; // letters
/// classes.insert('a'..='f', 1)?; // hexadecimal digits, too
/// assert!(rt; classes.contains('c', &1) && classes.contains('c', &2));
/// ```
#[derive(Drop)]
pub struct RangeMultiMap<K: PartialEnum, S: MaybeEmpty, C: Storage<Item<AnyRange<K>, S>>> {
    map: RangeMap<K, S, C>,
    alloc: Global,
}

impl<K: PartialEnum, S: MaybeEmpty, C: Storage<Item<AnyRange<K>, S>>> Model
    for RangeMultiMap<K, S, C> {
    ghost use Rattle.range_multimaps.specs.Pairs.{HasNoEmptySet};

    ghost Value = { C };

    ghost view = { λ m. m.map };

    ghost invariant = { λ m. HasNoEmptySet S.is_void (C.items m.map) };
}

impl<K: PartialEnum, S: MaybeEmpty, C: Storage<Item<AnyRange<K>, S>>> RangeMultiMap<K, S, C> {
    /// A multimap without a pair. Allocates nothing.
    ///
    /// ```
    /// let mut classes: RangeMultiMap<char, BTreeSet<u8>> = RangeMultiMap::new(rt.alloc());
    /// ```
    pub fn new(alloc: Global) -> Self
        ensures { C.items result ≡ [] }
    {
        RangeMultiMap {
            map: RangeMap::new(alloc),
            alloc,
        }
    }

    /// A multimap without a pair. Allocates nothing.
    ///
    /// ```
    /// let mut classes: Classes = RangeMultiMap::default(alloc); // in the default container
    /// classes.insert('0'..='9', 1)?;
    /// ```
    pub fn default(alloc: Global) -> Self
        ensures { C.items result ≡ [] }
    {
        RangeMultiMap::new(alloc)
    }

    /// Does nothing, and promises the form of what is stored.
    fn in_form(&self)
        ensures canonical { IsCanonical K.order S.eq (C.items self.now) }
        ensures nonempty { HasNoEmptySet S.is_void (C.items self.now) }
    {
        // `iter` of the map promises it.
        let _items = self.map.iter();
    }

    /// How many ranges are stored. Allocates nothing.
    ///
    /// Over complete keys no list of ranges with sets that says the same has fewer.
    ///
    /// ```
    /// classes.remove('0'..='z', &1)?;
    /// assert!(rt; classes.range_count() == 1); // 'a'..='z' has {2}
    /// ```
    pub fn range_count(&self) -> usize
        ensures value { result ≡ length (C.items self.now) }
        ensures least { IsComplete K.order → IsLeastCount K.order S.eq (C.items self.now) result }
    {
        self.map.range_count()
    }

    /// Whether no range is stored. Allocates nothing.
    ///
    /// ```
    /// // of a multimap that gives '0'..='9' the value 1
    /// assert!(rt; !classes.is_empty());
    /// ```
    pub fn is_empty(&self) -> bool
        ensures { IsTrue result ↔ C.items self.now ≡ [] }
    {
        self.map.is_empty()
    }

    /// The stored ranges with their sets, in ascending order, from both ends. Allocates nothing.
    ///
    /// ```
    /// // of a multimap that gives '0'..='9' the value 1
    /// assert!(rt; classes.iter().next().is_some()); // '0'..='9' with {1}
    /// ```
    pub fn iter(&self) -> Iter<'_, K, S, C>
        ensures items { result ≡ C.items self.now }
        ensures canonical { IsCanonical K.order S.eq result }
        ensures nonempty { HasNoEmptySet S.is_void result }
    {
        self.map.iter()
    }

    /// The set of the key's values, or none where it has none.
    ///
    /// Costs one search and one comparison more. Allocates nothing.
    ///
    /// ```
    /// // of a multimap that gives '0'..='9' the value 1
    /// assert!(rt; classes.get('0').is_some()); // {1}
    /// ```
    pub fn get<V: Eq + Clone>(&self, key: K) -> Option<&S>
    where
        S: SetMut<V>,
        ensures values { AreValuesAt K.order S.has (C.items self.now) key (option_copied result) }
        ensures none { IsNone result ↔ IsUnpaired K.order S.has (C.items self.now) key }
        ensures nonempty { IfSome result (λ s. ¬ S.is_void s.now) }
        ensures bound { Binds K.order S.eq (C.items self.now) key (option_copied result) }
    {
        key.known();
        self.in_form();
        stored_lists_bind_once::<K, S>();
        self.map.get(key)
    }

    /// Whether the key has a value that equals the given one.
    ///
    /// Costs one search, one comparison more, and a look into one set. Allocates nothing.
    ///
    /// ```
    /// classes.insert('0'..='9', 1)?; // digits
    /// classes.insert('a'..='z', 2)?; // letters
    /// classes.insert('a'..='f', 1)?; // hexadecimal digits, too
    /// assert!(rt; classes.contains('c', &1) && classes.contains('c', &2));
    /// ```
    pub fn contains<V: Eq + Clone>(&self, key: K, value: &V) -> bool
    where
        S: SetMut<V>,
        ensures { IsTrue result ↔ HasPair K.order S.has (C.items self.now) key value.now }
    {
        match self.get::<V>(key) {
            Some(set) => set.contains(value),
            None => false,
        }
    }
}
