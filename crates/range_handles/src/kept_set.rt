//! Sets of keys, which a contract sees as lists.
ghost use Rattle.std.specs.Prelude.{◌≡◌, ◌≢◌, ◌⊎◌, ◌↔◌, ◌<◌, ◌≤◌, [], ◌∷◌, ◌++◌, false, true, length, map, take, IsTrue, IfOk, IfErr, Some};
ghost use Rattle.btree_range_map.specs.Faults.{IsSetRead, set_fault};
ghost use Rattle.btree_range_map.specs.FreeRanges.{item_ranges};
ghost use Rattle.btree_range_map.specs.Holding.{box_items};
ghost use Rattle.btree_range_map.specs.JsonError.TheVariants.{Memory};
ghost use Rattle.btree_range_map.specs.KeySets.{HoldAlike, HoldsAllAlso, HoldsAlso, HoldsTheOthers, HoldsWithout, IsLeastCount};
ghost use Rattle.btree_range_map.specs.ListOrder.{IsCopyOf};
ghost use Rattle.btree_range_map.specs.Lookups.{MeetsSome};
ghost use Rattle.btree_range_map.specs.Range.{IsEmptyRange, ClonesAreEqual};
ghost use Rattle.btree_range_map.specs.Shapes.{set_shape};
ghost use Rattle.btree_range_map.specs.Together.{BindKeysOf, ShareNoKey};
ghost use Rattle.serde_json.specs.View.{view};
ghost use Rattle.serde_json.specs.Written.{compact_text, has_float};
ghost use Rattle.range_ffi.specs.Flags.{said_range};
ghost use Rattle.range_handles.specs.SetKinds.{IsJoin};

pub mod algebra;

use crate::key::Key;
use algebra::Join;
use btree_range_map::json::{Json, JsonError, set_from_json, set_to_json};
use btree_range_map::range::traits::PartialEnum;
use btree_range_map::storage::Item;
use btree_range_map::{AnyRange, MapError, NotAdded, RangeMap, RangeSet};
use range_ffi::items::{Shown, Told};
use range_ffi::status::{DONE, NO_MEMORY, NONE, OCCUPIED};
use serde_json::Value;
use std::alloc::{AllocError, Global};
use std::marker::Model;

/// A set of keys, which a contract sees as its ranges.
pub struct KeptSet<K: PartialEnum> {
    set: RangeSet<K>,
}

impl<K: PartialEnum> Model for KeptSet<K> {
    ghost use Rattle.std.specs.Prelude.{List};
    ghost use Rattle.btree_range_map.specs.AnyRange.{AnyRange};
    ghost use Rattle.btree_range_map.specs.Holding.{box_items};
    ghost use Rattle.btree_range_map.specs.Item.{Item};

    ghost Value = { List (Item (AnyRange K) (Unit {0})) };

    ghost view = { λ s. box_items s.set };
}

impl<K: PartialEnum> Drop for KeptSet<K> {
    fn drop(self) {
        let KeptSet { set: _set } = self;
    }
}

impl<K: Key> KeptSet<K> {
    pub fn new(alloc: Global) -> KeptSet<K>
        ensures { result ≡ [] }
    {
        KeptSet {
            set: RangeSet::new(alloc),
        }
    }

    /// The set as a map to nothing, for what only reads it.
    pub fn as_map(&self) -> &RangeMap<K, ()>
        ensures { box_items result.now ≡ self.now }
    {
        self.set.as_map()
    }

    pub fn range_count(&self) -> usize
        ensures value { result ≡ length self.now }
        ensures least { IsLeastCount K.order self.now result }
    {
        self.set.range_count()
    }

    pub fn clear(&mut self)
        ensures { self.new ≡ [] }
    {
        self.set.clear();
    }

    pub fn copied(&self) -> Result<KeptSet<K>, AllocError>
        requires keys { ClonesAreEqual K.is_clone K.eq }
        ensures { IfOk result (λ copy. IsCopyOf K.order (λ _ _. true) copy self.now) }
    {
        Ok(KeptSet {
            set: self.set.clone()?,
        })
    }

    pub fn equals(&self, other: &KeptSet<K>) -> bool
        ensures { IsTrue result ↔ HoldAlike K.order self.now other.now }
    {
        self.set.eq(&other.set)
    }

    /// A set of those keys of the two that the join says.
    pub fn joined(&self, other: &KeptSet<K>, join: Join) -> Result<KeptSet<K>, MapError>
        requires keys { ClonesAreEqual K.is_clone K.eq }
        ensures { IfOk result (λ new. IsJoin join K.order self.now other.now new) }
    {
        match join {
            Join::Union => Ok(KeptSet {
                set: self.set.union(&other.set)?,
            }),
            Join::Intersection => Ok(KeptSet {
                set: self.set.intersection(&other.set)?,
            }),
            Join::Difference => Ok(KeptSet {
                set: self.set.difference(&other.set)?,
            }),
            Join::SymmetricDifference => Ok(KeptSet {
                set: self.set.symmetric_difference(&other.set)?,
            }),
        }
    }

    /// A set of just the keys that are not in this set.
    pub fn complement(&self) -> Result<KeptSet<K>, MapError>
        requires keys { ClonesAreEqual K.is_clone K.eq }
        ensures { IfOk result (λ new. HoldsTheOthers K.order self.now new) }
    {
        Ok(KeptSet {
            set: self.set.complement()?,
        })
    }

    /// Whether each key of this set is in the other.
    pub fn is_subset(&self, other: &KeptSet<K>) -> bool
        ensures { IsTrue result ↔ BindKeysOf K.order self.now other.now }
    {
        self.set.is_subset(&other.set)
    }

    /// Whether no key is in both sets.
    pub fn is_disjoint(&self, other: &KeptSet<K>) -> bool
        ensures { IsTrue result ↔ ShareNoKey K.order self.now other.now }
    {
        self.set.is_disjoint(&other.set)
    }

    /// Adds each key of the range.
    pub fn insert(&mut self, range: AnyRange<K>) -> u32
        requires keys { ClonesAreEqual K.is_clone K.eq }
        ensures added { result ≡ DONE
            → HoldsAlso K.order self.old self.new range }
        ensures empty { IsEmptyRange K.order range → result ≡ DONE }
        ensures empty_unchanged { IsEmptyRange K.order range
            → self.new ≡ self.old }
        ensures refused { result ≢ DONE → self.new ≡ self.old }
        ensures answer { (result ≡ DONE) ⊎ (result ≡ NO_MEMORY) }
    {
        match self.set.insert(range) {
            Ok(()) => DONE,
            Err(_) => NO_MEMORY,
        }
    }

    /// Adds each key of a range that meets no stored one.
    pub fn try_insert(&mut self, range: AnyRange<K>) -> u32
        ensures added { result ≡ DONE
            → HoldsAlso K.order self.old self.new range }
        ensures occupied { result ≡ OCCUPIED
            ↔ (¬ IsEmptyRange K.order range) × MeetsSome K.order self.old range }
        ensures empty { IsEmptyRange K.order range → result ≡ DONE }
        ensures empty_unchanged { IsEmptyRange K.order range
            → self.new ≡ self.old }
        ensures refused { result ≢ DONE → self.new ≡ self.old }
        ensures answer { (result ≡ DONE) ⊎ ((result ≡ NO_MEMORY) ⊎ (result ≡ OCCUPIED)) }
    {
        match self.set.try_insert(range) {
            Ok(()) => DONE,
            Err(NotAdded::Occupied(_)) => OCCUPIED,
            Err(NotAdded::Memory(_)) => NO_MEMORY,
        }
    }

    /// Adds the keys of each range, one range after the other, and tells of how many: of all, or of
    /// those before one for which there was not enough memory.
    pub fn insert_many<E: Told<K, ()>>(&mut self, ranges: &[E], count: &mut usize) -> u32
        requires keys { ClonesAreEqual K.is_clone K.eq }
        ensures added { HoldsAllAlso K.order self.old self.new
            (map (said_range E.told) (take count.new ranges.now)) }
        ensures all { result ≡ DONE → count.new ≡ length ranges.now }
        ensures some { result ≡ NO_MEMORY → count.new < length ranges.now }
        ensures answer { (result ≡ DONE) ⊎ (result ≡ NO_MEMORY) }
    {
        *count = self.add_each(ranges);
        if *count < ranges.len() {
            NO_MEMORY
        } else {
            DONE
        }
    }

    /// Adds the keys of each range, up to one for which there is not enough memory. Returns of how
    /// many.
    fn add_each<E: Told<K, ()>>(&mut self, ranges: &[E]) -> usize
        requires keys { ClonesAreEqual K.is_clone K.eq }
        ensures added { HoldsAllAlso K.order self.old self.new
            (map (said_range E.told) (take result ranges.now)) }
        ensures within { result ≤ length ranges.now }
    {
        let mut count = 0;
        while count < ranges.len() {
            let Item { key, value: () } = ranges[count].item();
            if self.insert(key) != DONE {
                return count;
            }
            count += 1;
        }
        count
    }

    /// Takes each key of the range away.
    pub fn remove(&mut self, range: AnyRange<K>) -> u32
        requires keys { ClonesAreEqual K.is_clone K.eq }
        ensures removed { result ≡ DONE
            → HoldsWithout K.order self.old self.new range }
        ensures empty { IsEmptyRange K.order range → result ≡ DONE }
        ensures empty_unchanged { IsEmptyRange K.order range
            → self.new ≡ self.old }
        ensures refused { result ≢ DONE → self.new ≡ self.old }
        ensures answer { (result ≡ DONE) ⊎ (result ≡ NO_MEMORY) }
    {
        match self.set.remove(range) {
            Ok(()) => DONE,
            Err(_) => NO_MEMORY,
        }
    }

    /// Takes the first stored range out, and writes it.
    pub fn pop_first<E: Shown<K, ()>>(&mut self, entry: &mut E) -> u32
        ensures first { result ≡ DONE
            → item_ranges self.old ≡ (E.said entry.new).key ∷ item_ranges self.new }
        ensures none { result ≡ NONE → self.old ≡ [] }
        ensures unchanged { result ≡ NONE → self.new ≡ self.old }
        ensures unwritten { result ≡ NONE → entry.new ≡ entry.old }
        ensures answer { (result ≡ DONE) ⊎ (result ≡ NONE) }
    {
        match self.set.pop_first() {
            Some(range) => {
                *entry = E::of_item(&range, &());
                DONE
            }
            None => NONE,
        }
    }

    /// Takes the last stored range out, and writes it.
    pub fn pop_last<E: Shown<K, ()>>(&mut self, entry: &mut E) -> u32
        ensures last { result ≡ DONE
            → item_ranges self.old ≡ item_ranges self.new ++ (E.said entry.new).key ∷ [] }
        ensures none { result ≡ NONE → self.old ≡ [] }
        ensures unchanged { result ≡ NONE → self.new ≡ self.old }
        ensures unwritten { result ≡ NONE → entry.new ≡ entry.old }
        ensures answer { (result ≡ DONE) ⊎ (result ≡ NONE) }
    {
        match self.set.pop_last() {
            Some(range) => {
                *entry = E::of_item(&range, &());
                DONE
            }
            None => NONE,
        }
    }
}

impl<K: Key + Json> KeptSet<K> {
    /// The text that it is saved as, of keys that are written with no float.
    pub fn text(&self, alloc: Global) -> Result<Vec<u8>, AllocError>
        requires { (key : K) → has_float (K.shape key) ≡ false }
        ensures { IfOk result (λ text. text.items ≡ compact_text (set_shape K.shape self.now)) }
    {
        set_to_json(alloc, &self.set)?.to_vec(alloc)
    }

    /// What the JSON value is read as.
    pub fn read(alloc: Global, value: &Value) -> Result<KeptSet<K>, JsonError>
        requires keys { ClonesAreEqual K.is_clone K.eq }
        ensures read { IfOk result (λ new. IsSetRead K.is_read K.order (view value.now) new) }
        ensures fault { IfErr result
            (λ e. (e ≡ Memory) ⊎ (set_fault K.reads (view value.now) ≡ Some e)) }
    {
        match set_from_json(alloc, value) {
            Ok(set) => Ok(KeptSet { set }),
            Err(error) => Err(error),
        }
    }
}
