//! Maps to `u64` values, which a contract sees as lists.
ghost use Rattle.std.specs.Prelude.{◌≡◌, ◌≢◌, ◌⊎◌, ◌↔◌, ◌<◌, ◌≤◌, [], ◌∷◌, ◌++◌, false, length, map, take, nat_eq, IsTrue, IfOk, IfErr};
ghost use Rattle.btree_range_map.specs.Appending.{LieBefore};
ghost use Rattle.btree_range_map.specs.Bindings.{IsBoundAfter, IsUnboundAfter, IsLeastCount, BindAlike};
ghost use Rattle.btree_range_map.specs.Holding.{box_items};
ghost use Rattle.btree_range_map.specs.JsonError.TheVariants.{Memory};
ghost use Rattle.btree_range_map.specs.Keys.{unsigned_shape};
ghost use Rattle.btree_range_map.specs.ListOrder.{IsCopyOf};
ghost use Rattle.btree_range_map.specs.Lookups.{IsConnectedToSome, MeetsSome};
ghost use Rattle.btree_range_map.specs.MapExtending.{AreBoundAfter};
ghost use Rattle.btree_range_map.specs.MapFaults.{IsMapRead, IsMapFault};
ghost use Rattle.btree_range_map.specs.Overlays.{IsOverlaid};
ghost use Rattle.btree_range_map.specs.Range.{IsEmptyRange, ClonesAreEqual};
ghost use Rattle.btree_range_map.specs.Shapes.{map_shape};
ghost use Rattle.btree_range_map.specs.Splitting.{IsSplitAt};
ghost use Rattle.serde_json.specs.View.{view};
ghost use Rattle.serde_json.specs.Written.{compact_text, has_float};
ghost use Rattle.range_handles.specs.MapKinds.{IsPart};
ghost use Rattle.range_handles.specs.Texts.{reads_unsigned, IsUnsignedRead};

pub mod together;

use crate::in_order::map_in_order;
use crate::key::Key;
use btree_range_map::json::{Json, JsonError, map_from_json, map_to_json};
use btree_range_map::range::traits::PartialEnum;
use btree_range_map::storage::Item;
use btree_range_map::{AnyRange, MapError, RangeMap};
use range_ffi::items::{Shown, Told};
use range_ffi::status::{
    CONNECTED, DONE, NO_MEMORY, NONE, OCCUPIED, OUT_OF_ORDER, of_disorder, of_obstacle, of_refusal,
};
use serde_json::Value;
use std::alloc::{AllocError, Global};
use std::marker::Model;
use together::Part;

/// A map to `u64` values, which a contract sees as its ranges with their values.
pub struct KeptMap<K: PartialEnum> {
    map: RangeMap<K, u64>,
}

impl<K: PartialEnum> Model for KeptMap<K> {
    ghost use Rattle.std.specs.Prelude.{List, ℕ};
    ghost use Rattle.btree_range_map.specs.AnyRange.{AnyRange};
    ghost use Rattle.btree_range_map.specs.Holding.{box_items};
    ghost use Rattle.btree_range_map.specs.Item.{Item};

    ghost Value = { List (Item (AnyRange K) ℕ) };

    ghost view = { λ s. box_items s.map };
}

impl<K: PartialEnum> Drop for KeptMap<K> {
    fn drop(self) {
        let KeptMap { map: _map } = self;
    }
}

impl<K: Key> KeptMap<K> {
    pub fn new(alloc: Global) -> KeptMap<K>
        ensures { result ≡ [] }
    {
        KeptMap {
            map: RangeMap::new(alloc),
        }
    }

    /// The map as it is.
    pub fn of(map: RangeMap<K, u64>) -> KeptMap<K>
        ensures { result ≡ box_items map }
    {
        KeptMap { map }
    }

    /// The map, for what only reads it.
    pub fn as_map(&self) -> &RangeMap<K, u64>
        ensures { box_items result.now ≡ self.now }
    {
        &self.map
    }

    pub fn range_count(&self) -> usize
        ensures value { result ≡ length self.now }
        ensures least { IsLeastCount K.order nat_eq self.now result }
    {
        self.map.range_count()
    }

    pub fn clear(&mut self)
        ensures { self.new ≡ [] }
    {
        self.map.clear();
    }

    pub fn copied(&self) -> Result<KeptMap<K>, AllocError>
        requires keys { ClonesAreEqual K.is_clone K.eq }
        ensures { IfOk result (λ copy. IsCopyOf K.order nat_eq copy self.now) }
    {
        Ok(KeptMap {
            map: self.map.clone()?,
        })
    }

    pub fn equals(&self, other: &KeptMap<K>) -> bool
        ensures { IsTrue result ↔ BindAlike K.order nat_eq self.now other.now }
    {
        self.map.eq(&other.map)
    }

    /// A map that binds each key as the other does, or else as this one does.
    pub fn overlay(&self, other: &KeptMap<K>) -> Result<KeptMap<K>, MapError>
        requires keys { ClonesAreEqual K.is_clone K.eq }
        ensures { IfOk result (λ new. IsOverlaid K.order nat_eq self.now other.now new) }
    {
        Ok(KeptMap {
            map: self.map.overlay(&other.map)?,
        })
    }

    /// A map of that part of this one, by the keys that the other binds.
    pub fn part_of<W: Eq + Drop>(
        &self,
        other: &RangeMap<K, W>,
        part: Part,
    ) -> Result<KeptMap<K>, MapError>
        requires keys { ClonesAreEqual K.is_clone K.eq }
        ensures { IfOk result
            (λ new. IsPart part K.order self.now (box_items other.now) new) }
    {
        let map = match part {
            Part::Shared => self.map.restrict(other)?,
            Part::Rest => self.map.without(other)?,
        };
        Ok(KeptMap { map })
    }

    /// Binds each key of the range to the value.
    pub fn insert(&mut self, range: AnyRange<K>, value: u64) -> u32
        requires keys { ClonesAreEqual K.is_clone K.eq }
        ensures bound { result ≡ DONE
            → IsBoundAfter K.order nat_eq self.old self.new range value }
        ensures empty { IsEmptyRange K.order range → result ≡ DONE }
        ensures empty_unchanged { IsEmptyRange K.order range
            → self.new ≡ self.old }
        ensures refused { result ≢ DONE → self.new ≡ self.old }
        ensures answer { (result ≡ DONE) ⊎ (result ≡ NO_MEMORY) }
    {
        match self.map.insert(range, value) {
            Ok(()) => DONE,
            Err(_) => NO_MEMORY,
        }
    }

    /// Binds the keys of each range to the value beside it, one range after the other, and tells of
    /// how many: of all, or of those before one for which there was not enough memory.
    ///
    /// Ranges in order that come to a map without one are stored with no search. For the time of
    /// the call they are kept twice more, where there is enough memory for it.
    pub fn insert_many<E: Told<K, u64>>(
        &mut self,
        alloc: Global,
        entries: &[E],
        count: &mut usize,
    ) -> u32
        requires keys { ClonesAreEqual K.is_clone K.eq }
        ensures bound { AreBoundAfter K.order nat_eq self.old self.new
            (map E.told (take count.new entries.now)) }
        ensures all { result ≡ DONE → count.new ≡ length entries.now }
        ensures some { result ≡ NO_MEMORY → count.new < length entries.now }
        ensures answer { (result ≡ DONE) ⊎ (result ≡ NO_MEMORY) }
    {
        *count = self.bind_all(alloc, entries);
        if *count < entries.len() {
            NO_MEMORY
        } else {
            DONE
        }
    }

    /// Binds the keys of each range, up to one for which there is not enough memory. Returns of how
    /// many.
    fn bind_all<E: Told<K, u64>>(&mut self, alloc: Global, entries: &[E]) -> usize
        requires keys { ClonesAreEqual K.is_clone K.eq }
        ensures bound { AreBoundAfter K.order nat_eq self.old self.new
            (map E.told (take result entries.now)) }
        ensures within { result ≤ length entries.now }
    {
        if self.range_count() == 0 {
            if let Some(map) = map_in_order(alloc, entries) {
                *self = KeptMap { map };
                return entries.len();
            }
        }
        self.bind_each(entries)
    }

    /// The same, one range after the other.
    fn bind_each<E: Told<K, u64>>(&mut self, entries: &[E]) -> usize
        requires keys { ClonesAreEqual K.is_clone K.eq }
        ensures bound { AreBoundAfter K.order nat_eq self.old self.new
            (map E.told (take result entries.now)) }
        ensures within { result ≤ length entries.now }
    {
        let mut count = 0;
        while count < entries.len() {
            let Item { key, value } = entries[count].item();
            if self.insert(key, value) != DONE {
                return count;
            }
            count += 1;
        }
        count
    }

    /// Binds each key of a range that neither meets nor touches a stored one.
    pub fn insert_disconnected(&mut self, range: AnyRange<K>, value: u64) -> u32
        requires keys { ClonesAreEqual K.is_clone K.eq }
        ensures bound { result ≡ DONE
            → IsBoundAfter K.order nat_eq self.old self.new range value }
        ensures connected { result ≡ CONNECTED
            ↔ (¬ IsEmptyRange K.order range)
            × IsConnectedToSome K.order self.old range }
        ensures empty { IsEmptyRange K.order range → result ≡ DONE }
        ensures empty_unchanged { IsEmptyRange K.order range
            → self.new ≡ self.old }
        ensures refused { result ≢ DONE → self.new ≡ self.old }
        ensures answer { (result ≡ DONE) ⊎ ((result ≡ NO_MEMORY) ⊎ (result ≡ CONNECTED)) }
    {
        match self.map.insert_disconnected(range, value) {
            Ok(()) => DONE,
            Err(refusal) => of_refusal(&refusal),
        }
    }

    /// Binds each key of a range that meets no stored one.
    pub fn try_insert(&mut self, range: AnyRange<K>, value: u64) -> u32
        ensures bound { result ≡ DONE
            → IsBoundAfter K.order nat_eq self.old self.new range value }
        ensures occupied { result ≡ OCCUPIED
            ↔ (¬ IsEmptyRange K.order range) × MeetsSome K.order self.old range }
        ensures empty { IsEmptyRange K.order range → result ≡ DONE }
        ensures empty_unchanged { IsEmptyRange K.order range
            → self.new ≡ self.old }
        ensures refused { result ≢ DONE → self.new ≡ self.old }
        ensures answer { (result ≡ DONE) ⊎ ((result ≡ NO_MEMORY) ⊎ (result ≡ OCCUPIED)) }
    {
        match self.map.try_insert(range, value) {
            Ok(()) => DONE,
            Err(refusal) => of_obstacle(&refusal),
        }
    }

    /// Moves what lies from the key on to the other map, in place of what that held.
    pub fn split_off(&mut self, key: K, rest: &mut KeptMap<K>) -> u32
        requires keys { ClonesAreEqual K.is_clone K.eq }
        ensures split { result ≡ DONE
            → IsSplitAt K.order nat_eq key self.old self.new rest.new }
        ensures refused { result ≢ DONE → (self.new ≡ self.old) × (rest.new ≡ rest.old) }
        ensures answer { (result ≡ DONE) ⊎ (result ≡ NO_MEMORY) }
    {
        match self.map.split_off(key) {
            Ok(map) => {
                *rest = KeptMap { map };
                DONE
            }
            Err(_) => NO_MEMORY,
        }
    }

    /// Moves all ranges of the other map, each of which lies after all of this one, to its end.
    pub fn append(&mut self, other: &mut KeptMap<K>) -> u32
        ensures bound { result ≡ DONE
            → BindAlike K.order nat_eq self.new (self.old ++ other.old) }
        ensures emptied { result ≡ DONE → other.new ≡ [] }
        ensures out_of_order { result ≡ OUT_OF_ORDER
            ↔ ¬ LieBefore K.order self.old other.old }
        ensures refused { result ≢ DONE → (self.new ≡ self.old) × (other.new ≡ other.old) }
        ensures answer { (result ≡ DONE) ⊎ ((result ≡ NO_MEMORY) ⊎ (result ≡ OUT_OF_ORDER)) }
    {
        match self.map.append(&mut other.map) {
            Ok(()) => DONE,
            Err(refusal) => of_disorder(&refusal),
        }
    }

    /// Binds no key of the range.
    pub fn remove(&mut self, range: AnyRange<K>) -> u32
        requires keys { ClonesAreEqual K.is_clone K.eq }
        ensures unbound { result ≡ DONE
            → IsUnboundAfter K.order nat_eq self.old self.new range }
        ensures empty { IsEmptyRange K.order range → result ≡ DONE }
        ensures empty_unchanged { IsEmptyRange K.order range
            → self.new ≡ self.old }
        ensures refused { result ≢ DONE → self.new ≡ self.old }
        ensures answer { (result ≡ DONE) ⊎ (result ≡ NO_MEMORY) }
    {
        match self.map.remove(range) {
            Ok(()) => DONE,
            Err(_) => NO_MEMORY,
        }
    }

    /// Takes the first stored range out, and writes it with its value.
    pub fn pop_first<E: Shown<K, u64>>(&mut self, entry: &mut E) -> u32
        ensures first { result ≡ DONE → self.old ≡ E.said entry.new ∷ self.new }
        ensures none { result ≡ NONE → self.old ≡ [] }
        ensures unchanged { result ≡ NONE → self.new ≡ self.old }
        ensures unwritten { result ≡ NONE → entry.new ≡ entry.old }
        ensures answer { (result ≡ DONE) ⊎ (result ≡ NONE) }
    {
        match self.map.pop_first() {
            Some((range, value)) => {
                *entry = E::of_item(&range, &value);
                DONE
            }
            None => NONE,
        }
    }

    /// Takes the last stored range out, and writes it with its value.
    pub fn pop_last<E: Shown<K, u64>>(&mut self, entry: &mut E) -> u32
        ensures last { result ≡ DONE → self.old ≡ self.new ++ E.said entry.new ∷ [] }
        ensures none { result ≡ NONE → self.old ≡ [] }
        ensures unchanged { result ≡ NONE → self.new ≡ self.old }
        ensures unwritten { result ≡ NONE → entry.new ≡ entry.old }
        ensures answer { (result ≡ DONE) ⊎ (result ≡ NONE) }
    {
        match self.map.pop_last() {
            Some((range, value)) => {
                *entry = E::of_item(&range, &value);
                DONE
            }
            None => NONE,
        }
    }
}

impl<K: Key + Json> KeptMap<K> {
    /// The text that it is saved as, of keys that are written with no float.
    pub fn text(&self, alloc: Global) -> Result<Vec<u8>, AllocError>
        requires { (key : K) → has_float (K.shape key) ≡ false }
        ensures { IfOk result
            (λ text. text.items ≡ compact_text (map_shape K.shape unsigned_shape self.now)) }
    {
        map_to_json(alloc, &self.map)?.to_vec(alloc)
    }

    /// What the JSON value is read as.
    pub fn read(alloc: Global, value: &Value) -> Result<KeptMap<K>, JsonError>
        requires keys { ClonesAreEqual K.is_clone K.eq }
        ensures read { IfOk result
            (λ new. IsMapRead K.order K.reads reads_unsigned K.is_read IsUnsignedRead nat_eq
            (view value.now) new) }
        ensures fault { IfErr result
            (λ e. (e ≡ Memory)
            ⊎ IsMapFault K.order K.reads reads_unsigned K.is_read IsUnsignedRead
            (view value.now) e) }
    {
        match map_from_json(alloc, value) {
            Ok(map) => Ok(KeptMap { map }),
            Err(error) => Err(error),
        }
    }
}
