//! What an open handle leads to.
ghost use Rattle.std.specs.Prelude.{◌≡◌, ◌≢◌, ◌⊎◌, ◌↔◌, Some, None, IfOk, IfErr, IsTrue, IsUtf8};
ghost use Rattle.serde_json.specs.Read.{read as read_text};
ghost use Rattle.serde_json.specs.View.{view};
ghost use Rattle.serde_json.specs.Written.{compact_text};
ghost use Rattle.btree_range_map.specs.JsonError.TheVariants.{Memory};
ghost use Rattle.range_handles.specs.Alike.{AreAlike, IsCopy};
ghost use Rattle.range_handles.specs.Fewest.{IsLeastRangeCount};
ghost use Rattle.range_handles.specs.Held.{HoldsRanges, range_count, emptied};
ghost use Rattle.range_handles.specs.Texts.{data_of, IsDataFault, IsDataRead, IsFaultyText, IsTextRead};

use crate::kept_map::KeptMap;
use crate::kept_set::KeptSet;
use address_keys::Ipv6;
use btree_range_map::json::JsonError;
use lexing::Machine;
use range_ffi::status::{DONE, NO_MEMORY, NONE, NOT_JSON, NOT_READ, OTHER_KIND, answer};
use serde_json::Value;
use std::alloc::{AllocError, Global};

/// A map or a set, which a contract sees as its ranges, or the machine of a lexer, which has none.
#[derive(Drop)]
pub enum Collection {
    Unsigned(KeptMap<u64>),
    Signed(KeptMap<i64>),
    Set(KeptSet<u64>),
    SignedSet(KeptSet<i64>),
    Wide(KeptMap<Ipv6>),
    WideSet(KeptSet<Ipv6>),
    Lexer(Machine),
}

impl Collection {
    /// Whether this is a map or a set.
    pub fn has_ranges(&self) -> bool
        ensures { IsTrue result ↔ HoldsRanges (Some self.now) }
    {
        !matches!(self, Collection::Lexer(_))
    }

    /// How many ranges are stored.
    pub fn range_count(&self) -> usize
        ensures value { result ≡ range_count (Some self.now) }
        ensures least { IsLeastRangeCount (Some self.now) result }
    {
        match self {
            Collection::Unsigned(map) => map.range_count(),
            Collection::Signed(map) => map.range_count(),
            Collection::Set(set) => set.range_count(),
            Collection::SignedSet(set) => set.range_count(),
            Collection::Wide(map) => map.range_count(),
            Collection::WideSet(set) => set.range_count(),
            Collection::Lexer(_) => 0,
        }
    }

    /// Takes all ranges away, and keeps their memory for others.
    pub fn clear(&mut self)
        ensures { Some self.new ≡ emptied (Some self.old) }
    {
        match self {
            Collection::Unsigned(map) => map.clear(),
            Collection::Signed(map) => map.clear(),
            Collection::Set(set) => set.clear(),
            Collection::SignedSet(set) => set.clear(),
            Collection::Wide(map) => map.clear(),
            Collection::WideSet(set) => set.clear(),
            Collection::Lexer(_) => {}
        }
    }

    /// A collection of the same kind, with equal ranges and equal values. There is none of a lexer.
    pub fn copied(&self) -> Result<Collection, AllocError>
        ensures { IfOk result (λ copy. IsCopy (Some copy) (Some self.now)) }
    {
        match self {
            Collection::Unsigned(map) => Ok(Collection::Unsigned(map.copied()?)),
            Collection::Signed(map) => Ok(Collection::Signed(map.copied()?)),
            Collection::Set(set) => Ok(Collection::Set(set.copied()?)),
            Collection::SignedSet(set) => Ok(Collection::SignedSet(set.copied()?)),
            Collection::Wide(map) => Ok(Collection::Wide(map.copied()?)),
            Collection::WideSet(set) => Ok(Collection::WideSet(set.copied()?)),
            Collection::Lexer(_) => Err(AllocError),
        }
    }

    /// Whether the other is of this kind, and binds each key as this one does. Lexers are not compared.
    pub fn equals(&self, other: &Collection) -> u32
        ensures yes { result ≡ DONE → AreAlike (Some self.now) (Some other.now) }
        ensures no { result ≡ NONE → ¬ AreAlike (Some self.now) (Some other.now) }
        ensures answer { HoldsRanges (Some self.now)
            → emptied (Some self.now) ≡ emptied (Some other.now)
            → (result ≡ DONE) ⊎ (result ≡ NONE) }
        ensures other { (¬ emptied (Some self.now) ≡ emptied (Some other.now))
            → result ≡ OTHER_KIND }
        ensures lexer { (¬ HoldsRanges (Some self.now)) → result ≡ OTHER_KIND }
    {
        match (self, other) {
            (Collection::Unsigned(map), Collection::Unsigned(second)) => answer(map.equals(second)),
            (Collection::Signed(map), Collection::Signed(second)) => answer(map.equals(second)),
            (Collection::Set(set), Collection::Set(second)) => answer(set.equals(second)),
            (Collection::SignedSet(set), Collection::SignedSet(second)) => {
                answer(set.equals(second))
            }
            (Collection::Wide(map), Collection::Wide(second)) => answer(map.equals(second)),
            (Collection::WideSet(set), Collection::WideSet(second)) => answer(set.equals(second)),
            (_, _) => OTHER_KIND,
        }
    }

    /// The JSON text that it is saved as. There is none of a lexer.
    pub fn text(&self, alloc: Global) -> Result<Vec<u8>, AllocError>
        ensures { IfOk result (λ text. text.items ≡ compact_text (data_of self.now)) }
    {
        match self {
            Collection::Unsigned(map) => map.text(alloc),
            Collection::Signed(map) => map.text(alloc),
            Collection::Set(set) => set.text(alloc),
            Collection::SignedSet(set) => set.text(alloc),
            Collection::Wide(map) => map.text(alloc),
            Collection::WideSet(set) => set.text(alloc),
            Collection::Lexer(_) => Err(AllocError),
        }
    }

    /// What the JSON value is read as, as a collection of the same kind.
    fn read(&self, alloc: Global, value: &Value) -> Result<Collection, JsonError>
        ensures kind { IfOk result (λ new. emptied (Some new) ≡ emptied (Some self.now)) }
        ensures read { IfOk result (λ new. IsDataRead (view value.now) new) }
        ensures fault { IfErr result
            (λ e. (e ≡ Memory) ⊎ IsDataFault self.now (view value.now) e) }
    {
        match self {
            Collection::Unsigned(_) => Ok(Collection::Unsigned(KeptMap::read(alloc, value)?)),
            Collection::Signed(_) => Ok(Collection::Signed(KeptMap::read(alloc, value)?)),
            Collection::Set(_) => Ok(Collection::Set(KeptSet::read(alloc, value)?)),
            Collection::SignedSet(_) => Ok(Collection::SignedSet(KeptSet::read(alloc, value)?)),
            Collection::Wide(_) => Ok(Collection::Wide(KeptMap::read(alloc, value)?)),
            Collection::WideSet(_) => Ok(Collection::WideSet(KeptSet::read(alloc, value)?)),
            Collection::Lexer(_) => Err(JsonError::Memory),
        }
    }

    /// Becomes what the text is read as, a collection of the same kind.
    pub fn load(&mut self, alloc: Global, text: &[u8]) -> u32
        ensures kind { emptied (Some self.new) ≡ emptied (Some self.old) }
        ensures loaded { result ≡ DONE → IsTextRead text.now (Some self.new) }
        ensures refused { result ≢ DONE → self.new ≡ self.old }
        ensures not_json { result ≡ NOT_JSON → IsUtf8 text.now → read_text text.now ≡ None }
        ensures not_read { result ≡ NOT_READ → IsFaultyText (Some self.old) text.now }
        ensures answer { (result ≡ DONE)
            ⊎ ((result ≡ NO_MEMORY) ⊎ ((result ≡ NOT_JSON) ⊎ (result ≡ NOT_READ))) }
    {
        match Value::from_slice(alloc, text) {
            Ok(value) => match self.read(alloc, &value) {
                Ok(read) => {
                    *self = read;
                    DONE
                }
                Err(JsonError::Memory) => NO_MEMORY,
                Err(_) => NOT_READ,
            },
            Err(error) if error.is_memory() => NO_MEMORY,
            Err(_) => NOT_JSON,
        }
    }
}
