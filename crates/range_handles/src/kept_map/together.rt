//! The calls that make a map of two, or of a map and a set.
ghost use Rattle.std.specs.Prelude.{◌≡◌, ◌≢◌, ◌⊎◌, Some};
ghost use Rattle.range_handles.specs.MapKinds.{AreMapAndKeys, AreMapsOfOneKind, IsOverlayOf, IsPartOf};

use crate::collection::Collection;
use crate::handle::Handle;
use range_ffi::status::{DONE, NO_MEMORY, OTHER_KIND};
use std::alloc::Global;

/// Opens a closed handle on a map that binds each key as the other does, or else as the first does.
pub fn overlay(alloc: Global, collection: &Collection, other: &Collection, made: &mut Handle) -> u32
    ensures made { result ≡ DONE
        → IsOverlayOf (Some collection.now) (Some other.now) made.new.seal.held }
    ensures refused { result ≢ DONE → made.new.seal.held ≡ made.old.seal.held }
    ensures answer { AreMapsOfOneKind (Some collection.now) (Some other.now)
        → (result ≡ DONE) ⊎ (result ≡ NO_MEMORY) }
    ensures other { (¬ AreMapsOfOneKind (Some collection.now) (Some other.now))
        → result ≡ OTHER_KIND }
{
    match (collection, other) {
        (Collection::Unsigned(first), Collection::Unsigned(second)) => {
            match first.overlay(second) {
                Ok(map) => made.fill(alloc, Collection::Unsigned(map)),
                Err(_) => NO_MEMORY,
            }
        }
        (Collection::Signed(first), Collection::Signed(second)) => {
            match first.overlay(second) {
                Ok(map) => made.fill(alloc, Collection::Signed(map)),
                Err(_) => NO_MEMORY,
            }
        }
        (Collection::Wide(first), Collection::Wide(second)) => {
            match first.overlay(second) {
                Ok(map) => made.fill(alloc, Collection::Wide(map)),
                Err(_) => NO_MEMORY,
            }
        }
        (_, _) => OTHER_KIND,
    }
}

/// Which bindings of a map are taken, by the keys of another collection.
#[derive(Drop, Clone, Copy)]
pub enum Part {
    /// Those whose keys the other has too.
    Shared,
    /// Those whose keys the other has not.
    Rest,
}

/// Opens a closed handle on a map of that part of the first, by the keys that the other has.
pub fn part_of(
    alloc: Global,
    collection: &Collection,
    other: &Collection,
    part: Part,
    made: &mut Handle,
) -> u32
    ensures made { result ≡ DONE
        → IsPartOf part (Some collection.now) (Some other.now) made.new.seal.held }
    ensures refused { result ≢ DONE → made.new.seal.held ≡ made.old.seal.held }
    ensures answer { AreMapAndKeys (Some collection.now) (Some other.now)
        → (result ≡ DONE) ⊎ (result ≡ NO_MEMORY) }
    ensures other { (¬ AreMapAndKeys (Some collection.now) (Some other.now))
        → result ≡ OTHER_KIND }
{
    match (collection, other) {
        (Collection::Unsigned(first), Collection::Unsigned(second)) => {
            match first.part_of(second.as_map(), part) {
                Ok(map) => made.fill(alloc, Collection::Unsigned(map)),
                Err(_) => NO_MEMORY,
            }
        }
        (Collection::Unsigned(first), Collection::Set(second)) => {
            match first.part_of(second.as_map(), part) {
                Ok(map) => made.fill(alloc, Collection::Unsigned(map)),
                Err(_) => NO_MEMORY,
            }
        }
        (Collection::Signed(first), Collection::Signed(second)) => {
            match first.part_of(second.as_map(), part) {
                Ok(map) => made.fill(alloc, Collection::Signed(map)),
                Err(_) => NO_MEMORY,
            }
        }
        (Collection::Signed(first), Collection::SignedSet(second)) => {
            match first.part_of(second.as_map(), part) {
                Ok(map) => made.fill(alloc, Collection::Signed(map)),
                Err(_) => NO_MEMORY,
            }
        }
        (Collection::Wide(first), Collection::Wide(second)) => {
            match first.part_of(second.as_map(), part) {
                Ok(map) => made.fill(alloc, Collection::Wide(map)),
                Err(_) => NO_MEMORY,
            }
        }
        (Collection::Wide(first), Collection::WideSet(second)) => {
            match first.part_of(second.as_map(), part) {
                Ok(map) => made.fill(alloc, Collection::Wide(map)),
                Err(_) => NO_MEMORY,
            }
        }
        (_, _) => OTHER_KIND,
    }
}
