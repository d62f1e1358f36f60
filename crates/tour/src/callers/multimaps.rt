//! Callers of multimaps, and of the sets that these keep.

ghost use Rattle.std.specs.Prelude.{IfOk};
ghost use Rattle.btree_range_map.specs.Names.{char_order, bindings_of};
ghost use Rattle.btree_range_map.specs.Pairs.{HasPairsOfFirstAlone};

use btree_range_map::generic::multimap::{MaybeEmpty, SetMut};
use btree_range_map::{MapError, RangeMultiMap};
use std::alloc::{AllocError, Global};
use std::collections::HashSet;

type Classes = RangeMultiMap<char, HashSet<u8>>;

fn new(alloc: Global) -> Classes {
    RangeMultiMap::default(alloc)
}

fn take(classes: &mut Classes) -> Result<(), MapError> {
    classes.remove('4'..='6', &1)
}

fn has(classes: &Classes) -> bool {
    classes.contains('5', &1)
}

fn copied(classes: &Classes) -> Result<Classes, MapError> {
    Ok(classes.clone()?)
}

fn of_first_alone(classes: &Classes, others: &Classes) -> Result<Classes, MapError>
    ensures { IfOk result (λ new. HasPairsOfFirstAlone char_order
        ⟦<HashSet<u8> as SetMut<u8>>⟧.has (bindings_of classes.now) (bindings_of others.now)
        (bindings_of new)) }
{
    classes.difference(others)
}

fn has_range(classes: &Classes) -> bool {
    classes.iter().next().is_some()
}

fn new_set(alloc: Global) -> HashSet<u8> {
    <HashSet<u8> as MaybeEmpty>::default(alloc)
}

fn add_to_set(set: &mut HashSet<u8>) -> Result<(), AllocError> {
    SetMut::insert(set, 1)
}

fn take_from_set(set: &mut HashSet<u8>) {
    SetMut::remove(set, &1);
}

fn has_none(set: &HashSet<u8>) -> bool {
    MaybeEmpty::is_empty(set)
}
