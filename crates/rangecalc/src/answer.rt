//! What a map answers to a command, by the one call that the command is.

ghost use Rattle.std.specs.Prelude.{◌≡◌, not, MatchOption, OnErr, OnOk};
ghost use Rattle.std.specs.List.{filter};
ghost use Rattle.std.specs.Ordering.{int_eq};
ghost use Rattle.btree_range_map.specs.Lookups.{MeetsSome};
ghost use Rattle.btree_range_map.specs.Range.{IsEmptyRange};
ghost use Rattle.rangecalc.specs.declared.answer.Reply.TheVariants.{Done, Memory, Nothing, Stored};
ghost use Rattle.rangecalc.specs.Answers.{IsAnswer, IsChanged, IsMadeFrom, IsTaken, IsTried, has_another};

use crate::line::{Change, Question};
use crate::number::MapKey;
use btree_range_map::generic::map::RangeMap;
use btree_range_map::storage::{Item, Storage};
use btree_range_map::{AnyRange, MapError, NotFree};
use std::alloc::Global;

/// An answer of one line.
#[derive(Drop)]
pub enum Reply<K> {
    Done,
    Memory,
    Nothing,
    Value(i64),
    Stored((AnyRange<K>, i64)),
    Taken(AnyRange<K>),
    Fault,
    Truth(bool),
    Number(u128),
}

/// The first stored range that a range meets.
fn taken<K: MapKey, C: Storage<Item<AnyRange<K>, i64>>>(
    map: &RangeMap<K, i64, C>,
    range: AnyRange<K>,
) -> Reply<K>
    requires nonempty { ¬ IsEmptyRange K.order range }
    requires meets { MeetsSome K.order (C.items map.now) range }
    ensures { IsTaken K.order result (C.items map.now) range }
{
    match map.overlapping(range).next() {
        Some((met, _)) => Reply::Taken(*met),
        None => unreachable!(),
    }
}

/// Binds the keys of a range where no stored one is in the way.
fn try_insert<K: MapKey, C: Storage<Item<AnyRange<K>, i64>>>(
    map: &mut RangeMap<K, i64, C>,
    range: AnyRange<K>,
    value: i64,
) -> Reply<K>
    ensures { IsTried K.order range value result (C.items map.old) (C.items map.new) }
{
    match map.try_insert(range, value) {
        Ok(()) => Reply::Done,
        Err(NotFree::Memory(_, _)) => Reply::Memory,
        Err(NotFree::Occupied(range, _)) => taken(map, range),
    }
}

fn is_other(value: i64, bound: &i64) -> bool
    ensures { result ≡ not (int_eq bound.now value) }
{
    *bound != value
}

/// Unbinds each key that is bound to the value.
fn drop_value<K: MapKey, C: Storage<Item<AnyRange<K>, i64>>>(
    map: &mut RangeMap<K, i64, C>,
    value: i64,
)
    ensures { C.items map.new ≡ filter (has_another value) (C.items map.old) }
{
    map.retain(move |_range, bound| is_other(value, bound));
}

/// Makes the map one of these bindings.
fn make_from<K: MapKey, C: Storage<Item<AnyRange<K>, i64>>>(
    alloc: Global,
    map: &mut RangeMap<K, i64, C>,
    bindings: Vec<(AnyRange<K>, i64)>,
) -> Reply<K>
    ensures { IsMadeFrom K.order bindings.items result (C.items map.old) (C.items map.new) }
{
    match RangeMap::from_iter(alloc, bindings) {
        Ok(made) => {
            *map = made;
            Reply::Done
        }
        Err(_) => Reply::Memory,
    }
}

fn done<K: Copy>(changed: Result<(), MapError>) -> Reply<K>
    ensures done { OnOk changed (result ≡ Done) }
    ensures refused { OnErr changed (result ≡ Memory) }
{
    match changed {
        Ok(()) => Reply::Done,
        Err(_) => Reply::Memory,
    }
}

fn taken_out<K: Copy>(taken: Option<(AnyRange<K>, i64)>) -> Reply<K>
    ensures { MatchOption taken (result ≡ Nothing) (λ stored. result ≡ Stored stored) }
{
    match taken {
        Some(stored) => Reply::Stored(stored),
        None => Reply::Nothing,
    }
}

/// Does what is to be done to a map.
pub fn change<K: MapKey, C: Storage<Item<AnyRange<K>, i64>>>(
    alloc: Global,
    map: &mut RangeMap<K, i64, C>,
    change: Change<K>,
) -> Reply<K>
    ensures { IsChanged K.order change result (C.items map.old) (C.items map.new) }
{
    match change {
        Change::Insert(range, value) => done(map.insert(range, value)),
        Change::Try(range, value) => try_insert(map, range, value),
        Change::Remove(range) => done(map.remove(range)),
        Change::Drop(value) => {
            drop_value(map, value);
            Reply::Done
        }
        Change::From(bindings) => make_from(alloc, map, bindings),
        Change::PopFirst => taken_out(map.pop_first()),
        Change::PopLast => taken_out(map.pop_last()),
        Change::Clear => {
            map.clear();
            Reply::Done
        }
    }
}

fn stored<K: Copy>(found: Option<(&AnyRange<K>, &i64)>) -> Reply<K>
    ensures { MatchOption found.entry (result ≡ Nothing)
        (λ pair. result ≡ Stored (pair.0.now, pair.1.now)) }
{
    match found {
        Some((range, value)) => Reply::Stored((*range, *value)),
        None => Reply::Nothing,
    }
}

/// Answers what is asked of a map that is kept in a tree of so many levels.
pub fn ask<K: MapKey, C: Storage<Item<AnyRange<K>, i64>>>(
    map: &RangeMap<K, i64, C>,
    levels: usize,
    question: Question<K>,
) -> Reply<K>
    ensures { IsAnswer K.order question result (C.items map.now) levels }
{
    match question {
        Question::Get(key) => match map.get(key) {
            Some(value) => Reply::Value(*value),
            None => Reply::Nothing,
        },
        Question::At(key) => stored(map.get_key_value(key)),
        Question::First => stored(map.first_range_value()),
        Question::Last => stored(map.last_range_value()),
        Question::Has(key) => Reply::Truth(map.contains_key(key)),
        Question::Meets(range) => Reply::Truth(map.intersects(range)),
        Question::All(range) => Reply::Truth(map.binds_all(range)),
        Question::Count => Reply::Number(map.range_count() as u128),
        Question::Len => Reply::Number(map.len()),
        Question::Levels => Reply::Number(levels as u128),
    }
}
