//! The four maps, and what they answer to a line.

ghost use Rattle.std.specs.Prelude.{◌≡◌, ◌↔◌, IsTrue, OnOk};
ghost use Rattle.rangecalc.specs.Conversation.{AnswersLine, IsDone, none_stored, stored_in};
ghost use Rattle.rangecalc.specs.Named.{at, each};
ghost use Rattle.line_program.specs.Listing.{Writes};
ghost use Rattle.rangecalc.specs.Two.{AreRelated, IsAmending, IsCombination, IsKeeping, IsSplit};

use crate::answer::{Reply, ask, change};
use crate::line::{Amendment, Command, Kept, Relation, Unread, Way, parse};
use crate::listing::list;
use crate::named::{Name, Named};
use crate::number::MapKey;
use crate::two::{amend, amend_by_itself, are_related, combined, kept};
use crate::write::{write_reply, write_truth};
use btree_range_map::generic::map::RangeMap;
use btree_range_map::storage::{Item, Storage};
use btree_range_map::{AnyRange, DefaultMapContainer, UpdateError};
use std::alloc::Global;
use std::io::{self, Write};
use std::mem;

/// The maps that the lines name `a` to `d`, in one kind of container.
type MapsIn<K, C> = Named<RangeMap<K, i64, C>>;

/// These maps in trees.
pub type Maps<K> = MapsIn<K, DefaultMapContainer<Item<AnyRange<K>, i64>>>;

pub fn no_maps<K: MapKey, C: Storage<Item<AnyRange<K>, i64>>>(alloc: Global) -> MapsIn<K, C>
    ensures { each C.items result ≡ none_stored }
{
    Named {
        a: RangeMap::new(alloc),
        b: RangeMap::new(alloc),
        c: RangeMap::new(alloc),
        d: RangeMap::new(alloc),
    }
}

/// Whether it is true of two maps.
fn compare<K: MapKey, C: Storage<Item<AnyRange<K>, i64>>>(
    maps: &MapsIn<K, C>,
    name: Name,
    relation: Relation,
    other: Name,
) -> bool
    ensures { IsTrue result ↔ AreRelated K.order relation (at (each C.items maps.now) name)
        (at (each C.items maps.now) other) }
{
    are_related(relation, maps.at(name), maps.at(other))
}

/// Moves what lies from the key on to the next map.
fn split<K: MapKey, C: Storage<Item<AnyRange<K>, i64>>>(
    maps: &mut MapsIn<K, C>,
    name: Name,
    key: K,
) -> Reply<K>
    ensures { IsSplit K.order name key result (each C.items maps.old) (each C.items maps.new) }
{
    match maps.at_mut(name).split_off(key) {
        Ok(rest) => {
            *maps.at_mut(name.next()) = rest;
            Reply::Done
        }
        Err(_) => Reply::Memory,
    }
}

/// Makes a map one of two, which it may be itself.
fn combine<K: MapKey, C: Storage<Item<AnyRange<K>, i64>>>(
    maps: &mut MapsIn<K, C>,
    name: Name,
    way: Way,
    first: Name,
    second: Name,
) -> Reply<K>
    ensures { IsCombination K.order name way first second result (each C.items maps.old)
        (each C.items maps.new) }
{
    match combined(way, maps.at(first), maps.at(second)) {
        Ok(made) => {
            *maps.at_mut(name) = made;
            Reply::Done
        }
        Err(UpdateError::Closure(_)) => Reply::Fault,
        Err(UpdateError::Memory) => Reply::Memory,
    }
}

/// Makes a map one of the bindings of another, which it may be itself.
fn keep<K: MapKey, C: Storage<Item<AnyRange<K>, i64>>>(
    maps: &mut MapsIn<K, C>,
    name: Name,
    wanted: Kept,
    first: Name,
    second: Name,
) -> Reply<K>
    ensures { IsKeeping K.order name wanted first second result (each C.items maps.old)
        (each C.items maps.new) }
{
    match kept(wanted, maps.at(first), maps.at(second)) {
        Ok(made) => {
            *maps.at_mut(name) = made;
            Reply::Done
        }
        Err(_) => Reply::Memory,
    }
}

/// Changes a map by another, which it may be itself.
fn amend_by<K: MapKey, C: Storage<Item<AnyRange<K>, i64>>>(
    alloc: Global,
    maps: &mut MapsIn<K, C>,
    name: Name,
    amendment: Amendment,
    other: Name,
) -> Reply<K>
    ensures { IsAmending K.order name amendment other result (each C.items maps.old)
        (each C.items maps.new) }
{
    if name == other {
        amend_by_itself(amendment, maps.at_mut(name));
        return Reply::Done;
    }
    let mut map = mem::replace(maps.at_mut(name), RangeMap::new(alloc));
    let amended = amend(amendment, &mut map, maps.at(other));
    *maps.at_mut(name) = map;
    match amended {
        Ok(()) => Reply::Done,
        Err(_) => Reply::Memory,
    }
}

/// Answers a command to the map with a name, in a tree of so many levels.
fn answer<K: MapKey, C: Storage<Item<AnyRange<K>, i64>>, W: Write>(
    alloc: Global,
    maps: &mut MapsIn<K, C>,
    name: Name,
    levels: usize,
    command: Command<K>,
    out: &mut W,
) -> io::Result<()>
    ensures { OnOk result
        (Writes (W.contents out.old) (W.contents out.new)
        (λ text. IsDone K.order name command text (each C.items maps.old)
        (each C.items maps.new))) }
{
    match command {
        Command::Change(wanted) => write_reply(change(alloc, maps.at_mut(name), wanted), out),
        Command::Ask(question) => write_reply(ask(maps.at(name), levels, question), out),
        Command::List(listing) => list(maps.at(name), listing, out),
        Command::Split(key) => write_reply(split(maps, name, key), out),
        Command::Compare(relation, other) => {
            write_truth(compare(maps, name, relation, other), out)
        }
        Command::Combine(way, first, second) => {
            write_reply(combine(maps, name, way, first, second), out)
        }
        Command::Keep(kept, first, second) => {
            write_reply(keep(maps, name, kept, first, second), out)
        }
        Command::Amend(amendment, other) => {
            write_reply(amend_by(alloc, maps, name, amendment, other), out)
        }
    }
}

/// Does what a line says and writes its reply: one line, or one for each range that is listed.
///
/// A line of no known form is answered by `bad line`, and one that fails to allocate by `memory`.
/// Then the maps are as before, but for `a += b` and `a -= b`. These have changed the keys of the
/// ranges of `b` before one of them, and no others.
pub fn answer_line<K: MapKey, W: Write>(
    alloc: Global,
    maps: &mut Maps<K>,
    line: &str,
    out: &mut W,
) -> io::Result<()>
    ensures { OnOk result
        (Writes (W.contents out.old) (W.contents out.new)
        (λ text. AnswersLine K.order line.now text (stored_in maps.old) (stored_in maps.new))) }
{
    match parse(alloc, line) {
        Ok((name, command)) => {
            let levels = maps.at(name).levels();
            answer(alloc, maps, name, levels, command, out)
        }
        Err(Unread::Unknown) => out.write_all(b"bad line\n"),
        Err(Unread::Memory) => out.write_all(b"memory\n"),
    }
}
