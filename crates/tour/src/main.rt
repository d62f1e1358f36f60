//! The first program of the README, what the guide shows, and callers of what it does not show.
//!
//! The program calls nothing else of this crate: all of it is proved, and what the guide shows is
//! run by `tests/example_tests`.
//!
//! Where to find what:
//!
//! - an access table over ports, a key type of its own: `src/access`, `specs/{Ports,Rules}.antt`
//! - which bytes of a download have come: `src/downloads.rt`, `specs/Coverage.antt`
//! - callers that cite a law: `src/{complement,round_trip,unions}.rt`
//! - values in JSON, and sets as values: `src/{own_values,set_values}.rt`
//! - a caller at one type of each public call that no other crate calls so: `src/callers`
#![tactic(auto)]

mod access;
mod callers;
mod complement;
mod downloads;
mod own_values;
mod round_trip;
mod set_values;
mod unions;

use btree_range_map::RangeMap;

fn main(rt: HostRuntime) -> anyhow::Result<()> {
    let mut map: RangeMap<i32, i64> = RangeMap::new(rt.alloc());
    map.insert(0..=5, 1)?;
    map.insert(4, 0)?; // a key alone
    println!(rt; "{} keys in {} ranges", map.len(), map.range_count())?;
    Ok(())
}
