//! A caller of a list of commands whose steps are counted.

ghost use Rattle.std.specs.Prelude.{OnErr, ◌≡◌};
ghost use Rattle.btree_range_map.specs.Names.{bindings_of};

use btree_range_map::generic::map::{Command, Reply, run_counted};
use btree_range_map::storage::Steps;
use btree_range_map::{MapError, RangeMap};
use std::alloc::Global;

fn bound_to(tag: &i64, _old: Option<&i64>) -> Result<Option<i64>, u8> {
    Ok(Some(*tag))
}

fn run_and_counted(
    alloc: Global,
    map: &mut RangeMap<i32, i64>,
    commands: Vec<Command<i32, i64, i64>>,
    steps: &mut Steps,
) -> Result<Vec<Reply<i32, i64, u8>>, MapError>
    ensures refused { OnErr result (bindings_of map.new ≡ bindings_of map.old) }
    ensures refused_steps { OnErr result (steps.new ≡ steps.old) }
{
    run_counted(alloc, map, commands, &bound_to, steps)
}
