//! The two promises of a map, each over all keys for which it holds, and then at each key type.
//!
//! The last write wins: over every lawful key, [`bindings`]. The bindings decide the stored list:
//! over every complete key, [`lists`].

ghost use Rattle.std.specs.Option.{option_copied};
ghost use Rattle.odd_keys.specs.Promises.{IsAdded};

pub mod bindings;
pub mod lists;

use btree_range_map::generic::map::Command;

/// The sum of two numbers is too large or too small.
#[derive(Drop)]
pub struct NoSum;

/// Commands to a map whose values are numbers; the tag of an update is added to what it meets.
pub type Commands<K> = Vec<Command<K, i64, i64>>;

/// The closure of all updates: adds the tag to what a piece is bound to, and binds a free one to it.
fn added(tag: &i64, old: Option<&i64>) -> Result<Option<i64>, NoSum>
    ensures { IsAdded tag.now (option_copied old.entry) result }
{
    match old {
        None => Ok(Some(*tag)),
        Some(old) => match old.checked_add(*tag) {
            Some(sum) => Ok(Some(sum)),
            None => Err(NoSum),
        },
    }
}
