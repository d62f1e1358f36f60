//! The union of two sets, either of them first, and what a caller proves of the two by a law.

ghost use Rattle.std.specs.Prelude.{IfOk, IsTrue};
ghost use Rattle.btree_range_map.specs.Order.{IsComplete};
ghost use Rattle.btree_range_map.specs.Range.{ClonesAreEqual};

use btree_range_map::generic::RangeSet;
use btree_range_map::generic::set::set_operations_commute;
use btree_range_map::storage::{Item, Storage};
use btree_range_map::{AnyRange, MapError, Measure};

/// Whether the union of two sets is the same whichever comes first: over complete keys it is.
pub fn unions_are_equal<T: Measure + Clone, C: Storage<Item<AnyRange<T>, ()>>>(
    set: &RangeSet<T, C>,
    other: &RangeSet<T, C>,
) -> Result<bool, MapError>
    requires { ClonesAreEqual T.is_clone T.eq }
    ensures equal { IsComplete T.order → IfOk result IsTrue }
{
    set_operations_commute::<T>();
    let first = set.union(other)?;
    let second = other.union(set)?;
    Ok(first == second)
}
