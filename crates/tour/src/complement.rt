//! A set and the complement of its complement, and what a caller proves of them by a law.

ghost use Rattle.std.specs.Prelude.{IfOk, IsTrue};
ghost use Rattle.btree_range_map.specs.Range.{ClonesAreEqual};
ghost use Rattle.btree_range_map.specs.SetOrder.{same_ranges};

use btree_range_map::generic::RangeSet;
use btree_range_map::generic::set::complementing_twice_restores;
use btree_range_map::storage::{Item, Storage};
use btree_range_map::{AnyRange, MapError, Measure};

/// The complement of the complement of a set, which equals it.
pub fn complemented_twice<T: Measure + Clone, C: Storage<Item<AnyRange<T>, ()>>>(
    set: &RangeSet<T, C>,
) -> Result<RangeSet<T, C>, MapError>
    requires { ClonesAreEqual T.is_clone T.eq }
    ensures equal { IfOk result
        (λ again. IsTrue (same_ranges T.order (C.items again) (C.items set.now))) }
{
    complementing_twice_restores::<T>();
    let _ranges = set.iter(); // whose contract says the form in which they are stored
    let others = set.complement()?;
    let again = others.complement()?;
    Ok(again)
}
