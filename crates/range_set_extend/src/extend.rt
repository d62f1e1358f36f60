//! One insertion for each range.
ghost use Rattle.std.specs.Prelude.{OnOk, OnErr};
ghost use Rattle.std.specs.Iterator.{IsFiniteIterable};
ghost use Rattle.range_algebra.specs.Range.{ClonesAreEqual};
ghost use Rattle.range_set_extend.specs.Extending.{AfterAll, AfterSome};
ghost use Rattle.range_set_extend.specs.KeySets.{HoldsAllAlso, IsCanonicalSet};

use range_algebra::any::AnyRange;
use range_algebra::range::IntoRange;
use range_keys::traits::{Measure, PartialEnum};
use range_map::map::{MapError, RangeMap};
use range_store::storage::{Item, Storage};

/// Does nothing, and promises the form of what is stored.
fn in_form<T: PartialEnum, C: Storage<Item<AnyRange<T>, ()>>>(set: &RangeMap<T, (), C>)
    ensures { IsCanonicalSet T.order (C.items set.now) }
{
    // `iter` promises it.
    let _items = set.iter();
}

/// Adds each key of each range that the iterator gives, as `extend` of a set does.
pub fn extend<T, C, R, I>(set: &mut RangeMap<T, (), C>, ranges: I) -> Result<(), MapError>
where
    T: Measure + Clone,
    C: Storage<Item<AnyRange<T>, ()>>,
    R: IntoRange<Item = T>,
    I: IntoIterator<Item = R>,
    requires clones { ClonesAreEqual T.is_clone T.eq }
    requires ends { IsFiniteIterable I.into_iter_gives I.IntoIter.can_next I.IntoIter.remaining
        ranges }
    ensures added { OnOk result
        (AfterAll I.into_iter_gives I.IntoIter.next_gives R.range ranges
        (HoldsAllAlso T.order (C.items set.old) (C.items set.new))) }
    ensures refused { OnErr result
        (AfterSome I.into_iter_gives I.IntoIter.next_gives R.range ranges T.order
        (HoldsAllAlso T.order (C.items set.old) (C.items set.new))) }
    ensures canonical { IsCanonicalSet T.order (C.items set.new) }
{
    in_form(set);
    for range in ranges {
        set.insert(range, ())?;
    }
    Ok(())
}
