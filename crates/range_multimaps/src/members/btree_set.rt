//! std's `BTreeSet` as a set of a multimap.
ghost use Rattle.std.specs.BTreeSet.{contains, IsEmpty, IsOrdered};
ghost use Rattle.range_multimaps.specs.ListedMembers.{tree_void, tree_void_equal, tree_equal_value, tree_equal_same, tree_clones};
ghost use Rattle.range_map.specs.OrderedSets.{tree_same_equal};

use super::{MaybeEmpty, SetAlgebra, SetMut};
use std::alloc::{AllocError, Global};
use std::collections::BTreeSet;

impl<V: Ord + Clone + Drop> MaybeEmpty for BTreeSet<V> {
    ghost is_void = { IsEmpty };

    ghost is_set = { IsOrdered V.cmp };

    fn default(alloc: Global) -> BTreeSet<V> {
        BTreeSet::new(alloc)
    }

    fn is_empty(&self) -> bool {
        self.is_empty()
    }

    fn known(&self) {
        let _count = self.len();
    }

    ghost void_equal = { tree_void_equal V.eq };
}

impl<V: Ord + Clone + Drop> SetMut<V> for BTreeSet<V> {
    ghost has = { contains V.cmp };

    fn contains(&self, value: &V) -> bool {
        self.contains(value)
    }

    fn insert(&mut self, value: V) -> Result<(), AllocError> {
        self.insert(value)?;
        Ok(())
    }

    fn remove(&mut self, value: &V) {
        self.remove(value);
    }

    ghost void_is = { tree_void V.cmp V.total };

    ghost has_equal = { tree_equal_value V.cmp V.total V.eq V.matches_eq };

    ghost equal_same = { tree_equal_same V.cmp V.total V.eq V.matches_eq };

    ghost same_equal = { tree_same_equal V.cmp V.total V.eq V.matches_eq };

    ghost clones_equal = { tree_clones V.eq V.is_clone };
}

impl<V: Ord + Clone + Drop> SetAlgebra<V> for BTreeSet<V> {
    fn united_with(&self, other: &BTreeSet<V>) -> Result<BTreeSet<V>, AllocError> {
        self | other
    }

    fn without(&self, other: &BTreeSet<V>) -> Result<BTreeSet<V>, AllocError> {
        self - other
    }
}
