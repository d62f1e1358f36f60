//! std's `HashSet` as a set of a multimap.
ghost use Rattle.std.specs.HashSet.{contains, IsEmpty, IsUnique};
ghost use Rattle.range_multimaps.specs.ListedMembers.{table_void, table_void_equal, table_equal_value, table_equal_same, table_same_equal, table_clones};

use super::{MaybeEmpty, SetAlgebra, SetMut};
use std::alloc::{AllocError, Global};
use std::collections::HashSet;
use std::hash::Hash;

impl<V: Eq + Hash + Clone + Drop> MaybeEmpty for HashSet<V> {
    ghost is_void = { IsEmpty };

    ghost is_set = { IsUnique V.eq };

    fn default(alloc: Global) -> HashSet<V> {
        HashSet::new(alloc)
    }

    fn is_empty(&self) -> bool {
        self.is_empty()
    }

    fn known(&self) {
        let _count = self.len();
    }

    ghost void_equal = { table_void_equal V.eq V.Eq.laws };
}

impl<V: Eq + Hash + Clone + Drop> SetMut<V> for HashSet<V> {
    ghost has = { contains V.eq };

    fn contains(&self, value: &V) -> bool {
        self.contains(value)
    }

    fn insert(&mut self, value: V) -> Result<(), AllocError> {
        self.insert(value)?;
        Ok(())
    }

    fn remove(&mut self, value: &V) {
        self.remove(value);
    }

    ghost void_is = { table_void V.eq V.Eq.laws };

    ghost has_equal = { table_equal_value V.eq V.Eq.laws };

    ghost equal_same = { table_equal_same V.eq V.Eq.laws };

    ghost same_equal = { λ s t _ _. table_same_equal V.eq V.Eq.laws s t };

    ghost clones_equal = { table_clones V.eq V.Eq.laws V.is_clone };
}

impl<V: Eq + Hash + Clone + Drop> SetAlgebra<V> for HashSet<V> {
    fn united_with(&self, other: &HashSet<V>) -> Result<HashSet<V>, AllocError> {
        self | other
    }

    fn without(&self, other: &HashSet<V>) -> Result<HashSet<V>, AllocError> {
        self - other
    }
}
