//! A map taken apart: its ranges with their values, moved out from both ends.
ghost use Rattle.std.specs.Prelude.{◌≡◌};
ghost use Rattle.range_runs.specs.Canonical.{IsCanonical};

use crate::map::{Iter, RangeMap};
use range_algebra::any::AnyRange;
use range_keys::traits::PartialEnum;
pub use range_reads::into_iter::IntoIter;
use range_store::storage::{Item, Storage};

/// `for (range, value) in map`: the pairs are moved out, one at each step. Allocates nothing.
impl<K: PartialEnum, V: Eq + Drop, C: Storage<Item<AnyRange<K>, V>>> IntoIterator
    for RangeMap<K, V, C> {
    type Item = (AnyRange<K>, V);

    type IntoIter = IntoIter<K, V, C>;

    ghost into_iter_gives = { λ map list. (list ≡ C.items map) × IsCanonical K.order V.eq list };

    fn into_iter(self) -> IntoIter<K, V, C> {
        self.in_form();
        IntoIter::new(self.stored)
    }
}

/// `for (range, value) in &map`: what `iter` gives. Allocates nothing.
impl<'a, K: PartialEnum, V: Eq + Drop, C: Storage<Item<AnyRange<K>, V>>> IntoIterator
    for &'a RangeMap<K, V, C> {
    type Item = (&'a AnyRange<K>, &'a V);

    type IntoIter = Iter<'a, K, V, C>;

    ghost into_iter_gives = { λ map list. (list ≡ C.items map.now) × IsCanonical K.order V.eq list };

    fn into_iter(self) -> Iter<'a, K, V, C> {
        self.iter()
    }
}
