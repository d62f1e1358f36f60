//! Keys whose neighbours and ends are not known.

ghost use Rattle.std.specs.Prelude.{refl};
ghost use Rattle.btree_range_map.specs.BareOrders.{bare_order, bare_lawful, bare_measured};
ghost use Rattle.odd_keys.specs.Blinds.{blind_cmp, blind_total};

use btree_range_map::range::traits::{MaybeBounded, Measure, PartialEnum};
use std::convert::Infallible;

/// A key with the order of the value within and nothing else: no neighbour, no end, no size.
#[derive(Clone, Copy, PartialEq, Eq, PartialOrd, Ord, Debug)]
pub struct Blind<T>(pub T);

/// A key that there is not.
///
/// Written as a type of its own it would have functions that nobody can call, such as `known`;
/// those of [`Blind`] are called at other types.
pub type Never = Blind<Infallible>;

impl<T: Ord + Copy> MaybeBounded for Blind<T> {
    ghost order = { bare_order (blind_cmp T.cmp) };

    fn min() -> Option<Blind<T>> {
        None
    }

    fn max() -> Option<Blind<T>> {
        None
    }

    fn known(&self) {}

    ghost order_is_cmp = { λ a b. refl };
}

impl<T: Ord + Copy> PartialEnum for Blind<T> {
    fn succ(&self) -> Option<Blind<T>> {
        None
    }

    fn pred(&self) -> Option<Blind<T>> {
        None
    }

    ghost lawful = { bare_lawful (blind_cmp T.cmp) (blind_total T.total) };
}

impl<T: Ord + Copy> Measure for Blind<T> {
    ghost len = { λ _. 0 };

    ghost distance = { λ _ _. 0 };

    fn len(&self) -> u128 {
        0
    }

    fn distance(&self, _other: &Blind<T>) -> u128 {
        0
    }

    ghost measured = { bare_measured (blind_cmp T.cmp) (blind_total T.total) };
}
