//! A key type with one key.

ghost use Rattle.std.specs.Prelude.{refl};
ghost use Rattle.std.proofs.Common.{lit<};
ghost use Rattle.btree_range_map.specs.Counted.{counted_lawful, counted_complete, counted_measure};
ghost use Rattle.odd_keys.specs.Onlys.{only_order, only_counted};

use btree_range_map::range::traits::{Bounded, Complete, MaybeBounded, Measure, PartialEnum};

/// The only key of its type.
#[derive(Clone, Copy, PartialEq, Eq, PartialOrd, Ord, Debug)]
pub struct Only;

impl MaybeBounded for Only {
    ghost order = { only_order };

    fn min() -> Option<Only> {
        Some(Only)
    }

    fn max() -> Option<Only> {
        Some(Only)
    }

    fn known(&self) {}

    ghost order_is_cmp = { λ a b. refl };
}

impl PartialEnum for Only {
    fn succ(&self) -> Option<Only> {
        None
    }

    fn pred(&self) -> Option<Only> {
        None
    }

    ghost lawful = { counted_lawful only_counted };
}

impl Bounded for Only {
    ghost smallest = { record {} };

    ghost largest = { record {} };

    fn min() -> Only {
        Only
    }

    fn max() -> Only {
        Only
    }

    ghost known_least = { refl };

    ghost known_greatest = { refl };
}

impl Measure for Only {
    ghost len = { λ _. 1 };

    ghost distance = { λ _ _. 0 };

    fn len(&self) -> u128 {
        1
    }

    fn distance(&self, _other: &Only) -> u128 {
        0
    }

    ghost measured = { counted_measure only_counted (lit< tt) };
}

impl Complete for Only {
    ghost complete = { counted_complete only_counted };
}
