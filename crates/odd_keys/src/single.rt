//! Keys that cannot be cloned.

ghost use Rattle.std.specs.Prelude.{refl};
ghost use Rattle.btree_range_map.specs.Counted.{counted_lawful};
ghost use Rattle.odd_keys.specs.Singles.{single_order, single_counted};

use btree_range_map::range::traits::{Bounded, MaybeBounded, PartialEnum};
use std::alloc::AllocError;

/// A number of which there is no second: its clone always fails.
#[derive(PartialEq, Eq, PartialOrd, Ord, Drop, Debug)]
pub struct Single(pub u8);

impl Clone for Single {
    ghost is_clone = { λ _ _. ⊥ };

    fn clone(&self) -> Result<Single, AllocError> {
        Err(AllocError)
    }
}

impl MaybeBounded for Single {
    ghost order = { single_order };

    fn min() -> Option<Single> {
        Some(Single(0))
    }

    fn max() -> Option<Single> {
        Some(Single(u8::MAX))
    }

    fn known(&self) {
        let _number = self.0;
    }

    ghost order_is_cmp = { λ a b. refl };
}

impl PartialEnum for Single {
    fn succ(&self) -> Option<Single> {
        if self.0 < u8::MAX {
            Some(Single(self.0 + 1))
        } else {
            None
        }
    }

    fn pred(&self) -> Option<Single> {
        if 0 < self.0 {
            Some(Single(self.0 - 1))
        } else {
            None
        }
    }

    ghost lawful = { counted_lawful single_counted };
}

impl Bounded for Single {
    ghost smallest = { record { 0 = 0 } };

    ghost largest = { record { 0 = 255 } };

    fn min() -> Single {
        Single(0)
    }

    fn max() -> Single {
        Single(u8::MAX)
    }

    ghost known_least = { refl };

    ghost known_greatest = { refl };
}
