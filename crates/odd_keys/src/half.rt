//! Numbers of which several are equal.

ghost use Rattle.std.specs.Prelude.{◌≡◌, ◌-◌, refl};
ghost use Rattle.std.proofs.Common.{lit<};
ghost use Rattle.std.specs.Ordering.{nat_cmp, on, eq_by_cmp, as_partial_cmp};
ghost use Rattle.std.specs.Cmp.{nat_cmp_total, on_total, eq_by_cmp_equiv, partial_equiv_from_equiv, partial_order_from_total};
ghost use Rattle.odd_keys.specs.Classes.{classes_lawful, classes_complete, classes_measure};
ghost use Rattle.odd_keys.specs.Halves.{half_place, half_order, halves};

use btree_range_map::range::traits::{Bounded, Complete, MaybeBounded, Measure, PartialEnum};
use std::cmp::Ordering;

/// A number of which only the half counts, rounded down.
#[derive(Clone, Copy, Debug)]
pub struct Half(pub u8);

impl PartialEq for Half {
    ghost eq = { eq_by_cmp (on half_place nat_cmp) };

    ghost laws = { partial_equiv_from_equiv (eq_by_cmp_equiv (on_total half_place nat_cmp_total)) };

    fn eq(&self, other: &Half) -> bool {
        self.0 / 2 == other.0 / 2
    }
}

impl Eq for Half {
    ghost laws = { eq_by_cmp_equiv (on_total half_place nat_cmp_total) };
}

impl PartialOrd for Half {
    ghost partial_cmp = { as_partial_cmp (on half_place nat_cmp) };

    ghost laws = { partial_order_from_total (on_total half_place nat_cmp_total) };

    fn partial_cmp(&self, other: &Half) -> Option<Ordering> {
        Some(self.cmp(other))
    }
}

impl Ord for Half {
    ghost cmp = { on half_place nat_cmp };

    ghost total = { on_total half_place nat_cmp_total };

    ghost matches_partial_cmp = { λ a b. refl };

    ghost matches_eq = { λ a b. refl };

    fn cmp(&self, other: &Half) -> Ordering {
        (self.0 / 2).cmp(&(other.0 / 2))
    }
}

impl MaybeBounded for Half {
    ghost order = { half_order };

    fn min() -> Option<Half> {
        Some(Half(0))
    }

    fn max() -> Option<Half> {
        Some(Half(254))
    }

    fn known(&self) {
        let _number = self.0;
    }

    ghost order_is_cmp = { λ a b. refl };
}

impl PartialEnum for Half {
    fn succ(&self) -> Option<Half> {
        if self.0 < 254 {
            Some(Half((self.0 / 2 + 1) * 2))
        } else {
            None
        }
    }

    fn pred(&self) -> Option<Half> {
        if self.0 < 2 {
            None
        } else {
            Some(Half((self.0 / 2 - 1) * 2))
        }
    }

    ghost lawful = { classes_lawful half_place halves };
}

impl Bounded for Half {
    ghost smallest = { record { 0 = 0 } };

    ghost largest = { record { 0 = 254 } };

    fn min() -> Half {
        Half(0)
    }

    fn max() -> Half {
        Half(254)
    }

    ghost known_least = { refl };

    ghost known_greatest = { refl };
}

impl Measure for Half {
    ghost len = { λ _. 1 };

    ghost distance = { λ a b. half_place b - half_place a };

    fn len(&self) -> u128 {
        1
    }

    fn distance(&self, other: &Half) -> u128 {
        (other.0 / 2 - self.0 / 2) as u128
    }

    ghost measured = { classes_measure half_place halves (lit< tt) };
}

impl Complete for Half {
    ghost complete = { classes_complete half_place halves };
}
