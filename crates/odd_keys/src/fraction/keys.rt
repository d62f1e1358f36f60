//! Fractions as keys.

ghost use Rattle.std.specs.Prelude.{◌≡◌};
ghost use Rattle.std.proofs.Common.{refl};
ghost use Rattle.std.specs.Ordering.{eq_by_cmp, as_partial_cmp};
ghost use Rattle.std.specs.Cmp.{eq_by_cmp_equiv, partial_equiv_from_equiv, partial_order_from_total};
ghost use Rattle.odd_keys.specs.Fractions.{fraction_cmp, fraction_order, fraction_total, fraction_lawful, fraction_measured};

use crate::fraction::Fraction;
use btree_range_map::range::traits::{MaybeBounded, Measure, PartialEnum};
use std::cmp::Ordering;

impl PartialEq for Fraction {
    ghost eq = { eq_by_cmp fraction_cmp };

    ghost laws = { partial_equiv_from_equiv (eq_by_cmp_equiv fraction_total) };

    fn eq(&self, other: &Fraction) -> bool {
        self.cmp(other) == Ordering::Equal
    }
}

impl Eq for Fraction {
    ghost laws = { eq_by_cmp_equiv fraction_total };
}

impl PartialOrd for Fraction {
    ghost partial_cmp = { as_partial_cmp fraction_cmp };

    ghost laws = { partial_order_from_total fraction_total };

    fn partial_cmp(&self, other: &Fraction) -> Option<Ordering> {
        Some(self.cmp(other))
    }
}

impl Ord for Fraction {
    ghost cmp = { fraction_cmp };

    ghost total = { fraction_total };

    ghost matches_partial_cmp = { λ a b. refl };

    ghost matches_eq = { λ a b. refl };

    fn cmp(&self, other: &Fraction) -> Ordering {
        let left = u64::from(self.numerator) * u64::from(other.denominator);
        let right = u64::from(other.numerator) * u64::from(self.denominator);
        left.cmp(&right)
    }
}

impl MaybeBounded for Fraction {
    ghost order = { fraction_order };

    fn min() -> Option<Fraction> {
        None
    }

    fn max() -> Option<Fraction> {
        None
    }

    fn known(&self) {}

    ghost order_is_cmp = { λ a b. refl };
}

impl PartialEnum for Fraction {
    fn succ(&self) -> Option<Fraction> {
        None
    }

    fn pred(&self) -> Option<Fraction> {
        None
    }

    ghost lawful = { fraction_lawful };
}

impl Measure for Fraction {
    ghost len = { λ _. 0 };

    ghost distance = { λ _ _. 0 };

    fn len(&self) -> u128 {
        0
    }

    fn distance(&self, other: &Fraction) -> u128 {
        0
    }

    ghost measured = { fraction_measured };
}
