//! Values of which the first number alone counts.

ghost use Rattle.std.specs.Prelude.{◌≡◌};
ghost use Rattle.std.specs.Ordering.{int_cmp, on, eq_by_cmp};
ghost use Rattle.std.specs.Cmp.{int_cmp_total, on_total, eq_by_cmp_equiv, partial_equiv_from_equiv};
ghost use Rattle.odd_keys.specs.declared.loose.Loose.{Loose};

/// Two numbers, equal to others where the first is.
#[derive(Clone, Copy, Debug)]
pub struct Loose(pub i64, pub i64);

impl PartialEq for Loose {
    ghost eq = { eq_by_cmp (on (λ (x : Loose). x.0) int_cmp) };

    ghost laws = { partial_equiv_from_equiv
        (eq_by_cmp_equiv (on_total (λ (x : Loose). x.0) int_cmp_total)) };

    fn eq(&self, other: &Loose) -> bool {
        self.0 == other.0
    }
}

impl Eq for Loose {
    ghost laws = { eq_by_cmp_equiv (on_total (λ (x : Loose). x.0) int_cmp_total) };
}
